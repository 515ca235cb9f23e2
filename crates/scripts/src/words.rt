// Lines as a script has them.
ghost use Rattle.std.specs.Prelude.{Some};
ghost use Rattle.scripts.specs.Lines.{line_text};

use crate::line::Line;
use std::fmt;

impl fmt::Display for Line {
    ghost output = { λ line. Some (line_text line) };

    fn fmt<W: fmt::Write>(&self, f: &mut fmt::Formatter<W>) -> fmt::Result {
        match self {
            Line::Open { first } => write!(f, "open {first}"),
            Line::Storage { entries } => write!(f, "storage {entries}"),
            Line::Call(call) => call.fmt(f),
        }
    }
}
