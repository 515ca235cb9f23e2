// Calls and what accepted ones were told, as text.
ghost use Rattle.std.specs.Prelude.{Some};
ghost use Rattle.replaying.specs.Words.{accepted_words, call_words};

use crate::answer::Accepted;
use crate::call::Call;
use std::fmt;
use values::words::Written;

// A call as a line of a script has it.
impl<V: Written> fmt::Display for Call<V> {
    ghost output = { λ call. Some (call_words V.Written.words call) };

    fn fmt<W: fmt::Write>(&self, f: &mut fmt::Formatter<W>) -> fmt::Result {
        match self {
            Call::Begin { sort, cabinet, bay } => {
                write!(f, "begin {sort} cabinet {cabinet} bay {bay}")
            }
            Call::End { ticket, value } => write!(f, "end {ticket} {value}"),
            Call::Lose { ticket } => write!(f, "lose {ticket}"),
            Call::Close => f.write_str("close"),
            Call::Reopen => f.write_str("reopen"),
            Call::Survey { bays: None, limit } => write!(f, "survey limit {limit}"),
            Call::Survey {
                bays: Some(bays),
                limit,
            } => {
                write!(f, "survey limit {limit} without")?;
                for bay in bays {
                    write!(f, " {bay}")?;
                }
                Ok(())
            }
        }
    }
}

impl fmt::Display for Accepted {
    ghost output = { λ accepted. Some (accepted_words accepted) };

    fn fmt<W: fmt::Write>(&self, f: &mut fmt::Formatter<W>) -> fmt::Result {
        match *self {
            Accepted::Begun { tick } => write!(f, "begun at {tick}"),
            Accepted::Ended => f.write_str("ended"),
            Accepted::Lost => f.write_str("lost"),
            Accepted::Closed => f.write_str("closed"),
            Accepted::Reopened => f.write_str("reopened"),
            Accepted::Surveyed(report) => report.fmt(f),
        }
    }
}
