// Reports as text.
ghost use Rattle.std.specs.Prelude.{Some};
ghost use Rattle.surveying.specs.Words.{report_words};

use crate::report::Report;
use std::fmt;

impl fmt::Display for Report {
    ghost output = { λ report. Some (report_words report) };

    fn fmt<W: fmt::Write>(&self, f: &mut fmt::Formatter<W>) -> fmt::Result {
        let age = self.age;
        let trials = self.trials;
        let kept = self.kept;
        write!(f, "age {age} trials {trials} kept {kept}")
    }
}
