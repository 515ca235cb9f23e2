// Values as text.
ghost use Rattle.std.specs.Prelude.{◌≡◌, ℕ, List, Some, refl};
ghost use Rattle.values.specs.Words.{serial_words, stamp_words};

use crate::kind::Kind;
use crate::serial::Serial;
use crate::stamp::Stamp;
use std::fmt;

// A kind of value that a report can write.
pub trait Written: Kind + fmt::Display {
    ghost words: { Self → List ℕ };

    // What is written of a value is its words.
    ghost written: { (value : Self) → Self.output value ≡ Some (words value) };
}

impl fmt::Display for Serial {
    ghost output = { λ serial. Some (serial_words serial) };

    fn fmt<W: fmt::Write>(&self, f: &mut fmt::Formatter<W>) -> fmt::Result {
        let number = self.number;
        write!(f, "serial {number}")
    }
}

impl Written for Serial {
    ghost words = { serial_words };

    ghost written = { λ serial. refl };
}

impl fmt::Display for Stamp {
    ghost output = { λ stamp. Some (stamp_words stamp) };

    fn fmt<W: fmt::Write>(&self, f: &mut fmt::Formatter<W>) -> fmt::Result {
        let cabinet = self.cabinet;
        let count = self.count;
        let mark = if self.resent { " resent" } else { "" };
        write!(f, "stamp {cabinet}.{count}{mark}")
    }
}

impl Written for Stamp {
    ghost words = { stamp_words };

    ghost written = { λ stamp. refl };
}
