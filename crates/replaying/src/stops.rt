// Why a script was not run, from a refusal and as text.
ghost use Rattle.std.specs.Prelude.{◌≡◌, Some};
ghost use Rattle.replaying.specs.Words.{stop_words};
ghost use Rattle.replaying.specs.declared.stop.Stop.TheVariants.{Refused};

use crate::stop::Stop;
use lives::refusal::LogRefusal;
use operations::refusal::Refusal;
use std::fmt;

impl From<LogRefusal> for Stop {
    ghost from_gives = { λ refused stop. stop ≡ Refused refused };

    fn from(refused: LogRefusal) -> Stop {
        Stop::Refused(refused)
    }
}

impl fmt::Display for Stop {
    ghost output = { λ stop. Some (stop_words stop) };

    fn fmt<W: fmt::Write>(&self, f: &mut fmt::Formatter<W>) -> fmt::Result {
        match *self {
            Stop::TooLong { places } => write!(f, "more than {places} calls"),
            Stop::Refused(refused) => Refusal::from(refused).fmt(f),
        }
    }
}
