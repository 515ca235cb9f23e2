// The refusals of a log, with their numbers.
ghost use Rattle.std.specs.Prelude.{◌≡◌};
ghost use Rattle.lives.specs.Refusals.{log_refusal};

use crate::refusal::LogRefusal;
use operations::refusal::{Layer, Refusal};

impl From<LogRefusal> for Refusal {
    ghost from_gives = { λ refused refusal. refusal ≡ log_refusal refused };

    fn from(refused: LogRefusal) -> Refusal {
        let (number, place) = match refused {
            LogRefusal::FirstTick { first } => (17, first as usize),
            LogRefusal::NoCabinet { cabinet } => (8, cabinet as usize),
            LogRefusal::NoSuchBay { bay } => (8, bay as usize),
            LogRefusal::Busy { cabinet } => (18, cabinet as usize),
            LogRefusal::Full { limit } => (19, limit),
            LogRefusal::NoTick { next } => (20, next as usize),
            LogRefusal::NotWaiting { begun } => (21, begun as usize),
            LogRefusal::Waiting { count } => (22, count as usize),
        };
        Refusal {
            number,
            place,
            layer: Layer::Log,
        }
    }
}
