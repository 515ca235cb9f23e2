// The refusals of a judge, with their numbers.
ghost use Rattle.std.specs.Prelude.{◌≡◌};
ghost use Rattle.gathering.specs.Faults.{fault_refusal};
ghost use Rattle.judging.specs.Refusals.{judge_refusal};
ghost use Rattle.operations.specs.declared.refusal.Layer.TheVariants.{Judge};

use crate::refusal::JudgeRefusal;
use gathering::faults::Fault;
use operations::refusal::{Layer, Refusal};

impl From<JudgeRefusal> for Refusal {
    ghost from_gives = { λ refused refusal. refusal ≡ judge_refusal refused };

    fn from(refused: JudgeRefusal) -> Refusal {
        let (number, place) = match refused {
            JudgeRefusal::NoBay { bay } => (8, bay as usize),
            JudgeRefusal::NoLimit { limit } => (9, limit as usize),
            JudgeRefusal::ShortSheet { entries } => (10, entries),
            JudgeRefusal::TooMany { operations } => (11, operations),
            JudgeRefusal::TooManyWrites { bay } => (12, bay as usize),
            JudgeRefusal::WrittenTwice { place } => (13, place),
            JudgeRefusal::Unwritten { place } => (14, place),
            JudgeRefusal::Foreseen { place } => (15, place),
            JudgeRefusal::OverLimit { bay } => (16, bay as usize),
        };
        Refusal {
            number,
            place,
            layer: Layer::Judge,
        }
    }
}

// A fault of the bay is told as the judge's refusal.
impl From<Fault> for JudgeRefusal {
    ghost from_gives = { λ fault refused. judge_refusal refused ≡ fault_refusal Judge fault };

    fn from(fault: Fault) -> JudgeRefusal {
        match fault {
            Fault::WrittenTwice { place } => JudgeRefusal::WrittenTwice { place },
            Fault::Unwritten { place } => JudgeRefusal::Unwritten { place },
            Fault::Foreseen { place } => JudgeRefusal::Foreseen { place },
        }
    }
}
