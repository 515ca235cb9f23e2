// The refusals of a survey, with their numbers.
ghost use Rattle.std.specs.Prelude.{◌≡◌};
ghost use Rattle.gathering.specs.Faults.{fault_refusal};
ghost use Rattle.operations.specs.declared.refusal.Layer.TheVariants.{Survey};
ghost use Rattle.surveying.specs.Refusals.{survey_refusal};

use crate::refusal::SurveyRefusal;
use gathering::faults::Fault;
use operations::refusal::{Layer, Refusal};

impl From<SurveyRefusal> for Refusal {
    ghost from_gives = { λ refused refusal. refusal ≡ survey_refusal refused };

    fn from(refused: SurveyRefusal) -> Refusal {
        let (number, place) = match refused {
            SurveyRefusal::NoLimit { limit } => (9, limit as usize),
            SurveyRefusal::TooMany { operations } => (11, operations),
            SurveyRefusal::TooManyWrites { bay } => (12, bay as usize),
            SurveyRefusal::WrittenTwice { place } => (13, place),
            SurveyRefusal::Unwritten { place } => (14, place),
            SurveyRefusal::Foreseen { place } => (15, place),
            SurveyRefusal::OverLimit { bay } => (16, bay as usize),
        };
        Refusal {
            number,
            place,
            layer: Layer::Survey,
        }
    }
}

// A fault of an operation is told as the survey's refusal.
impl From<Fault> for SurveyRefusal {
    ghost from_gives = { λ fault refused. survey_refusal refused ≡ fault_refusal Survey fault };

    fn from(fault: Fault) -> SurveyRefusal {
        match fault {
            Fault::WrittenTwice { place } => SurveyRefusal::WrittenTwice { place },
            Fault::Unwritten { place } => SurveyRefusal::Unwritten { place },
            Fault::Foreseen { place } => SurveyRefusal::Foreseen { place },
        }
    }
}
