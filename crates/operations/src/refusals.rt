// The refusals of sources and of leaving out, with their numbers. A named case is a refusal by `From`, in every crate that refuses.
ghost use Rattle.std.specs.Prelude.{◌≡◌};
ghost use Rattle.operations.specs.Refusals.{no_bay, past_end};

use crate::refusal::{Layer, NoBay, PastEnd, Refusal};

impl From<NoBay> for Refusal {
    ghost from_gives = { λ refused refusal. refusal ≡ no_bay refused };

    fn from(refused: NoBay) -> Refusal {
        Refusal {
            number: 6,
            place: refused.entry,
            layer: Layer::List,
        }
    }
}

impl From<PastEnd> for Refusal {
    ghost from_gives = { λ refused refusal. refusal ≡ past_end refused };

    fn from(refused: PastEnd) -> Refusal {
        Refusal {
            number: 7,
            place: refused.place,
            layer: Layer::Source,
        }
    }
}
