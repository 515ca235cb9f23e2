// A source with bays left out.
ghost use Rattle.std.specs.Prelude.{◌≡◌, [], length, filter, MatchResult};
ghost use Rattle.std.proofs.Common.{ap};
ghost use Rattle.masks.specs.Masks.{has_bit};
ghost use Rattle.leaving.specs.Leaving.{entries, unlisted, keeps, BaysUpTo, MaskOf, NoBayIn};
ghost use Rattle.leaving.specs.Owed.{kept_valid};

use masks::{has_bit, with_bit};
use operations::operation::{LAST_BAY, Operation};
use operations::pass::Pass;
use operations::refusal::{NoBay, PastEnd};
use operations::source::Source;
use operations::step::Step;
use values::kind::Kind;

// The operations below whose bay is not in the mask, in their order.
#[derive_where(Clone, Copy)]
pub struct Without<'a, S> {
    below: &'a S,
    mask: u64,
}

impl<'a, S: Source> Source for Without<'a, S> {
    type Value = S::Value;

    ghost operations = { λ w. filter (keeps w.mask) (S.Source.operations w.below.now) };

    ghost valid = { λ w. kept_valid (keeps w.mask) (S.Source.operations w.below.now) (S.Source.valid w.below.now) };

    ghost onward = { λ w position. filter (keeps w.mask) (S.Source.onward w.below.now position) };

    ghost begins = { λ w. ap (filter (keeps w.mask)) (S.Source.begins w.below.now) };

    // As many as below, but for those that are left out.
    fn len(&self) -> usize {
        let mut count = self.below.len();
        for operation in Pass::over(self.below) {
            if !self.shows(&operation) {
                count -= 1;
            }
        }
        count
    }

    fn at(&self, place: usize) -> Result<Operation<S::Value>, PastEnd> {
        let mut passed = 0;
        for operation in Pass::over(self.below) {
            if self.shows(&operation) {
                if passed == place {
                    return Ok(operation);
                }
                passed += 1;
            }
        }
        Err(PastEnd { place })
    }

    fn next(&self, position: usize) -> Option<Step<S::Value>> {
        let mut from = position;
        while let Some(step) = self.below.next(from) {
            if self.shows(&step.operation) {
                return Some(step);
            }
            from = step.next;
        }
        None
    }
}

impl<'a, S: Source> Without<'a, S> {
    // Whether the operation is still shown.
    fn shows(&self, operation: &Operation<S::Value>) -> bool
        ensures { result ≡ keeps self.now.mask operation.now.row }
    {
        !self.leaves_out(u32::from(operation.row().bay))
    }
}

impl<'a, S> Without<'a, S> {
    // Whether the bay is left out.
    pub fn leaves_out(&self, bay: u32) -> bool
        ensures { result ≡ has_bit self.now.mask bay }
    {
        has_bit(self.mask, bay)
    }
}

// The source without the listed bays. Where there is no list, filtering is off.
pub fn leave_out<'a, S: Source>(below: &'a S, bays: Option<&[u32]>) -> Result<Without<'a, S>, NoBay>
    ensures unlisted { MatchResult result
        (λ w. BaysUpTo (entries bays.entry) (length (entries bays.entry))
        × MaskOf (entries bays.entry) w.mask
        × (filter (keeps w.mask) (S.Source.operations w.below.now) ≡ unlisted (entries bays.entry) (S.Source.operations below.now)))
        (NoBayIn (entries bays.entry)) }
    ensures absent_or_empty { entries bays.entry ≡ [] → MatchResult result
        (λ w. filter (keeps w.mask) (S.Source.operations w.below.now) ≡ S.Source.operations below.now)
        (λ _. ⊥) }
{
    let mask = match bays {
        Some(listed) => mask_of(listed)?,
        None => 0,
    };
    Ok(Without { below, mask })
}

// The mask of the listed bays.
fn mask_of(bays: &[u32]) -> Result<u64, NoBay>
    ensures { MatchResult result (λ mask. BaysUpTo bays.now (length bays.now) × MaskOf bays.now mask) (NoBayIn bays.now) }
{
    let mut mask: u64 = 0;
    for (place, &bay) in bays.iter().enumerate() {
        if bay > u32::from(LAST_BAY) {
            return Err(NoBay { entry: place });
        }
        mask = with_bit(mask, bay);
    }
    Ok(mask)
}
