// Rows lent for reading.
ghost use Rattle.std.specs.Prelude.{◌≡◌, ◌≤◌, length, drop, Some, MatchOption, refl, ⊤};
ghost use Rattle.std.specs.List.{slice_get};
ghost use Rattle.operations.specs.Rows.{AllValid};

use crate::operation::Operation;
use crate::refusal::PastEnd;
use crate::row::Row;
use crate::source::Source;
use crate::step::Step;
use std::alloc::AllocError;
use values::kind::Kind;

// Rows, each an operation's, as a source. What keeps its operations as rows is shown through it.
pub struct LentRows<'a, V> {
    pub rows: &'a [Row<V>],
    ghost valid: { AllValid rows.now },
}

impl<'a, V> Clone for LentRows<'a, V> {
    ghost is_clone = { λ x y. y ≡ x };

    ghost is_infallible = { λ _. ⊤ };

    fn clone(&self) -> Result<LentRows<'a, V>, AllocError> {
        Ok(*self)
    }
}

impl<'a, V> Copy for LentRows<'a, V> {}

impl<'a, V: Copy> LentRows<'a, V> {
    // The operation of the row at a place.
    fn told(&self, place: usize) -> Option<Operation<V>>
        ensures { MatchOption result (length self.now.rows.now ≤ place) (λ o. slice_get self.now.rows.now place ≡ Some o.row) }
    {
        let row = self.rows.get(place)?;
        Operation::of(*row)
    }
}

impl<'a, V: Kind> Source for LentRows<'a, V> {
    type Value = V;

    ghost operations = { λ lent. lent.rows.now };

    ghost valid = { λ lent. lent.valid };

    ghost onward = { λ lent position. drop position lent.rows.now };

    ghost begins = { λ lent. refl };

    fn len(&self) -> usize {
        self.rows.len()
    }

    fn at(&self, place: usize) -> Result<Operation<V>, PastEnd> {
        self.told(place).ok_or(PastEnd { place })
    }

    fn next(&self, position: usize) -> Option<Step<V>> {
        let operation = self.told(position)?;
        Some(Step {
            operation,
            next: position + 1,
        })
    }
}
