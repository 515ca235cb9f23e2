// Operations.
ghost use Rattle.std.specs.Prelude.{◌≡◌, ◌≤◌, MatchOption, ⊤};
ghost use Rattle.operations.specs.Rows.{Valid};

use crate::row::Row;
use std::alloc::AllocError;

// How many bays there are.
pub const BAYS: u8 = 64;

// The last bay, counted from 0.
pub const LAST_BAY: u8 = 63;

// The last cabinet, counted from 0.
pub const LAST_CABINET: u8 = 63;

// The last tick.
pub const LAST_TICK: u32 = 1_073_741_823;

// An operation: a row that keeps the rules.
pub struct Operation<V> {
    row: Row<V>,
    ghost bays: { row.bay ≤ 63 },
    ghost cabinets: { row.cabinet ≤ 63 },
    ghost order: { row.start ≤ row.finish },
    ghost ticks: { row.finish ≤ 1073741823 },
}

impl<V: Copy> Clone for Operation<V> {
    ghost is_clone = { λ x y. y ≡ x };

    ghost is_infallible = { λ _. ⊤ };

    fn clone(&self) -> Result<Operation<V>, AllocError> {
        Ok(*self)
    }
}

impl<V: Copy> Copy for Operation<V> {}

impl<V: Copy> Operation<V> {
    // The operation that a row describes, if it describes one.
    pub fn of(row: Row<V>) -> Option<Operation<V>>
        ensures { MatchOption result (Valid row → ⊥) (λ o. o.row ≡ row) }
    {
        if row.bay > LAST_BAY
            || row.cabinet > LAST_CABINET
            || row.start > row.finish
            || row.finish > LAST_TICK
        {
            return None;
        }
        Some(Operation { row })
    }

    pub fn row(&self) -> Row<V>
        ensures { result ≡ self.now.row }
    {
        self.row
    }
}
