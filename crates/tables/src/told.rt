// A table as a source of operations.
ghost use Rattle.std.specs.Prelude.{◌≡◌, drop, refl};
ghost use Rattle.operations.specs.Rooms.{held};

use crate::table::Table;
use operations::lent::LentRows;
use operations::operation::Operation;
use operations::refusal::PastEnd;
use operations::source::Source;
use operations::step::Step;
use values::kind::Kind;

impl<K: Kind> Table<K> {
    fn lent(&self) -> LentRows<'_, K>
        ensures { result.rows.now ≡ held self.now.rows }
    {
        LentRows {
            rows: self.rows.as_slice(),
        }
    }
}

impl<K: Kind> Source for Table<K> {
    type Value = K;

    ghost operations = { λ t. held t.rows };

    ghost valid = { λ t. t.valid };

    ghost onward = { λ t position. drop position (held t.rows) };

    ghost begins = { λ t. refl };

    fn len(&self) -> usize {
        self.rows.len()
    }

    fn at(&self, place: usize) -> Result<Operation<K>, PastEnd> {
        self.lent().at(place)
    }

    fn next(&self, position: usize) -> Option<Step<K>> {
        self.lent().next(position)
    }
}
