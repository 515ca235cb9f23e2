// A closed log as a source.
ghost use Rattle.std.specs.Prelude.{◌≡◌};
ghost use Rattle.logs.specs.Stands.{Shows};
ghost use Rattle.logs.specs.States.{state_of};

use crate::log::Closed;
use crate::storage::Storage;
use operations::lent::LentRows;

impl Closed {
    // What the log shows, as a source: the rows of the operations that ended, in the order of their ends, lent for reading.
    pub fn view<'b, V: Copy>(&self, storage: &'b Storage<'_, V>) -> LentRows<'b, V>
        ensures rows { result.rows.now ≡ (state_of storage.now).ended }
        ensures life { Shows (state_of storage.now) result.rows.now }
    {
        LentRows {
            rows: storage.rows(),
        }
    }
}
