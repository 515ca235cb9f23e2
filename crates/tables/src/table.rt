// Tables.
ghost use Rattle.operations.specs.Rooms.{held};
ghost use Rattle.operations.specs.Rows.{AllValid};

use operations::room::Room;
use operations::row::Row;

// A table that was opened: the rows of its records, each an operation's.
#[derive(Drop)]
pub struct Table<K> {
    pub(crate) rows: Room<Row<K>>,
    ghost valid: { AllValid (held rows) },
}
