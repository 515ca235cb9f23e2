// Reports on a table and a list of bays.
ghost use Rattle.std.specs.Prelude.{◌≡◌};
ghost use Rattle.leaving.specs.Leaving.{entries};
ghost use Rattle.operations.specs.Rooms.{held};
ghost use Rattle.reports.specs.Reporting.{contents, listed_bays, OpenedTable, OpenedBays, Accounted};

use crate::account::Account;
use crate::unreported::Unreported;
use leaving::without::leave_out;
use operations::room::Room;
use operations::source::Source;
use std::alloc::Global;
use tables::list::open_list;
use tables::table::Table;
use values::kind::Kind;
use values::words::Written;

// Opens the table of a file that may be missing.
pub fn open_table<K: Kind>(heap: Global, table: Option<&[u8]>) -> Result<Table<K>, Unreported>
    ensures { OpenedTable K.Kind.reads (contents table.entry) result }
{
    let bytes = table.ok_or(Unreported::NoTable)?;
    let rows = Room::new(heap)?;
    let table = Table::open(rows, bytes)?;
    Ok(table)
}

// Opens the list of a file that may be missing: then there is none.
pub fn open_bays(heap: Global, list: Option<&[u8]>) -> Result<Option<Room<u32>>, Unreported>
    ensures { OpenedBays (contents list.entry) result }
{
    let Some(bytes) = list else {
        return Ok(None);
    };
    let room = Room::new(heap)?;
    let bays = open_list(room, bytes)?;
    Ok(Some(bays))
}

// The bays of a list that may be absent.
pub fn listed(bays: &Option<Room<u32>>) -> Option<&[u32]>
    ensures { entries result ≡ listed_bays bays.now }
{
    bays.as_ref().map(Room::as_slice)
}

// The account of a table without the bays of a list file, if there is one.
pub fn account<K: Written>(
    heap: Global,
    table: &Table<K>,
    list: Option<&[u8]>,
) -> Result<String, Unreported>
    ensures { Accounted K.Written.words (held table.now.rows) (contents list.entry) result }
{
    let bays = open_bays(heap, list)?;
    let kept = leave_out(table, listed(&bays))?;
    let account = Account {
        records: table.len(),
        kept,
    };
    let text = account.to_string(heap)?;
    Ok(text)
}
