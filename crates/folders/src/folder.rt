// A folder, opened.
ghost use Rattle.folders.specs.Folders.{OpenedFolder};

use crate::failed::Failed;
use files::contents;
use reports::reporting::open_table;
use tables::table::Table;
use values::kind::Kind;

// One byte more than a file may have is enough to tell that it is too long.
const TABLE_BYTES: usize = 6_145;

const LIST_BYTES: usize = 2_049;

// The table of a folder, and the bytes of its list of bays, if it has one.
#[derive(Drop)]
pub struct Folder<K> {
    pub table: Table<K>,
    pub list: Option<Vec<u8>>,
}

impl<K: Kind> Folder<K> {
    // Opens table.bin, and then reads bays.bin: what is wrong with the table is said whatever the list is.
    pub fn open(rt: &HostRuntime) -> Result<Folder<K>, Failed>
        ensures { OpenedFolder K.Kind.reads result }
    {
        let bytes = contents(rt, "table.bin", TABLE_BYTES)?;
        let table = open_table(rt.alloc(), bytes.as_deref())?;
        let list = contents(rt, "bays.bin", LIST_BYTES)?;
        Ok(Folder { table, list })
    }
}
