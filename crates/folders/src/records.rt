// The report of a folder's records.
ghost use Rattle.std.specs.Prelude.{option_map, vec_items};
ghost use Rattle.folders.specs.Reports.{Reported};
ghost use Rattle.operations.specs.Rooms.{held};
ghost use Rattle.reports.specs.Reporting.{Accounted};

use crate::failed::Failed;
use crate::folder::Folder;
use reports::reporting::account;
use reports::unreported::Unreported;
use std::alloc::Global;
use values::words::Written;

impl<K: Written> Folder<K> {
    // The account of the table without the bays of the list.
    pub fn account(&self, heap: Global) -> Result<String, Unreported>
        ensures { Accounted K.Written.words (held self.now.table.rows) (option_map vec_items self.now.list) result }
    {
        account(heap, &self.table, self.list.as_deref())
    }
}

// The account of the folder that a program is run in.
pub fn told<K: Written>(rt: &HostRuntime) -> Result<String, Failed>
    ensures { Reported K.Kind.reads (Accounted K.Written.words) result }
{
    let folder = Folder::<K>::open(rt)?;
    let text = folder.account(rt.alloc())?;
    Ok(text)
}
