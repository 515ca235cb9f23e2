// The survey of a folder.
ghost use Rattle.std.specs.Prelude.{option_map, vec_items};
ghost use Rattle.folders.specs.Reports.{Reported};
ghost use Rattle.operations.specs.Rooms.{held};
ghost use Rattle.summaries.specs.Summarising.{Summarised};

use crate::summary::summary;
use folders::failed::Failed;
use folders::folder::Folder;
use reports::unreported::Unreported;
use std::alloc::Global;
use trying::judge::MOST_TRIALS;
use values::kind::Kind;

// The survey of an opened folder's table without the bays of its list.
pub fn survey_folder<K: Kind>(
    heap: Global,
    folder: &Folder<K>,
    limit: u32,
) -> Result<String, Unreported>
    ensures { Summarised K.Kind.meaning (held folder.now.table.rows) limit (option_map vec_items folder.now.list) result }
{
    summary(heap, &folder.table, folder.list.as_deref(), limit)
}

// The survey of the folder that a program is run in, with the highest limit.
pub fn told<K: Kind>(rt: &HostRuntime) -> Result<String, Failed>
    ensures { Reported K.Kind.reads (λ rows. Summarised K.Kind.meaning rows 1000000) result }
{
    let folder = Folder::<K>::open(rt)?;
    let text = survey_folder(rt.alloc(), &folder, MOST_TRIALS)?;
    Ok(text)
}
