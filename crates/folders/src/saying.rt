// What a program prints.
ghost use Rattle.std.specs.Prelude.{◌≡◌, false, is_ok};
ghost use Rattle.folders.specs.Folders.{Fails};
ghost use Rattle.folders.specs.Sayings.{Says};

use crate::failed::Failed;
use reports::unreported::Unreported;
use std::alloc::{AllocError, Global};
use std::io;

// A report, or the words of why there is none. A want of memory has no words here.
pub fn said(heap: Global, report: Result<String, Unreported>) -> Result<String, AllocError>
    ensures { Says report result }
{
    match report {
        Ok(text) => Ok(text),
        Err(Unreported::NoMemory(error)) => Err(error),
        Err(unreported) => unreported.to_string(heap),
    }
}

// Prints a report, or why there is none. A file that cannot be read, and a want of memory, are the program's failure.
pub fn say(rt: &HostRuntime, report: Result<String, Failed>) -> anyhow::Result<()>
    ensures { Fails report → is_ok result ≡ false }
{
    let report = match report {
        Ok(text) => Ok(text),
        Err(Failed::Unreported(unreported)) => Err(unreported),
        Err(Failed::Unread(error)) => return Err(error.into()),
    };
    // A want of memory is told in the words that it has where a file is read.
    let text = said(rt.alloc(), report).map_err(io::Error::from)?;
    println!(rt; "{text}")?;
    Ok(())
}
