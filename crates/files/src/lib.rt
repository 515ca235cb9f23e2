// The beginnings of files, read from the folder that a program is run in.
#![tactic(auto)]

ghost use Rattle.std.specs.Prelude.{◌≤◌, IfOk, vec_len};
ghost use Rattle.files.specs.Beginnings.{AtMost};

use std::alloc::Global;
use std::fs::File;
use std::io;
use std::io::{ErrorKind, Read};

// The first bytes of an open file, as far as `most`. A file may have no end, so no more is read; the cut is for the contract.
fn beginning(heap: Global, file: File, most: usize) -> io::Result<Vec<u8>>
    ensures { IfOk result (λ bytes. vec_len bytes ≤ most) }
{
    let mut bytes = Vec::new(heap);
    file.take(most as u64).read_to_end(&mut bytes)?;
    bytes.truncate(most);
    Ok(bytes)
}

// The first bytes of a file, as far as `most`, or nothing where the file is missing.
pub fn contents(rt: &HostRuntime, name: &str, most: usize) -> io::Result<Option<Vec<u8>>>
    ensures { IfOk result (AtMost most) }
{
    match File::open(rt, name) {
        Ok(file) => Ok(Some(beginning(rt.alloc(), file, most)?)),
        Err(failure) if failure.kind() == ErrorKind::NotFound => Ok(None),
        Err(failure) => Err(failure),
    }
}
