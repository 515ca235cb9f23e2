// Scripts read line by line.
ghost use Rattle.std.specs.Prelude.{◌≡◌, []};
ghost use Rattle.scripts.specs.Scripts.{Reads};

use crate::line::Line;
use crate::reading::read_line;
use crate::script::Script;
use crate::unread::Unread;
use std::alloc::Global;

// How many entries a storage has where the script does not say.
const ENTRIES: u32 = 512;

impl Script {
    // A script with no calls yet, of a log that is opened at 1.
    pub fn new(heap: Global) -> Script
        ensures first { result.first ≡ 1 }
        ensures entries { result.entries ≡ 512 }
        ensures calls { result.calls.items ≡ [] }
    {
        Script {
            first: 1,
            entries: ENTRIES,
            calls: Vec::new(heap),
        }
    }

    // Takes one line more.
    pub fn read(&mut self, heap: Global, text: &str) -> Result<(), Unread>
        ensures { Reads self.old text.now self.new result }
    {
        match read_line(heap, text)? {
            None => {}
            Some(Line::Open { first }) if self.calls.is_empty() => self.first = first,
            Some(Line::Storage { entries }) if self.calls.is_empty() => self.entries = entries,
            Some(Line::Open { first: _ } | Line::Storage { entries: _ }) => {
                return Err(Unread::Late);
            }
            Some(Line::Call(call)) => self.calls.push(call)?,
        }
        Ok(())
    }
}
