// Lines of a script, read from text.
ghost use Rattle.std.specs.Prelude.{IfOk};
ghost use Rattle.scripts.specs.Lines.{Says};

use crate::guesses::guess;
use crate::line::Line;
use crate::unread::Unread;
use std::alloc::Global;

// What a line says, if it says something. It is understood only where it is written just as a script has it.
pub fn read_line(heap: Global, text: &str) -> Result<Option<Line>, Unread>
    ensures { IfOk result (Says text.now) }
{
    if text.is_empty() || text.starts_with('#') {
        return Ok(None);
    }
    let words: Vec<&str> = text.split(' ').collect(heap)?;
    let line = guess(heap, words.as_slice())?;
    let whole = line.to_string(heap)?;
    if whole.as_str() == text {
        Ok(Some(line))
    } else {
        Err(Unread::NotUnderstood)
    }
}
