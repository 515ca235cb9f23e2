// The operations of a source, copied.
ghost use Rattle.std.specs.Prelude.{◌≡◌, ◌<◌, length, MatchResult};
ghost use Rattle.operations.specs.Rooms.{held};

use crate::pass::Pass;
use crate::room::Room;
use crate::rooms::Full;
use crate::row::Row;
use crate::source::Source;

// One pass over the source, which asks for each operation once. It ends early where the room is full.
pub fn copy<S: Source>(source: &S, room: &mut Room<Row<S::Value>>) -> Result<(), Full>
    ensures { MatchResult result (λ _. held room.new ≡ S.Source.operations source.now) (λ _. 512 < length (S.Source.operations source.now)) }
{
    room.clear();
    for operation in Pass::over(source) {
        room.push(operation.row())?;
    }
    Ok(())
}
