// Opening a list of bays.
ghost use Rattle.tables.specs.Lists.{OpenedList};

use crate::refusal::ListRefusal;
use operations::room::Room;
use words::layout;
use words::reader::WordReader;

// The bays that the bytes of a file list, in `bays`, whatever that held. Whether each is a bay is seen when they are left out.
pub fn open_list(mut bays: Room<u32>, bytes: &[u8]) -> Result<Room<u32>, ListRefusal>
    ensures { OpenedList bytes.now result }
{
    if bytes.len() > layout::LIST {
        return Err(ListRefusal::TooLong);
    }
    if bytes.len() % layout::WORD != 0 {
        return Err(ListRefusal::Ragged {
            length: bytes.len(),
        });
    }
    bays.clear();
    let mut words = WordReader::new(bytes);
    while let Some(bay) = words.next_bay()? {
        bays.push(bay).unwrap();
    }
    Ok(bays)
}
