// The faults of a bay, each at its lowest place.
use crate::acts::Act;
use judging::refusal::JudgeRefusal;

// A write whose value an earlier write has.
fn written_twice(acts: &[Act]) -> Option<usize> {
    acts.iter().position(|act| {
        acts.iter().take(act.place).any(|earlier| {
            earlier.writes() && act.writes() && earlier.row.value == act.row.value
        })
    })
}

// A read whose value has no write.
fn unwritten(acts: &[Act]) -> Option<usize> {
    acts.iter().position(|read| read.reads() && !acts.iter().any(|write| write.is_read_by(read)))
}

// A read that is before its write.
fn foreseen(acts: &[Act]) -> Option<usize> {
    acts.iter().position(|read| {
        acts.iter()
            .any(|write| write.is_read_by(read) && read.precedes(write))
    })
}

// The refusal of a bay with a fault.
pub fn refusal(acts: &[Act]) -> Option<JudgeRefusal> {
    if let Some(place) = written_twice(acts) {
        return Some(JudgeRefusal::WrittenTwice { place });
    }
    if let Some(place) = unwritten(acts) {
        return Some(JudgeRefusal::Unwritten { place });
    }
    let place = foreseen(acts)?;
    Some(JudgeRefusal::Foreseen { place })
}
