// What is said of a bay, by the definitions and by the judge.
use crate::acts::BAY;
use crate::chance::Sample;
use crate::faults::refusal;
use crate::lawful::least_age;
use crate::run_ups::{Found, Write};
use crate::sequences::{Sequence, all};
use judging::judge::judge;
use judging::judgment::Judgment;
use judging::refusal::JudgeRefusal;
use operations::room::Room;
use operations::row::Row;
use std::alloc::{AllocError, Global};
use tables::table::Table;
use values::serial::Serial;

// How many entries a sheet has.
const ENTRIES: usize = 64;

// What an entry has that nobody wrote.
const UNTOUCHED: usize = 99;

pub type Answer = Result<Judgment, JudgeRefusal>;

// What it takes to compare: memory, all sequences, and a room for the judge to work in.
#[derive(Drop)]
pub struct Comparison {
    heap: Global,
    sequences: Vec<Sequence>,
    working: Room<Row<Serial>>,
}

// Notes the places of an order on a sheet.
fn note(sheet: &mut [usize], writes: &[Write], order: &Sequence) {
    for write in writes {
        if let Some(position) = order.position(write.place)
            && let Some(entry) = sheet.get_mut(position)
        {
            *entry = write.place;
        }
    }
}

impl Comparison {
    pub fn new(heap: Global) -> Result<Comparison, AllocError> {
        Ok(Comparison {
            heap,
            sequences: all(heap)?,
            working: Room::new(heap)?,
        })
    }

    // What the definitions say, with the value order on the sheet; nothing where there is no lawful order, or where run-ups find
    // another age than lawful orders.
    fn expected(&self, sample: &Sample, sheet: &mut [usize]) -> Result<Option<Answer>, AllocError> {
        let acts = sample.acts.as_slice();
        if let Some(refusal) = refusal(acts) {
            return Ok(Some(Err(refusal)));
        }
        let sequences = self.sequences.as_slice();
        let Some(age) = least_age(acts, sequences) else {
            return Ok(None);
        };
        let writes = Write::all(self.heap, acts)?;
        let mut trials = 0;
        if let Some(found) = Found::first(writes.as_slice(), sequences) {
            if age > 0 && age != found.k {
                return Ok(None);
            }
            if found.trials > sample.limit {
                let bay = u32::from(BAY);
                return Ok(Some(Err(JudgeRefusal::OverLimit { bay })));
            }
            note(sheet, writes.as_slice(), found.order);
            trials = found.trials;
        }
        Ok(Some(Ok(Judgment {
            age,
            trials,
            writes: writes.len(),
        })))
    }

    // What the judge says of the bay in a table of the operations; nothing where the table is not opened.
    fn given(
        &mut self,
        sample: &Sample,
        sheet: &mut [usize],
    ) -> Result<Option<Answer>, AllocError> {
        let bytes = sample.table(self.heap)?;
        let Ok(table) = Table::<Serial>::open(Room::new(self.heap)?, bytes.as_slice()) else {
            return Ok(None);
        };
        let bay = u32::from(BAY);
        Ok(Some(judge(&table, bay, sample.limit, sheet, &mut self.working)))
    }

    // What the definitions and the judge say of a bay and leave on the sheet, where that is the same.
    pub fn agreed(&mut self, sample: &Sample) -> Result<Option<Answer>, AllocError> {
        let mut wanted = [UNTOUCHED; ENTRIES];
        let mut sheet = [UNTOUCHED; ENTRIES];
        let expected = self.expected(sample, &mut wanted)?;
        let given = self.given(sample, &mut sheet)?;
        let agree = expected == given && wanted == sheet;
        Ok(expected.filter(|_| agree))
    }
}
