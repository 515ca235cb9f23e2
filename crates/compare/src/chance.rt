// Small bays, made up by chance.
use crate::acts::{Act, BAY};
use operations::row::{Row, Sort};
use recording::writing::table;
use std::alloc::{AllocError, Global};

// The operations of a source, and a limit on trials.
#[derive(Drop)]
pub struct Sample {
    pub acts: Vec<Act>,
    pub limit: u32,
}

impl Sample {
    // The bytes of a table of the operations.
    pub fn table(&self, heap: Global) -> Result<Vec<u8>, AllocError> {
        let rows: Vec<Row<u32>> = self.acts.iter().map(|act| act.row).collect(heap)?;
        table(heap, rows.as_slice())
    }
}

// Numbers that follow one another without a visible rule, always the same ones.
#[derive(Drop)]
pub struct Chance {
    state: u64,
}

impl Chance {
    pub fn new() -> Chance {
        Chance { state: 1 }
    }

    // A number from 0 to 255.
    fn byte(&mut self) -> u8 {
        self.state = self
            .state
            .wrapping_mul(6_364_136_223_846_793_005)
            .wrapping_add(1_442_695_040_888_963_407);
        self.state.to_be_bytes()[0]
    }

    // An operation at a place. Most writes have a value of their own. There are more writes at first places, and reads come later than
    // writes, so that many reads have a write and some are old.
    fn act(&mut self, place: u8) -> Act {
        let is_write = self.byte() % 8 > place;
        let own = is_write && self.byte() % 16 > 0;
        let start = u32::from(self.byte() % if is_write { 9 } else { 14 });
        let bay = if self.byte() % 16 > 0 { BAY } else { 5 };
        let value = if own { place } else { self.byte() % 4 };
        let finish = start + u32::from(self.byte() % 5);
        Act {
            place: usize::from(place),
            row: Row {
                sort: if is_write { Sort::Write } else { Sort::Read },
                bay,
                cabinet: 0,
                value: u32::from(value),
                start,
                finish,
            },
        }
    }

    // The operations of a source, mostly five or six.
    fn acts(&mut self, heap: Global) -> Result<Vec<Act>, AllocError> {
        let count = if self.byte() % 8 == 0 {
            self.byte() % 7
        } else {
            5 + self.byte() % 2
        };
        (0..count).map(|place| self.act(place)).collect(heap)
    }

    // A limit on trials, which is small as often as not.
    fn limit(&mut self) -> u32 {
        if self.byte() % 2 == 0 {
            1 + u32::from(self.byte() % 32)
        } else {
            1_000_000
        }
    }

    pub fn sample(&mut self, heap: Global) -> Result<Sample, AllocError> {
        let acts = self.acts(heap)?;
        let limit = self.limit();
        Ok(Sample { acts, limit })
    }
}
