// What a judge says of a case.
use crate::cases::{Case, Operation, Values};
use judging::judge::judge;
use judging::judgment::Judgment;
use operations::refusal::Refusal;
use operations::room::Room;
use operations::row::{Row, Sort};
use recording::writing::table;
use std::alloc::{AllocError, Global};
use std::fmt;
use tables::table::Table;
use values::kind::Kind;
use values::serial::Serial;
use values::stamp::Stamp;

// The bay of all cases.
const BAY: u8 = 3;

impl From<Operation> for Row<u32> {
    fn from(operation: Operation) -> Row<u32> {
        let (sort, value, start, finish) = match operation {
            Operation::W(value, start, finish) => (Sort::Write, value, start, finish),
            Operation::R(value, start, finish) => (Sort::Read, value, start, finish),
        };
        Row {
            sort,
            bay: BAY,
            cabinet: 0,
            value,
            start,
            finish,
        }
    }
}

// A judgment and the sheet that it filled, as `age 2 trials 3 order 0 1`.
#[derive(Drop)]
struct Found<'a> {
    judgment: Judgment,
    sheet: &'a [usize],
}

impl fmt::Display for Found<'_> {
    fn fmt<W: fmt::Write>(&self, f: &mut fmt::Formatter<W>) -> fmt::Result {
        let age = self.judgment.age;
        let trials = self.judgment.trials;
        write!(f, "age {age} trials {trials} order")?;
        for place in self.sheet.iter().take(self.judgment.writes) {
            write!(f, " {place}")?;
        }
        Ok(())
    }
}

impl Case {
    // What a judge of the bay says, or its refusal, with values of a kind.
    fn told_of<K: Kind>(&self, heap: Global) -> Result<String, AllocError> {
        let rows: Vec<Row<u32>> = self
            .operations
            .iter()
            .copied()
            .map(Row::from)
            .collect(heap)?;
        let bytes = table(heap, rows.as_slice())?;
        let Ok(table) = Table::<K>::open(Room::new(heap)?, bytes.as_slice()) else {
            return String::from_str(heap, "no table");
        };
        let mut sheet = [0usize; 64];
        let mut working = Room::new(heap)?;
        match judge(&table, u32::from(BAY), self.limit, &mut sheet, &mut working) {
            Ok(judgment) => Found {
                judgment,
                sheet: &sheet,
            }
            .to_string(heap),
            Err(refused) => Refusal::from(refused).to_string(heap),
        }
    }

    pub fn told(&self, heap: Global) -> Result<String, AllocError> {
        match self.values {
            Values::Serials => self.told_of::<Serial>(heap),
            Values::Stamps => self.told_of::<Stamp>(heap),
        }
    }
}
