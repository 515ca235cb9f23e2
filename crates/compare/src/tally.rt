// Counts how often the judge and the definitions agree.
use crate::acts::MOST;
use crate::comparison::Answer;
use operations::refusal::Refusal;
use std::alloc::{AllocError, Global};
use std::collections::BTreeMap;
use std::fmt;

// How many ages a bay can have, from 0 on.
const AGES: usize = MOST + 1;

// How many bays both refuse with each number, how many both find to have each age from 0, and how many they differ on.
#[derive(Drop)]
pub struct Tally {
    refusals: BTreeMap<u8, u32>,
    ages: [u32; AGES],
    disagreed: u32,
}

fn add_one(count: &mut u32) {
    *count = count.saturating_add(1);
}

impl Tally {
    pub fn new(heap: Global) -> Tally {
        Tally {
            refusals: BTreeMap::new(heap),
            ages: [0; AGES],
            disagreed: 0,
        }
    }

    // Counts a bay by what both say of it, if they agree.
    pub fn count(&mut self, agreed: Option<Answer>) -> Result<(), AllocError> {
        match agreed {
            Some(Ok(judgment)) => {
                if let Some(count) = self.ages.get_mut(judgment.age) {
                    add_one(count);
                }
            }
            Some(Err(refused)) => {
                let number = Refusal::from(refused).number;
                add_one(self.refusals.entry(number)?.or_insert(0));
            }
            None => add_one(&mut self.disagreed),
        }
        Ok(())
    }
}

impl fmt::Display for Tally {
    fn fmt<W: fmt::Write>(&self, f: &mut fmt::Formatter<W>) -> fmt::Result {
        for (number, count) in &self.refusals {
            writeln!(f, "refused {number}: {count}")?;
        }
        for (age, count) in self.ages.iter().enumerate() {
            writeln!(f, "age {age}: {count}")?;
        }
        let disagreed = self.disagreed;
        write!(f, "{disagreed} disagreed")
    }
}
