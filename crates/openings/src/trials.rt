// How files are tried.
use crate::files::File;
use operations::refusal::Refusal;
use operations::source::Source;
use reports::reporting::{account, open_table};
use reports::unreported::Unreported;
use std::alloc::{AllocError, Global};
use values::words::Written;

// How many answers were as they should be, how many were not, and the first of those.
#[derive(Drop)]
pub struct Trials {
    pub heap: Global,
    // The list that goes with each table, if there is one.
    pub list: Option<File>,
    pub right: u32,
    pub wrong: u32,
    pub first_wrong: String,
}

fn contents(file: &Option<File>) -> Option<&[u8]> {
    file.as_ref().map(|file| file.bytes.as_slice())
}

impl Trials {
    pub fn new(heap: Global) -> Trials {
        Trials {
            heap,
            list: None,
            right: 0,
            wrong: 0,
            first_wrong: String::new(heap),
        }
    }

    // Whether what was told is the text.
    pub fn compare(&mut self, told: &str, text: &str) -> Result<(), AllocError> {
        if told == text {
            self.right = self.right.saturating_add(1);
        } else {
            if self.wrong == 0 {
                self.first_wrong.push_str("\nfirst: ")?;
                self.first_wrong.push_str(told)?;
                self.first_wrong.push_str("\ninstead of: ")?;
                self.first_wrong.push_str(text)?;
            }
            self.wrong = self.wrong.saturating_add(1);
        }
        Ok(())
    }

    // What is told of a table that may be missing.
    fn told<K: Written>(&self, table: &Option<File>) -> Result<String, Unreported> {
        let opened = open_table::<K>(self.heap, contents(table))?;
        account(self.heap, &opened, contents(&self.list))
    }

    // What is told of a table that may be missing is the text.
    pub fn says<K: Written>(&mut self, table: &Option<File>, text: &str) -> Result<(), AllocError> {
        let told = match self.told::<K>(table) {
            Ok(told) => told,
            Err(Unreported::NoMemory(error)) => return Err(error),
            Err(unreported) => unreported.to_string(self.heap)?,
        };
        self.compare(told.as_str(), text)
    }

    pub fn refused<K: Written>(
        &mut self,
        table: File,
        number: u32,
        place: usize,
        layer: &str,
    ) -> Result<(), AllocError> {
        let text = format!(in self.heap; "refused {number} at {place} by {layer}")?;
        self.says::<K>(&Some(table), text.as_str())
    }

    // A source of so many operations refuses a place that it has not.
    pub fn past_end<S: Source>(
        &mut self,
        source: &S,
        length: usize,
        place: usize,
    ) -> Result<(), AllocError> {
        let text = format!(in self.heap; "length {length}, refused 7 at {place} by source")?;
        let told = match source.at(place) {
            Ok(_) => String::from_str(self.heap, "told")?,
            Err(past) => {
                let len = source.len();
                let refusal = Refusal::from(past);
                format!(in self.heap; "length {len}, {refusal}")?
            }
        };
        self.compare(told.as_str(), text.as_str())
    }
}
