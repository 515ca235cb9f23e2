// One bay.
use crate::faults::Faults;
use crate::write::{MOST_WRITES, Write};
use lists::ArrayList;

// What is gathered of a bay. It is memory too: gathering another bay takes its place.
#[derive(Clone, Copy)]
pub struct Bay {
    // Its writes, in ascending place. Where a write stands among them is its rank.
    pub writes: ArrayList<Write, MOST_WRITES>,
    // Whether it has a read.
    pub read: bool,
    pub faults: Faults,
}
