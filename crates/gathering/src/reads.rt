// What is found of the reads of a bay.

// Whether there are any, and the lowest place of each of their faults.
#[derive(Clone, Copy, Default)]
pub struct Reads {
    pub any: bool,
    pub unwritten: Option<usize>,
    pub foreseen: Option<usize>,
}
