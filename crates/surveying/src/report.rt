// What a survey reports.

// The largest age of the bays (how many settings back the oldest read reached), the sum of their trials, and how many operations
// were kept, which are those of the surveyed source.
#[derive(Clone, Copy, PartialEq)]
pub struct Report {
    pub age: usize,
    pub trials: u32,
    pub kept: usize,
}
