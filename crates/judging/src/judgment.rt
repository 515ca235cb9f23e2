// What a judge reports.

// The age of a bay (how many settings back its oldest read reached), the trials (how many run-ups judging looked at), and how many
// writes the bay has, which is how many entries of the sheet its value order fills.
#[derive(Clone, Copy, PartialEq)]
pub struct Judgment {
    pub age: usize,
    pub trials: u32,
    pub writes: usize,
}
