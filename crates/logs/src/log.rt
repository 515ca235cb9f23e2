// Logs that record, and closed ones.

// A log that takes begins, ends and losses. Whether it does is all that the value says; the rest is in its storage.
#[derive(Drop)]
pub struct Recording {
    // The tick that open named.
    pub(crate) opened: u32,
}

// A log that can be surveyed.
#[derive(Drop)]
pub struct Closed {
    pub(crate) opened: u32,
}
