// A write of a bay as judging sees it.
use operations::row::Row;

// How many writes a bay may have.
pub const MOST_WRITES: usize = 64;

// The write at a place of the source. Its value is to be had at that place, and those of its reads mean the same.
#[derive(Clone, Copy)]
pub struct Write {
    pub place: usize,
    // The write, with the finish that its reads leave it: the smallest of its own and theirs.
    pub row: Row<()>,
    // The read of it that starts last.
    pub last_read: Option<Row<()>>,
}
