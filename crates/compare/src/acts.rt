// The operations of small bays.
use operations::row::{Row, Sort};

// The bay that is judged.
pub const BAY: u8 = 3;

// The most operations of a source that is tried.
pub const MOST: usize = 6;

// A read or a write, as it is tried, and its place in the source.
#[derive(Clone, Copy)]
pub struct Act {
    pub place: usize,
    pub row: Row<u32>,
}

impl Act {
    // Whether this one ends before the other begins.
    pub fn precedes(&self, other: &Act) -> bool {
        self.row.finish < other.row.start
    }

    // Whether this is a write of the bay.
    pub fn writes(&self) -> bool {
        self.row.sort == Sort::Write && self.row.bay == BAY
    }

    // Whether this is a read of the bay.
    pub fn reads(&self) -> bool {
        self.row.sort == Sort::Read && self.row.bay == BAY
    }

    // Whether this is a write of the bay and the other a read of its value.
    pub fn is_read_by(&self, other: &Act) -> bool {
        self.writes() && other.reads() && self.row.value == other.row.value
    }
}
