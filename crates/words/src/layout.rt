// The sizes of words, records and files, in bytes.

pub const WORD: usize = 4;

pub const RECORD: usize = 12;

// The most that a table may have: 512 records.
pub const TABLE: usize = 6_144;

// The most that a list of bays may have: 512 words.
pub const LIST: usize = 2_048;
