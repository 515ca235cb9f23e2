// Files to try.
use recording::writing::push_word;
use std::alloc::{AllocError, Global};

// The words of a record: a write of serial 1, or of the stamp of cabinet 0 and count 1, in bay 3 from tick 1 to 2.
pub const WRITE: [u32; 3] = [0x8300_0001, 1, 0xc000_0002];

// A read of the same.
pub const READ: [u32; 3] = [0x4300_0001, 3, 0xc000_0004];

// A first word of a record whose pattern is no stamp.
pub const NO_STAMP: u32 = 0x8300_0000;

// A start word with the last tick, so that a record with it starts after any other finish.
pub const LATE: u32 = 0x3fff_ffff;

// A word of kind 1, which only a record's first word may have.
pub const KIND_1: u32 = 0x4000_0000;

// A file of words.
#[derive(Drop)]
pub struct File {
    pub bytes: Vec<u8>,
}

impl File {
    pub fn new(heap: Global) -> File {
        File {
            bytes: Vec::new(heap),
        }
    }

    // A file of the same words, so many times.
    fn of(heap: Global, count: usize, words: &[u32]) -> Result<File, AllocError> {
        let mut file = File::new(heap);
        for _ in 0..count {
            file.push_all(words)?;
        }
        Ok(file)
    }

    // A file of so many equal words.
    pub fn of_words(heap: Global, count: usize, word: u32) -> Result<File, AllocError> {
        File::of(heap, count, &[word])
    }

    // A table of so many equal writes.
    pub fn of_writes(heap: Global, count: usize) -> Result<File, AllocError> {
        File::of(heap, count, &WRITE)
    }

    pub fn push(&mut self, word: u32) -> Result<(), AllocError> {
        push_word(&mut self.bytes, word)
    }

    pub fn push_all(&mut self, words: &[u32]) -> Result<(), AllocError> {
        for word in words {
            self.push(*word)?;
        }
        Ok(())
    }

    // The same file with another word at a place, as far as the file has bytes there.
    pub fn with(mut self, place: usize, word: u32) -> File {
        let start = place.saturating_mul(4);
        for (byte, other) in self.bytes.iter_mut().skip(start).zip(word.to_be_bytes()) {
            *byte = other;
        }
        self
    }

    // The same file, no longer than so many bytes.
    pub fn cut(mut self, length: usize) -> File {
        self.bytes.truncate(length);
        self
    }
}
