// The word reader.
ghost use Rattle.std.specs.Prelude.{◌≡◌, ◌+◌, ◌*◌, ◌≤◌, length, MatchOption, ◌≢◌};
ghost use Rattle.words.specs.Rows.{bytes_of, sort_of, pattern_row};
ghost use Rattle.words.specs.Reading.{Handed, HandedBay};
ghost use Rattle.words.specs.Kinds.{kind_number};
ghost use Rattle.words.specs.Words.{kind, word};

use crate::layout;
use crate::record::Record;
use crate::refusal::WrongKind;
use operations::row::{Row, Sort};

// What a word's top two bits tell of it.
#[derive(Clone, Copy, PartialEq)]
enum WordKind {
    // The start of a record, or a bay of a list.
    Plain,
    // The first word of a record that is a read.
    Read,
    // The first word of one that is a write.
    Write,
    // The finish of a record.
    Finish,
}

fn kind_of(word: u32) -> WordKind
    ensures { kind_number result ≡ kind word }
{
    match word >> 30 {
        0 => WordKind::Plain,
        1 => WordKind::Read,
        2 => WordKind::Write,
        _ => WordKind::Finish,
    }
}

// Reads the words of a file from its first on; `word` is the next.
#[derive(Drop)]
pub struct WordReader<'a> {
    bytes: &'a [u8],
    word: usize,
    ghost within: { 4 * word ≤ length bytes.now },
}

// Word `j` of the bytes.
fn word_at(bytes: &[u8], j: usize) -> u32
    requires { 4 * j + 4 ≤ length bytes.now }
    ensures { result ≡ word bytes.now j }
{
    let i = layout::WORD * j;
    u32::from_be_bytes([bytes[i], bytes[i + 1], bytes[i + 2], bytes[i + 3]])
}

impl<'a> WordReader<'a> {
    pub fn new(bytes: &'a [u8]) -> WordReader<'a>
        ensures file { result.bytes.now ≡ bytes.now }
        ensures first { result.word ≡ 0 }
    {
        WordReader { bytes, word: 0 }
    }

    // The next record, or nothing where fewer bytes are left than a record has.
    pub fn next_record(&mut self) -> Result<Option<Record<'a>>, WrongKind>
        ensures handed { Handed self.old.bytes.now self.old.word self.new.word result }
        ensures file { self.new.bytes.now ≡ self.old.bytes.now }
    {
        let bytes = self.bytes;
        let first = self.word;
        if bytes.len() - layout::WORD * first < layout::RECORD {
            return Ok(None);
        }
        let part = &bytes[layout::WORD * first..layout::WORD * first + layout::RECORD];
        let record = match kind_of(word_at(bytes, first)) {
            WordKind::Read => Record::Read(part),
            WordKind::Write => Record::Write(part),
            _ => return Err(WrongKind { word: first }),
        };
        if kind_of(word_at(bytes, first + 1)) != WordKind::Plain {
            return Err(WrongKind { word: first + 1 });
        }
        if kind_of(word_at(bytes, first + 2)) != WordKind::Finish {
            return Err(WrongKind { word: first + 2 });
        }
        self.word = first + 3;
        Ok(Some(record))
    }

    // The next bay of a list, or nothing where fewer bytes are left than a word has.
    pub fn next_bay(&mut self) -> Result<Option<u32>, WrongKind>
        ensures handed { HandedBay self.old.bytes.now self.old.word self.new.word result }
        ensures file { self.new.bytes.now ≡ self.old.bytes.now }
    {
        let bytes = self.bytes;
        let first = self.word;
        if bytes.len() - layout::WORD * first < layout::WORD {
            return Ok(None);
        }
        let word = word_at(bytes, first);
        if kind_of(word) != WordKind::Plain {
            return Err(WrongKind { word: first });
        }
        self.word = first + 1;
        Ok(Some(word))
    }
}

impl Record<'_> {
    // The record as a row, with the pattern for the value; nothing where the bytes are not twelve.
    pub fn row(&self) -> Option<Row<u32>>
        ensures { MatchOption result (length (bytes_of self.now) ≢ 12) (λ row. row ≡ pattern_row (sort_of self.now) (bytes_of self.now) 0) }
    {
        let (sort, bytes) = match *self {
            Record::Read(bytes) => (Sort::Read, bytes),
            Record::Write(bytes) => (Sort::Write, bytes),
        };
        if bytes.len() != layout::RECORD {
            return None;
        }
        let head = word_at(bytes, 0);
        Some(Row {
            sort,
            bay: (head >> 24 & 63) as u8,
            cabinet: (head >> 18 & 63) as u8,
            value: head & 0x3_ffff,
            start: word_at(bytes, 1) & 0x3fff_ffff,
            finish: word_at(bytes, 2) & 0x3fff_ffff,
        })
    }
}
