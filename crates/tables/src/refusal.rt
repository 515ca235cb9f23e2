// What can be wrong with a file.
use words::refusal::WrongKind;

// What can be wrong with a table. A word reader's refusal is carried whole.
#[derive(Clone, Copy)]
pub enum TableRefusal {
    TooLong,
    Ragged { length: usize },
    Words(WrongKind),
    NoValue { place: usize },
    StartsLate { place: usize },
}

// What can be wrong with a list of bays. A word reader's refusal is carried whole.
#[derive(Clone, Copy)]
pub enum ListRefusal {
    TooLong,
    Ragged { length: usize },
    Words(WrongKind),
}
