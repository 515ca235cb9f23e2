// What a refusal tells.

// The part that a refusal came from. A word reader's refusal names the file that it read.
#[derive(Clone, Copy, PartialEq)]
pub enum Layer {
    WordsInTable,
    WordsInList,
    Table,
    List,
    Source,
    Judge,
    Survey,
    Log,
}

// A refusal as it is told: its number, a place and the layer that it came from.
#[derive(Clone, Copy, PartialEq)]
pub struct Refusal {
    pub number: u8,
    pub place: usize,
    pub layer: Layer,
}

// An entry of a list of bays that is no bay.
#[derive(Clone, Copy, PartialEq)]
pub struct NoBay {
    pub entry: usize,
}

// A place at or past the end of a source, or of a room.
#[derive(Clone, Copy, PartialEq)]
pub struct PastEnd {
    pub place: usize,
}
