// The word reader's refusal.

// A word of a kind that may not stand where it does; `word` is its place in the file, from 0.
#[derive(Clone, Copy)]
pub struct WrongKind {
    pub word: usize,
}
