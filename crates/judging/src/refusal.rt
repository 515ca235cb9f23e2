// What a judge can refuse.

// Why a bay is not judged.
#[derive(Clone, Copy, PartialEq)]
pub enum JudgeRefusal {
    // The bay is above 63.
    NoBay { bay: u32 },
    // The limit is not within 1 to 1,000,000.
    NoLimit { limit: u32 },
    // The sheet has fewer than 64 entries.
    ShortSheet { entries: usize },
    // The source has more than 512 operations.
    TooMany { operations: usize },
    // The bay has more than 64 writes.
    TooManyWrites { bay: u32 },
    // A write whose value an earlier write of its bay has.
    WrittenTwice { place: usize },
    // A read whose bay has no write of its value.
    Unwritten { place: usize },
    // A read that is before its write.
    Foreseen { place: usize },
    // The trials pass the limit.
    OverLimit { bay: u32 },
}
