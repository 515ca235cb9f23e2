// What a survey can refuse.

// Why a crane is not surveyed.
#[derive(Clone, Copy, PartialEq)]
pub enum SurveyRefusal {
    // The limit is not within 1 to 1,000,000.
    NoLimit { limit: u32 },
    // The source has more than 512 operations.
    TooMany { operations: usize },
    // The bay has more than 64 writes.
    TooManyWrites { bay: u8 },
    // A write whose value an earlier write of its bay has.
    WrittenTwice { place: usize },
    // A read whose bay has no write of its value.
    Unwritten { place: usize },
    // A read that is before its write.
    Foreseen { place: usize },
    // The trials of the bays up to this one pass the limit.
    OverLimit { bay: u8 },
}
