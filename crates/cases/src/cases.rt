// The worked cases of one bay.
use Operation::{R, W};

// A write or a read in bay 3: the pattern of its value, its start and its finish.
#[derive(Clone, Copy)]
pub enum Operation {
    W(u32, u32, u32),
    R(u32, u32, u32),
}

// The kind that a case's values have.
#[derive(Clone, Copy)]
pub enum Values {
    Serials,
    Stamps,
}

// Operations in their order, the limit on trials, and what a judge says of bay 3.
pub struct Case {
    pub values: Values,
    pub operations: &'static [Operation],
    pub limit: u32,
    pub said: &'static str,
}

// The largest limit.
const MOST: u32 = 1_000_000;

// The stamp of cabinet 2 and count 1, without and with the resend mark.
const STAMP: u32 = 0x1001;

const RESENT: u32 = 0x2_1001;

// A case of serials with the largest limit, and no operations.
const SERIALS: Case = Case {
    values: Values::Serials,
    operations: &[],
    limit: MOST,
    said: "age 0 trials 0 order",
};

pub static CASES: [Case; 20] = [
    SERIALS,
    Case {
        operations: &[W(1, 1, 2)],
        said: "age 0 trials 1 order 0",
        ..SERIALS
    },
    Case {
        operations: &[W(1, 1, 2), R(1, 3, 4)],
        said: "age 1 trials 1 order 0",
        ..SERIALS
    },
    Case {
        operations: &[W(1, 1, 2), W(2, 3, 4), R(1, 5, 6)],
        said: "age 2 trials 3 order 0 1",
        ..SERIALS
    },
    Case {
        operations: &[W(1, 1, 2), W(2, 3, 4), R(1, 5, 6)],
        limit: 3,
        said: "age 2 trials 3 order 0 1",
        ..SERIALS
    },
    Case {
        operations: &[W(1, 1, 2), W(2, 3, 4), R(1, 5, 6)],
        limit: 2,
        said: "refused 16 at 3 by judge",
        ..SERIALS
    },
    Case {
        operations: &[W(1, 1, 2), W(2, 3, 4), W(3, 5, 6), R(1, 7, 8)],
        said: "age 3 trials 6 order 0 1 2",
        ..SERIALS
    },
    Case {
        operations: &[W(1, 1, 4), W(2, 2, 5), R(1, 6, 7)],
        said: "age 1 trials 3 order 1 0",
        ..SERIALS
    },
    Case {
        operations: &[W(1, 1, 4), W(2, 2, 5), R(1, 6, 7), R(2, 8, 9)],
        said: "age 2 trials 4 order 0 1",
        ..SERIALS
    },
    Case {
        operations: &[W(1, 1, 9), R(1, 2, 3), W(2, 4, 5), R(1, 6, 7)],
        said: "age 2 trials 3 order 0 2",
        ..SERIALS
    },
    Case {
        operations: &[W(1, 1, 2), W(2, 2, 3), R(1, 4, 5)],
        said: "age 1 trials 3 order 1 0",
        ..SERIALS
    },
    Case {
        operations: &[W(1, 1, 2), W(2, 3, 3), R(1, 4, 5)],
        said: "age 2 trials 3 order 0 1",
        ..SERIALS
    },
    Case {
        operations: &[R(1, 1, 2), W(1, 3, 4)],
        said: "refused 15 at 0 by judge",
        ..SERIALS
    },
    Case {
        operations: &[R(1, 1, 3), W(1, 3, 4)],
        said: "age 1 trials 1 order 1",
        ..SERIALS
    },
    Case {
        operations: &[W(1, 1, 2), W(1, 3, 4), R(2, 5, 6)],
        said: "refused 13 at 1 by judge",
        ..SERIALS
    },
    Case {
        operations: &[W(1, 1, 2), R(2, 5, 6)],
        said: "refused 14 at 1 by judge",
        ..SERIALS
    },
    Case {
        operations: &[W(1, 1, 2)],
        limit: 0,
        said: "refused 9 at 0 by judge",
        ..SERIALS
    },
    Case {
        operations: &[W(1, 1, 2)],
        limit: 1_000_001,
        said: "refused 9 at 1000001 by judge",
        ..SERIALS
    },
    Case {
        values: Values::Stamps,
        operations: &[W(STAMP, 1, 2), R(RESENT, 3, 4)],
        said: "age 1 trials 1 order 0",
        ..SERIALS
    },
    Case {
        operations: &[W(STAMP, 1, 2), R(RESENT, 3, 4)],
        said: "refused 14 at 1 by judge",
        ..SERIALS
    },
];
