// What the calls of a script are answered.
use operations::refusal::Refusal;
use surveying::report::Report;

// What an accepted call was told, as a call of its sort is.
#[derive(Clone, Copy)]
pub enum Accepted {
    Begun { tick: u32 },
    Ended,
    Lost,
    Closed,
    Reopened,
    Surveyed(Report),
}

// The answer to a call: it was accepted, or refused.
pub type Answer = Result<Accepted, Refusal>;
