// Memory for a replay.
ghost use Rattle.std.specs.Prelude.{◌≤◌, vec_capacity};

use crate::answer::Answer;
use std::alloc::Global;
use surveying::desk::SurveyDesk;

// Places for the answers to a script and what surveys work on, taken before its first call, so that a script never stops for want
// of memory.
#[derive(Drop)]
pub struct Desk<V> {
    pub(crate) answers: Vec<Answer>,
    pub(crate) places: usize,
    pub(crate) surveys: SurveyDesk<V>,
    // For the tickets in hand.
    pub(crate) heap: Global,
    ghost wide: { places ≤ vec_capacity answers },
}
