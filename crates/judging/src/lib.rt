// Judging one bay.
#![tactic(auto)]

pub mod judge;
pub mod judgment;
pub mod refusal;
pub mod refusals;
mod sheet;
