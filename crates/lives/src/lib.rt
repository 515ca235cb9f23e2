// The rules of a log and the law over all its lives; the calls that keep them are those of the crate `logs`.
#![tactic(auto)]

pub mod laws;
pub mod refusal;
pub mod refusals;
