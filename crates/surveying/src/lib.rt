// The survey of a crane.
#![tactic(auto)]

mod crane;
pub mod desk;
pub mod desks;
pub mod finding;
mod keeping;
pub mod refusal;
pub mod refusals;
pub mod report;
mod sparing;
pub mod survey;
pub mod words;
