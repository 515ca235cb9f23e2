// Reports as text.
#![tactic(auto)]

pub mod account;
pub mod lines;
pub mod reporting;
pub mod unreported;
