// Surveys as text.
#![tactic(auto)]

pub mod folder;
mod lines;
pub mod summary;
