// The search for the age of a bay and its first value order, with counted trials.
#![tactic(auto)]

pub mod edges;
pub mod search;
mod standing;
