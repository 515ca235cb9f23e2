// Kinds of value: what a value means, when two are the same, and which patterns of a file are values.
#![tactic(auto)]

pub mod kind;
pub mod kinds;
pub mod serial;
pub mod stamp;
pub mod words;
