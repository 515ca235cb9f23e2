// Files of words, written as they are read.
#![tactic(auto)]

pub mod writing;
