// The table and the list of bays of the folder that a program is run in.
#![tactic(auto)]

pub mod failed;
pub mod folder;
pub mod records;
pub mod saying;
