// One bay gathered from rows: its writes, each as its reads leave it, and the faults of its operations.
#![tactic(auto)]

pub mod bay;
pub mod faults;
pub mod gather;
pub mod reads;
pub mod write;
mod writes;
