// Logs: operations recorded as they happen, on a storage that goes into each call, and shown when the log is closed.
#![tactic(auto)]

pub mod act;
pub mod cabinet;
pub mod calls;
pub mod handed_back;
pub mod log;
pub mod steps;
pub mod storage;
pub mod surveys;
pub mod ticket;
pub mod ticket_name;
pub mod views;
pub mod words;
