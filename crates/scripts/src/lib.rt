// Scripts as text, and the account of what they led to.
#![tactic(auto)]

pub mod account;
mod guesses;
pub mod line;
pub mod reading;
pub mod script;
pub mod scripts;
pub mod unread;
pub mod words;
