// The words of files, and the records that they make up.
#![tactic(auto)]

pub mod layout;
pub mod reader;
pub mod record;
pub mod refusal;
