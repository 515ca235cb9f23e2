// Operations, and the sources that tell them.
#![tactic(auto)]

pub mod copying;
pub mod lent;
pub mod operation;
pub mod pass;
pub mod refusal;
pub mod refusals;
pub mod room;
pub mod rooms;
pub mod row;
pub mod rows;
pub mod source;
pub mod step;
pub mod words;
