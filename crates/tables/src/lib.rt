// Tables of operations and lists of bays, as files hold them.
#![tactic(auto)]

pub mod list;
pub mod opening;
pub mod refusal;
pub mod refusals;
pub mod table;
pub mod told;
