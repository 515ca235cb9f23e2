// Scripts of calls, run on a log as one life.
#![tactic(auto)]

pub mod answer;
pub mod call;
pub mod desk;
pub mod desks;
mod hand;
mod log;
pub mod replay;
mod steps;
pub mod stop;
pub mod stops;
pub mod surveys;
mod ticket;
mod tickets;
pub mod words;
