// Trying the orders of one bay: the edges between its writes, and the search over them.
#![tactic(auto)]

mod edges;
pub mod judge;
pub mod order;
