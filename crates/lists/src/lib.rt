// Lists of bounded length, for elements of every kind: over a lent slice, and in places of their own.
#![tactic(auto)]

mod array;
mod arrays;
mod bounded;

pub use array::ArrayList;
pub use bounded::BoundedList;
