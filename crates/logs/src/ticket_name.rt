// The names of tickets.
use operations::row::Sort;

// A ticket is known by its sort, its cabinet and its begin tick, whichever log made it.
#[derive(Clone, Copy, PartialEq)]
pub struct TicketName {
    pub sort: Sort,
    pub cabinet: u32,
    pub begun: u32,
}
