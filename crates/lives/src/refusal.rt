// Why a log refuses a call.

// What went wrong, with the number that its place needs.
#[derive(Clone, Copy, PartialEq)]
pub enum LogRefusal {
    // A log cannot be opened at this tick.
    FirstTick { first: u32 },
    NoCabinet { cabinet: u32 },
    NoSuchBay { bay: u32 },
    // The cabinet reads or writes already.
    Busy { cabinet: u32 },
    // The ended operations and those that wait are as many as may be.
    Full { limit: usize },
    // The ticks would not last for the ends of all that waits.
    NoTick { next: u32 },
    // Nothing that waits has the ticket's cabinet, tick and sort.
    NotWaiting { begun: u32 },
    // Something waits.
    Waiting { count: u32 },
}
