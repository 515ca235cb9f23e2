// Tickets of either sort.
use logs::act::{Read, Write};
use logs::ticket::Ticket as TicketOf;

// It has to be given back, as each of the two has.
pub(crate) enum Ticket {
    Read(TicketOf<Read>),
    Write(TicketOf<Write>),
}
