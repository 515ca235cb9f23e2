// The tickets in hand.
ghost use Rattle.std.specs.Prelude.{◌≡◌, false, IfSome, MatchOption};
ghost use Rattle.replaying.specs.Tickets.{named, issued};

use crate::ticket::Ticket;
use logs::ticket_name::TicketName;
use std::alloc::{AllocFailed, Global};

// What the begins handed out and no end or loss has taken yet.
pub(crate) struct Hand {
    tickets: Vec<Ticket>,
}

impl Hand {
    pub(crate) fn new(heap: Global) -> Hand {
        Hand {
            tickets: Vec::new(heap),
        }
    }

    // Where there is no memory to keep the ticket it is used up; one of the same name can be had from another log.
    pub(crate) fn keep(&mut self, ticket: Ticket) {
        if let Err(AllocFailed { value }) = self.tickets.push(ticket) {
            value.use_up();
        }
    }

    // The ticket of this name that is in hand.
    fn find(&mut self, name: TicketName) -> Option<Ticket>
        ensures { IfSome result (λ t. t ≡ named name) }
    {
        let place = self
            .tickets
            .iter()
            .position(|ticket| ticket.name() == name)?;
        Some(self.tickets.swap_remove(place))
    }

    // The ticket of this name: the one in hand, or else one from another log.
    pub(crate) fn take(&mut self, name: TicketName) -> Option<Ticket>
        ensures { MatchOption result (issued name ≡ false) (λ t. t ≡ named name) }
    {
        self.find(name).or_else(|| Ticket::mint(name))
    }

    // Gives back what is left.
    pub(crate) fn use_up(self) {
        let Hand { mut tickets } = self;
        while let Some(ticket) = tickets.pop() {
            ticket.use_up();
        }
        tickets.destroy_empty();
    }
}
