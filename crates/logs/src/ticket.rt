// Tickets.
ghost use Rattle.std.specs.Prelude.{◌≡◌};
ghost use Rattle.logs.specs.Names.{name};

use crate::act::Act;
use crate::ticket_name::TicketName;
use std::marker::PhantomData;

// What a begin hands out: a `Ticket<Read>` or a `Ticket<Write>`. It is neither `Copy` nor `Drop`, so it has to be given back, once,
// by an end or a loss.
pub struct Ticket<A> {
    pub(crate) cabinet: u32,
    pub(crate) begun: u32,
    pub(crate) act: PhantomData<A>,
}

impl<A: Act> Ticket<A> {
    pub(crate) fn new(cabinet: u32, begun: u32) -> Ticket<A>
        ensures cabinet { result.cabinet ≡ cabinet }
        ensures begun { result.begun ≡ begun }
    {
        Ticket {
            cabinet,
            begun,
            act: PhantomData,
        }
    }

    pub fn cabinet(&self) -> u32
        ensures { result ≡ self.now.cabinet }
    {
        self.cabinet
    }

    pub fn begun(&self) -> u32
        ensures { result ≡ self.now.begun }
    {
        self.begun
    }

    // What the ticket is known by.
    pub fn name(&self) -> TicketName
        ensures { result ≡ name A.SORT self.now.cabinet self.now.begun }
    {
        TicketName {
            sort: A::SORT,
            cabinet: self.cabinet,
            begun: self.begun,
        }
    }

    // Uses the ticket up, and leaves what it was known by.
    pub(crate) fn spend(self) -> TicketName
        ensures { result ≡ name A.SORT self.cabinet self.begun }
    {
        let name = self.name();
        let Ticket {
            cabinet: _,
            begun: _,
            act: _,
        } = self;
        name
    }
}
