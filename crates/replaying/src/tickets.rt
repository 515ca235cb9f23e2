// Tickets got from a log and given back to one.
ghost use Rattle.std.specs.Prelude.{◌≡◌, true, false, MatchOption};
ghost use Rattle.logs.specs.Stands.{Carries, begin_event, end_event, lose_event};
ghost use Rattle.logs.specs.States.{state_of};
ghost use Rattle.logs.specs.Steps.{Begins};
ghost use Rattle.logs.specs.declared.ticket_name.TicketName.{TicketName as Name};
ghost use Rattle.replaying.specs.Tickets.{ticket_of, named, tick_of, issued};

use crate::ticket::Ticket;
use lives::refusal::LogRefusal;
use logs::handed_back::HandedBack;
use logs::log::Recording;
use logs::storage::Storage;
use logs::ticket_name::TicketName;
use operations::row::{Row, Sort};

// A row to make storage of; what it holds does not matter.
const BLANK: Row<u8> = Row {
    sort: Sort::Read,
    bay: 0,
    cabinet: 0,
    value: 0,
    start: 0,
    finish: 0,
};

impl Ticket {
    // Begins an operation of either sort.
    pub(crate) fn begin<V: Copy>(
        log: &Recording,
        storage: &mut Storage<'_, V>,
        sort: Sort,
        cabinet: u32,
        bay: u32,
    ) -> Result<Ticket, LogRefusal>
        ensures answer { Begins (ticket_of sort cabinet) (state_of storage.old) (state_of storage.new) sort cabinet bay result }
        ensures life { Carries true (state_of storage.old) (begin_event tick_of sort cabinet bay result) (state_of storage.new) }
    {
        match sort {
            Sort::Read => Ok(Ticket::Read(log.begin(storage, cabinet, bay)?)),
            Sort::Write => Ok(Ticket::Write(log.begin(storage, cabinet, bay)?)),
        }
    }

    // What the ticket is known by.
    pub(crate) fn name(&self) -> TicketName
        ensures whole { named result ≡ self.now }
        ensures begun { result.begun ≡ tick_of self.now }
    {
        match self {
            Ticket::Read(ticket) => ticket.name(),
            Ticket::Write(ticket) => ticket.name(),
        }
    }

    // Ends the ticket's operation. A refused end hands the ticket back.
    pub(crate) fn end<V: Copy>(
        self,
        log: &Recording,
        storage: &mut Storage<'_, V>,
        value: V,
    ) -> Result<(), HandedBack<Ticket>>
        ensures { (name : Name) → self ≡ named name → Carries true (state_of storage.old) (end_event (λ e. e.refusal) name.sort name.cabinet name.begun value result) (state_of storage.new) }
    {
        match self {
            Ticket::Read(ticket) => log.end(storage, ticket, value).map_err(|HandedBack {
                refusal,
                value,
            }| HandedBack {
                refusal,
                value: Ticket::Read(value),
            }),
            Ticket::Write(ticket) => log.end(storage, ticket, value).map_err(|HandedBack {
                refusal,
                value,
            }| HandedBack {
                refusal,
                value: Ticket::Write(value),
            }),
        }
    }

    // Loses the ticket's operation. A refused loss uses the ticket up too.
    pub(crate) fn lose<V: Copy>(
        self,
        log: &Recording,
        storage: &mut Storage<'_, V>,
    ) -> Result<(), LogRefusal>
        ensures { (name : Name) → self ≡ named name → Carries true (state_of storage.old) (lose_event name.sort name.cabinet name.begun result) (state_of storage.new) }
    {
        match self {
            Ticket::Read(ticket) => log.lose(storage, ticket),
            Ticket::Write(ticket) => log.lose(storage, ticket),
        }
    }

    // A ticket of this name from another log, where a log can hand one out.
    pub(crate) fn mint(name: TicketName) -> Option<Ticket>
        ensures { MatchOption result (issued name ≡ false) (λ t. t ≡ named name) }
    {
        let mut rows = [BLANK; 1];
        let mut storage = Storage::new(&mut rows);
        let log = Recording::open(&mut storage, name.begun).ok()?;
        Ticket::begin(&log, &mut storage, name.sort, name.cabinet, 0).ok()
    }

    // Gives the ticket back to another log, by a loss.
    pub(crate) fn use_up(self) {
        let mut rows = [BLANK; 1];
        let mut storage = Storage::new(&mut rows);
        let log = Recording::open(&mut storage, 1).unwrap();
        let _ = self.lose(&log, &mut storage);
    }
}
