// The calls of a log.
ghost use Rattle.std.specs.Prelude.{◌≡◌, true, false, is_ok, IfErr};
ghost use Rattle.lives.specs.Calls.{Reopened};
ghost use Rattle.logs.specs.Stands.{Carries, Starts, begin_event, end_event, lose_event, close_event};
ghost use Rattle.logs.specs.States.{state_of};
ghost use Rattle.logs.specs.Steps.{ticket as ticket_of, Opens, Begins, Ends, Loses, Closes};

use crate::act::Act;
use crate::handed_back::HandedBack;
use crate::log::{Closed, Recording};
use crate::storage::Storage;
use crate::ticket::Ticket;
use lives::refusal::LogRefusal;
use operations::operation::LAST_TICK;

impl Recording {
    // Opens a log on a storage, and empties it.
    pub fn open<V: Copy>(storage: &mut Storage<'_, V>, first: u32) -> Result<Recording, LogRefusal>
        ensures answer { Opens (state_of storage.old) (state_of storage.new) first result }
        ensures untouched { is_ok result ≡ false → storage.new ≡ storage.old }
        ensures life { Starts first (state_of storage.new) result }
    {
        if first < 1 || first > LAST_TICK {
            return Err(LogRefusal::FirstTick { first });
        }
        storage.reset(first);
        Ok(Recording { opened: first })
    }

    // Begins what the ticket is then of.
    pub fn begin<A: Act, V: Copy>(
        &self,
        storage: &mut Storage<'_, V>,
        cabinet: u32,
        bay: u32,
    ) -> Result<Ticket<A>, LogRefusal>
        ensures answer { Begins (ticket_of cabinet) (state_of storage.old) (state_of storage.new) A.SORT cabinet bay result }
        ensures untouched { is_ok result ≡ false → storage.new ≡ storage.old }
        ensures life { Carries true (state_of storage.old) (begin_event (λ t. t.begun) A.SORT cabinet bay result) (state_of storage.new) }
    {
        let begun = storage.begin(A::SORT, cabinet, bay)?;
        Ok(Ticket::new(cabinet, begun))
    }

    // Ends an operation with the value that it read or wrote. A refused end hands the ticket back.
    pub fn end<A: Act, V: Copy>(
        &self,
        storage: &mut Storage<'_, V>,
        ticket: Ticket<A>,
        value: V,
    ) -> Result<(), HandedBack<Ticket<A>>>
        ensures answer { Ends (λ e. e.refusal) (state_of storage.old) (state_of storage.new) A.SORT ticket.cabinet ticket.begun value result }
        ensures back { IfErr result (λ e. e.value ≡ ticket) }
        ensures untouched { is_ok result ≡ false → storage.new ≡ storage.old }
        ensures life { Carries true (state_of storage.old) (end_event (λ e. e.refusal) A.SORT ticket.cabinet ticket.begun value result) (state_of storage.new) }
    {
        match storage.end(ticket.name(), value) {
            Ok(()) => {
                ticket.spend();
                Ok(())
            }
            Err(refusal) => Err(HandedBack {
                refusal,
                value: ticket,
            }),
        }
    }

    // Loses an operation, which then counts as never made. A refused loss uses the ticket up too.
    pub fn lose<A: Act, V: Copy>(
        &self,
        storage: &mut Storage<'_, V>,
        ticket: Ticket<A>,
    ) -> Result<(), LogRefusal>
        ensures answer { Loses (state_of storage.old) (state_of storage.new) A.SORT ticket.cabinet ticket.begun result }
        ensures untouched { is_ok result ≡ false → storage.new ≡ storage.old }
        ensures life { Carries true (state_of storage.old) (lose_event A.SORT ticket.cabinet ticket.begun result) (state_of storage.new) }
    {
        storage.lose(ticket.spend())
    }

    // Closes the log, so that it can be surveyed. A refused close hands the recording log back.
    pub fn close<V: Copy>(self, storage: &Storage<'_, V>) -> Result<Closed, HandedBack<Recording>>
        ensures answer { Closes (state_of storage.now) self result }
        ensures life { Carries true (state_of storage.now) (close_event result) (state_of storage.now) }
    {
        let count = storage.waiting;
        if count != 0 {
            return Err(HandedBack {
                refusal: LogRefusal::Waiting { count },
                value: self,
            });
        }
        Ok(Closed {
            opened: self.opened,
        })
    }
}

impl Closed {
    // The log is recording again, with all that its storage holds.
    pub fn reopen<V: Copy>(self, storage: &mut Storage<'_, V>) -> Recording
        ensures answer { result.opened ≡ self.opened }
        ensures untouched { storage.new ≡ storage.old }
        ensures life { Carries false (state_of storage.old) Reopened (state_of storage.new) }
    {
        let _ = storage;
        Recording {
            opened: self.opened,
        }
    }
}
