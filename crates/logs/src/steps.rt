// What the calls of a log do to its storage.
ghost use Rattle.std.specs.Prelude.{◌≡◌, ◌≤◌, false, [], length, is_ok, IfOk, MatchOption, slice_index_or};
ghost use Rattle.operations.specs.Rows.{AllValid};
ghost use Rattle.lives.specs.Life.{any_answer};
ghost use Rattle.logs.specs.Cabinets.{occupied, holds, waits, Found};
ghost use Rattle.logs.specs.Stands.{Leads};
ghost use Rattle.logs.specs.States.{state_of, opened_at};
ghost use Rattle.logs.specs.Steps.{lost, Begins, Ends, Loses};
ghost use Rattle.logs.specs.declared.cabinet.Cabinet.TheVariants.{Idle};

use crate::cabinet::Cabinet;
use crate::storage::Storage;
use crate::ticket_name::TicketName;
use lists::BoundedList;
use lives::refusal::LogRefusal;
use operations::operation::{LAST_BAY, LAST_CABINET, LAST_TICK};
use operations::room::MOST_OPERATIONS;
use operations::row::{Row, Sort};

impl Cabinet {
    // A cabinet with an operation of this sort.
    fn occupied(sort: Sort, bay: u8, begun: u32) -> Cabinet
        ensures { result ≡ occupied sort bay begun }
    {
        match sort {
            Sort::Read => Cabinet::Reading { bay, begun },
            Sort::Write => Cabinet::Writing { bay, begun },
        }
    }
}

impl<'a, V: Copy> Storage<'a, V> {
    // Fresh storage is as if a log had been opened on it at 1.
    pub fn new(rows: &'a mut [Row<V>]) -> Storage<'a, V>
        ensures fresh { state_of result ≡ opened_at 1 (length rows.old) }
        ensures life { Leads any_answer 1 (length rows.old) [] (state_of result) }
    {
        Storage {
            cabinets: [Cabinet::Idle; 64],
            next: 1,
            waiting: 0,
            ended: BoundedList::new(rows),
        }
    }

    pub(crate) fn reset(&mut self, first: u32)
        requires { first ≤ 1073741824 }
        ensures { state_of self.new ≡ opened_at first (length self.old.ended.items.now) }
    {
        self.cabinets = [Cabinet::Idle; 64];
        self.next = first;
        self.waiting = 0;
        self.ended.clear();
    }

    // The tick of the begin.
    pub(crate) fn begin(&mut self, sort: Sort, cabinet: u32, bay: u32) -> Result<u32, LogRefusal>
        ensures answer { Begins (λ tick. tick) (state_of self.old) (state_of self.new) sort cabinet bay result }
        ensures untouched { is_ok result ≡ false → self.new ≡ self.old }
    {
        if cabinet > u32::from(LAST_CABINET) {
            return Err(LogRefusal::NoCabinet { cabinet });
        }
        if bay > u32::from(LAST_BAY) {
            return Err(LogRefusal::NoSuchBay { bay });
        }
        let Cabinet::Idle = self.cabinets[cabinet as usize] else {
            return Err(LogRefusal::Busy { cabinet });
        };
        let limit = self.ended.capacity().min(MOST_OPERATIONS);
        if self.ended.len + self.waiting as usize >= limit {
            return Err(LogRefusal::Full { limit });
        }
        if self.next + self.waiting + 1 > LAST_TICK {
            return Err(LogRefusal::NoTick { next: self.next });
        }
        let begun = self.next;
        self.cabinets[cabinet as usize] = Cabinet::occupied(sort, bay as u8, begun);
        self.next = begun + 1;
        self.waiting += 1;
        Ok(begun)
    }

    // The bay of the operation that waits under this name.
    fn bay_held(&self, name: TicketName) -> Option<u8>
        ensures { MatchOption result (holds name.sort name.begun (slice_index_or self.now.cabinets name.cabinet Idle) ≡ false) (Found self.now.cabinets self.now.next self.now.waiting name.sort name.cabinet name.begun) }
    {
        let cabinet = self.cabinets.get(name.cabinet as usize)?;
        match (*cabinet, name.sort) {
            (Cabinet::Reading { bay, begun }, Sort::Read) if begun == name.begun => Some(bay),
            (Cabinet::Writing { bay, begun }, Sort::Write) if begun == name.begun => Some(bay),
            _ => None,
        }
    }

    // The cabinet holds nothing any more.
    fn free(&mut self, cabinet: u32)
        requires { (cabinet ≤ 63) × (1 ≤ self.old.waiting) × (waits (slice_index_or self.old.cabinets cabinet Idle) ≡ 1) }
        ensures state { state_of self.new ≡ lost (state_of self.old) cabinet }
        ensures same { self.new.ended ≡ self.old.ended }
    {
        self.cabinets[cabinet as usize] = Cabinet::Idle;
        self.waiting -= 1;
    }

    // Frees the cabinet of the operation that waits under this name, and answers its bay.
    fn release(&mut self, name: TicketName) -> Result<u8, LogRefusal>
        ensures found { IfOk result (Found self.old.cabinets self.old.next self.old.waiting name.sort name.cabinet name.begun) }
        ensures answer { Loses (state_of self.old) (state_of self.new) name.sort name.cabinet name.begun result }
        ensures kept { self.new.ended ≡ self.old.ended }
        ensures untouched { is_ok result ≡ false → self.new ≡ self.old }
    {
        let bay = self
            .bay_held(name)
            .ok_or(LogRefusal::NotWaiting { begun: name.begun })?;
        self.free(name.cabinet);
        Ok(bay)
    }

    pub(crate) fn end(&mut self, name: TicketName, value: V) -> Result<(), LogRefusal>
        ensures answer { Ends (λ e. e) (state_of self.old) (state_of self.new) name.sort name.cabinet name.begun value result }
        ensures untouched { is_ok result ≡ false → self.new ≡ self.old }
    {
        let bay = self.release(name)?;
        let finish = self.next;
        let row = Row {
            sort: name.sort,
            bay,
            cabinet: name.cabinet as u8,
            value,
            start: name.begun,
            finish,
        };
        self.ended.push(row).unwrap();
        self.next = finish + 1;
        Ok(())
    }

    pub(crate) fn lose(&mut self, name: TicketName) -> Result<(), LogRefusal>
        ensures answer { Loses (state_of self.old) (state_of self.new) name.sort name.cabinet name.begun result }
        ensures untouched { is_ok result ≡ false → self.new ≡ self.old }
    {
        self.release(name)?;
        Ok(())
    }

    // The rows of the operations that ended.
    pub(crate) fn rows(&self) -> &[Row<V>]
        ensures value { result.now ≡ (state_of self.now).ended }
        ensures valid { AllValid result.now }
    {
        &self.ended.items[0..self.ended.len]
    }
}
