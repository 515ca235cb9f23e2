// Gathering one bay from rows.
ghost use Rattle.std.specs.Prelude.{◌≡◌, ◌<◌, ◌⊎◌, not, ◌&&◌, [], true, None, Ok, length, is_some, MatchResult, OnOk};
ghost use Rattle.bays.specs.Faults.{Lowest, faulty, written_twice, unwritten};
ghost use Rattle.lists.specs.Lists.{listed};
ghost use Rattle.orders.specs.Orders.{of_bay, write_count};
ghost use Rattle.relations.specs.Meanings.{told};
ghost use Rattle.gathering.specs.Faults.{Spares, Unspares};
ghost use Rattle.gathering.specs.Kept.{AllKept};
ghost use Rattle.gathering.specs.Spans.{spans};
ghost use Rattle.gathering.specs.Gathering.{ReadsUpTo, noted, with_reads, Wrote, Seen, Gathered};

use crate::bay::Bay;
use crate::faults::{Fault, Faults, TooManyWrites, Unspared};
use crate::reads::Reads;
use crate::write::{MOST_WRITES, Write};
use crate::writes::{add_read, add_write, first_twice};
use lists::ArrayList;
use operations::row::Row;
use relations::{reads_in, writes_in};
use values::kind::Kind;

impl Reads {
    // With a read at a place more: its write is missing, or it is told whether the read is before it.
    fn with(self, place: usize, foreseen: Option<bool>) -> Reads
        ensures { result ≡ noted self place foreseen }
    {
        match foreseen {
            None => Reads {
                any: true,
                unwritten: self.unwritten.or(Some(place)),
                foreseen: self.foreseen,
            },
            Some(true) => Reads {
                any: true,
                unwritten: self.unwritten,
                foreseen: self.foreseen.or(Some(place)),
            },
            Some(false) => Reads { any: true, ..self },
        }
    }

    // Whether no read behind these need be looked at: a write is missing, and not all reads are asked for.
    fn enough(&self, all: bool) -> bool
        ensures { result ≡ (not all && is_some self.now.unwritten) }
    {
        !all && self.unwritten.is_some()
    }
}

// The writes of the bay.
fn gather_writes<V: Kind>(
    rows: &[Row<V>],
    number: u8,
    writes: &mut ArrayList<Write, MOST_WRITES>,
) -> Result<(), TooManyWrites>
    ensures wrote { MatchResult result
        (λ _. Wrote (told V.Kind.meaning rows.now) number (length rows.now) (spans (listed writes.new)))
        (λ _. 64 < write_count (told V.Kind.meaning rows.now) number) }
    ensures kept { OnOk result (AllKept V.Kind.meaning rows.now (listed writes.new)) }
{
    writes.clear();
    for (place, row) in rows.iter().enumerate() {
        if writes_in(row, number) {
            add_write(rows, writes, place)?;
        }
    }
    Ok(())
}

// The reads of the bay, whose writes were gathered: each write is left as its reads leave it. Unless all reads are asked for, none
// is looked at behind the first whose write is missing.
fn gather_reads<V: Kind>(
    rows: &[Row<V>],
    number: u8,
    writes: &mut ArrayList<Write, MOST_WRITES>,
    all: bool,
) -> Reads
    requires { Seen (told V.Kind.meaning rows.now) number 0 (spans (listed writes.old)) }
    ensures lacking { Lowest (length rows.now) (faulty (of_bay number) unwritten (told V.Kind.meaning rows.now)) result.unwritten }
    ensures seen { ((all ≡ true) ⊎ (result.unwritten ≡ None)) →
        Seen (told V.Kind.meaning rows.now) number (length rows.now) (spans (listed writes.new))
        × ReadsUpTo (told V.Kind.meaning rows.now) number (length rows.now) result }
    ensures kept { AllKept V.Kind.meaning rows.now (listed writes.old) → AllKept V.Kind.meaning rows.now (listed writes.new) }
{
    let mut reads = Reads::default();
    for (place, row) in rows.iter().enumerate() {
        if reads_in(row, number) {
            reads = reads.with(place, add_read(rows, writes, place));
            if reads.enough(all) {
                return reads;
            }
        }
    }
    reads
}

impl Bay {
    // A bay with nothing gathered.
    pub fn new() -> Bay
        ensures { Gathered [] 0 result }
    {
        Bay {
            writes: ArrayList::new(),
            read: false,
            faults: Faults::default(),
        }
    }

    // Notes what is found besides the writes.
    fn note(&mut self, written_twice: Option<usize>, reads: Reads)
        ensures { self.new ≡ with_reads self.old written_twice reads }
    {
        self.read = reads.any;
        self.faults = Faults {
            written_twice,
            unwritten: reads.unwritten,
            foreseen: reads.foreseen,
        };
    }

    // Gathers the bay of this number, in two passes over the rows. What was gathered before is lost, where a bay is refused too.
    pub fn gather<V: Kind>(&mut self, rows: &[Row<V>], number: u8) -> Result<(), TooManyWrites>
        ensures gathered { MatchResult result
            (λ _. Gathered (told V.Kind.meaning rows.now) number self.new)
            (λ _. 64 < write_count (told V.Kind.meaning rows.now) number) }
        ensures kept { OnOk result (AllKept V.Kind.meaning rows.now (listed self.new.writes)) }
    {
        gather_writes(rows, number, &mut self.writes)?;
        let written_twice = first_twice(rows, self.writes.as_slice());
        let reads = gather_reads(rows, number, &mut self.writes, true);
        self.note(written_twice, reads);
        Ok(())
    }

    // Gathers a bay that is to be judged alone: it is refused as soon as no other refusal can come first.
    pub fn gather_spared<V: Kind>(&mut self, rows: &[Row<V>], number: u8) -> Result<(), Unspared>
        ensures gathered { MatchResult result
            (λ done. Gathered (told V.Kind.meaning rows.now) number self.new × Spares self.new.faults (Ok done))
            (Unspares (told V.Kind.meaning rows.now) number) }
        ensures kept { OnOk result (AllKept V.Kind.meaning rows.now (listed self.new.writes)) }
    {
        gather_writes(rows, number, &mut self.writes)?;
        if let Some(place) = first_twice(rows, self.writes.as_slice()) {
            return Err(Unspared::Faulty(Fault::WrittenTwice { place }));
        }
        let reads = gather_reads(rows, number, &mut self.writes, false);
        self.note(None, reads);
        self.faults.spare()?;
        Ok(())
    }
}
