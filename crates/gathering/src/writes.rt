// The writes of a bay, one operation after another.
ghost use Rattle.std.specs.Prelude.{◌≡◌, ℕ, ◌<◌, true, false, Ok, length, OnOk};
ghost use Rattle.orders.specs.Orders.{at, of_bay, writes as write_at};
ghost use Rattle.bays.specs.Faults.{Lowest, faulty, written_twice};
ghost use Rattle.lists.specs.Lists.{listed};
ghost use Rattle.relations.specs.Meanings.{meant, told};
ghost use Rattle.operations.specs.Rows.{without_value};
ghost use Rattle.gathering.specs.Kept.{later_read, shortened_by, AllKept};
ghost use Rattle.gathering.specs.Spans.{started, span, spans};
ghost use Rattle.gathering.specs.Gathering.{Wrote};
ghost use Rattle.gathering.specs.Writes.{same_value, later, read_by, PlacesBelow, WriteLast, WriteAdded, ReadAdded};

use crate::faults::TooManyWrites;
use crate::write::{MOST_WRITES, Write};
use lists::ArrayList;
use operations::row::Row;
use relations::{alike, before};
use values::kind::Kind;

impl Write {
    // The write as one more read leaves it.
    fn read_by<V: Kind>(self, read: &Row<V>) -> Write
        ensures span { span result ≡ read_by (span self) (meant V.Kind.meaning read.now) }
        ensures whole { result ≡ shortened_by self (without_value read.now) }
    {
        let read = read.without_value();
        Write {
            row: self.row.finished_at(read.finish.min(self.row.finish)),
            last_read: Some(later(self.last_read, read)),
            ..self
        }
    }
}

// Of a read and one that may be held, the one that starts later.
fn later(held: Option<Row<()>>, read: Row<()>) -> Row<()>
    ensures start { result.start ≡ later (started held) read.start }
    ensures whole { result ≡ later_read held read }
{
    match held {
        Some(last) if read.start <= last.start => last,
        _ => read,
    }
}

// The lowest rank of a write of the bay and value of the row at a place.
fn rank_of<V: Kind>(rows: &[Row<V>], writes: &[Write], place: usize) -> Option<usize>
    requires { (PlacesBelow (length rows.now) (spans writes.now)) × (place < length rows.now) }
    ensures { Lowest (length writes.now) (same_value (told V.Kind.meaning rows.now) (spans writes.now) place) result }
{
    for (rank, write) in writes.iter().enumerate() {
        if alike(&rows[write.place], &rows[place]) {
            return Some(rank);
        }
    }
    None
}

// The place of the first write whose value an earlier one has.
pub(crate) fn first_twice<V: Kind>(rows: &[Row<V>], writes: &[Write]) -> Option<usize>
    requires { PlacesBelow (length rows.now) (spans writes.now) }
    ensures { (b : ℕ) → Wrote (told V.Kind.meaning rows.now) b (length rows.now) (spans writes.now) →
        Lowest (length rows.now) (faulty (of_bay b) written_twice (told V.Kind.meaning rows.now)) result }
{
    let mut twice = None;
    for (rank, write) in writes.iter().enumerate() {
        if twice.is_none() {
            let first = rank_of(rows, writes, write.place).unwrap_or(rank);
            if first < rank {
                twice = Some(write.place);
            }
        }
    }
    twice
}

// Adds the write at a place. The clause `twice` says whether an earlier one has its value, which is looked for once all are there.
pub(crate) fn add_write<V: Kind>(
    rows: &[Row<V>],
    writes: &mut ArrayList<Write, MOST_WRITES>,
    place: usize,
) -> Result<(), TooManyWrites>
    requires { place < length rows.now }
    ensures added { WriteLast (told V.Kind.meaning rows.now) (spans (listed writes.old)) place (spans (listed writes.new)) result }
    ensures twice { (b : ℕ) → Wrote (told V.Kind.meaning rows.now) b place (spans (listed writes.old)) → write_at (told V.Kind.meaning rows.now) b place ≡ true →
        OnOk result (WriteAdded (told V.Kind.meaning rows.now) (spans (listed writes.old)) place (spans (listed writes.new))
        (Ok (faulty (of_bay b) written_twice (told V.Kind.meaning rows.now) place))) }
    ensures kept { OnOk result (AllKept V.Kind.meaning rows.now (listed writes.old) → AllKept V.Kind.meaning rows.now (listed writes.new)) }
{
    let write = Write {
        place,
        row: rows[place].without_value(),
        last_read: None,
    };
    let Ok(()) = writes.push(write) else {
        return Err(TooManyWrites);
    };
    Ok(())
}

// Adds the read at a place to the first write of its value, where there is one, and tells whether the read is before it.
pub(crate) fn add_read<V: Kind>(
    rows: &[Row<V>],
    writes: &mut ArrayList<Write, MOST_WRITES>,
    place: usize,
) -> Option<bool>
    requires below { (PlacesBelow (length rows.now) (spans (listed writes.old))) × (place < length rows.now) }
    requires read { (at (told V.Kind.meaning rows.now) place).write ≡ false }
    ensures added { ReadAdded (told V.Kind.meaning rows.now) (spans (listed writes.old)) place (spans (listed writes.new)) result }
    ensures kept { AllKept V.Kind.meaning rows.now (listed writes.old) → AllKept V.Kind.meaning rows.now (listed writes.new) }
{
    let rank = rank_of(rows, writes.as_slice(), place)?;
    let read = &rows[place];
    let write = writes.as_slice()[rank];
    let foreseen = before(read, &write.row);
    writes.set(rank, write.read_by(read)).unwrap();
    Some(foreseen)
}
