// The trials and the value order of a bay by all run-ups.
use crate::acts::{Act, MOST};
use crate::sequences::Sequence;
use std::alloc::{AllocError, Global};

// What run-ups ask of a write of the bay: its start, its shortened finish, and the latest start of its reads, if it has any.
#[derive(Clone, Copy)]
pub struct Write {
    pub place: usize,
    start: u32,
    finish: u32,
    last_read: Option<u32>,
}

impl Write {
    fn of(act: &Act, acts: &[Act]) -> Write {
        let first_end = acts
            .iter()
            .filter(|read| act.is_read_by(read))
            .map(|read| read.row.finish)
            .min();
        let last_read = acts
            .iter()
            .filter(|read| act.is_read_by(read))
            .map(|read| read.row.start)
            .max();
        Write {
            place: act.place,
            start: act.row.start,
            finish: act.row.finish.min(first_end.unwrap_or(act.row.finish)),
            last_read,
        }
    }

    // The writes of the bay.
    pub fn all(heap: Global, acts: &[Act]) -> Result<Vec<Write>, AllocError> {
        acts.iter()
            .filter(|act| act.writes())
            .map(|act| Write::of(act, acts))
            .collect(heap)
    }
}

// A sequence that is tried as a run-up for k, and the writes of the bay.
#[derive(Clone, Copy)]
struct Tried<'a> {
    writes: &'a [Write],
    sequence: &'a Sequence,
    k: usize,
}

impl Tried<'_> {
    fn position(&self, write: &Write) -> Option<usize> {
        self.sequence.position(write.place)
    }

    // Whether a write keeps another out of its position: a write edge goes to it from one that does not stand earlier, or a read edge
    // from one that stands k or more positions after it.
    fn bars(&self, write: &Write, other: &Write, position: usize) -> bool {
        let own = self.position(write);
        let write_edge = write.finish < other.start;
        let read_edge = other.last_read.is_some_and(|start| write.finish < start);
        write_edge && own.is_none_or(|own| own >= position)
            || read_edge && own.is_some_and(|own| own.saturating_sub(position) >= self.k)
    }

    // Whether a write does not stand in the sequence, or no write bars it from its position.
    fn fits(&self, other: &Write) -> bool {
        self.position(other).is_none_or(|position| !self
            .writes
            .iter()
            .any(|write| self.bars(write, other, position)))
    }

    // Whether the sequence is a run-up: all its members are writes of the bay, and each fits.
    fn is_run_up(&self) -> bool {
        let members = self
            .writes
            .iter()
            .filter(|write| self.position(write).is_some());
        members.count() == self.sequence.length && self.writes.iter().all(|write| self.fits(write))
    }

    // Whether a run-up has all writes of the bay.
    fn is_value_order(&self) -> bool {
        self.sequence.length == self.writes.len()
    }
}

// The least k that has a value order, the trials of all k up to it, and its first value order.
#[derive(Clone, Copy)]
pub struct Found<'a> {
    pub k: usize,
    pub trials: u32,
    pub order: &'a Sequence,
}

impl<'a> Found<'a> {
    // Nothing is found where the bay has no write.
    pub fn first(writes: &'a [Write], sequences: &'a [Sequence]) -> Option<Found<'a>> {
        let mut trials = 0u32;
        for k in 1..=MOST {
            let tried = sequences.iter().map(|sequence| Tried {
                writes,
                sequence,
                k,
            });
            for run_up in tried.filter(|tried| tried.is_run_up()) {
                trials = trials.saturating_add(1);
                if run_up.is_value_order() {
                    let order = run_up.sequence;
                    return Some(Found { k, trials, order });
                }
            }
        }
        None
    }
}
