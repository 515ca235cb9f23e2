// The age of a bay by all lawful orders.
use crate::acts::Act;
use crate::sequences::Sequence;

// The operations of a source, and a sequence of all their places. Where a source has fewer operations, what stands at the other
// places does not matter.
#[derive(Clone, Copy)]
struct Order<'a> {
    acts: &'a [Act],
    sequence: &'a Sequence,
}

impl Order<'_> {
    fn position(&self, act: &Act) -> Option<usize> {
        self.sequence.position(act.place)
    }

    // Whether one operation stands earlier than the other.
    fn is_earlier(&self, first: &Act, second: &Act) -> bool {
        self.position(first) < self.position(second)
    }

    // Whether each operation that is before another stands earlier, and so does the write of each read.
    fn is_lawful(&self) -> bool {
        self.acts.iter().all(|first| {
            self.acts.iter().all(|second| {
                let is_bound = first.precedes(second) || first.is_read_by(second);
                !is_bound || self.is_earlier(first, second)
            })
        })
    }

    // The age of a read, if it is one.
    fn age(&self, read: &Act) -> Option<usize> {
        let write = self.acts.iter().find(|act| act.is_read_by(read))?;
        let between = self.acts.iter().filter(|act| {
            act.writes() && self.is_earlier(write, act) && self.is_earlier(act, read)
        });
        Some(between.count().saturating_add(1))
    }

    // The largest age of a read, or 0 without reads.
    fn largest_age(&self) -> usize {
        self.acts
            .iter()
            .filter_map(|act| self.age(act))
            .max()
            .unwrap_or(0)
    }
}

// The least of the largest ages of all lawful orders, if there is one.
pub fn least_age(acts: &[Act], sequences: &[Sequence]) -> Option<usize> {
    sequences
        .iter()
        .filter(|sequence| sequence.is_full())
        .map(|sequence| Order { acts, sequence })
        .filter(|order| order.is_lawful())
        .map(|order| order.largest_age())
        .min()
}
