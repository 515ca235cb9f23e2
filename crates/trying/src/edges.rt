// The edges between the writes of a bay, as masks of ranks.
ghost use Rattle.std.specs.Prelude.{◌≡◌, ◌≤◌, not, ◌&&◌, length, ◌==◌};
ghost use Rattle.lists.specs.Lists.{listed};
ghost use Rattle.gathering.specs.Spans.{started, span, spans};
ghost use Rattle.trying.specs.Edges.{Bits, before_last, is_into, is_from, EdgesOf};

use gathering::bay::Bay;
use gathering::write::{MOST_WRITES, Write};
use lists::ArrayList;
use masks::with_bit;
use operations::row::Row;
use relations::before;
use searching::edges::EdgeMasks;

// Whether a write, shortened, is before the last read of another; then it is before some read of it.
fn before_last(row: &Row<()>, last: Option<Row<()>>) -> bool
    ensures { result ≡ before_last row.now.finish (started last) }
{
    last.is_some_and(|read| before(row, &read))
}

// Whether the write of one rank has a read edge to that of another.
fn read_edge(from: usize, write: &Write, into: usize, other: &Write) -> bool
    ensures { result ≡ (not (into == from) && before_last write.now.row.finish (started other.now.last_read)) }
{
    into != from && before_last(&write.row, other.last_read)
}

// The writes with a write edge into this one: those that are, shortened, before it.
fn edges_into(writes: &[Write], into: &Write) -> u64
    requires { length writes.now ≤ 64 }
    ensures { Bits (length writes.now) (is_into (spans writes.now) (span into.now)) result }
{
    let mut mask = 0;
    for (rank, write) in writes.iter().enumerate() {
        if before(&write.row, &into.row) {
            mask = with_bit(mask, rank as u32);
        }
    }
    mask
}

// The writes that the write of a rank has a read edge to: the others with a read that it is, shortened, before.
fn edges_from(writes: &[Write], from: usize, write: &Write) -> u64
    requires { length writes.now ≤ 64 }
    ensures { Bits (length writes.now) (is_from (spans writes.now) from (span write.now)) result }
{
    let mut mask = 0;
    for (rank, other) in writes.iter().enumerate() {
        if read_edge(from, write, rank, other) {
            mask = with_bit(mask, rank as u32);
        }
    }
    mask
}

// The edges at each write of a bay, by rank.
pub(crate) fn edges_between(bay: &Bay) -> ArrayList<EdgeMasks, MOST_WRITES>
    ensures edges { EdgesOf (spans (listed bay.now.writes)) (listed result) }
    ensures all { length (listed result) ≡ length (listed bay.now.writes) }
{
    let writes = bay.writes.as_slice();
    let mut edges = ArrayList::new();
    for (rank, write) in writes.iter().enumerate() {
        let masks = EdgeMasks {
            before: edges_into(writes, write),
            behind: edges_from(writes, rank, write),
        };
        edges.push(masks).unwrap();
    }
    edges
}
