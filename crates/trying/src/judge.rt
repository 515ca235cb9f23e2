// Judging one bay.
ghost use Rattle.std.specs.Prelude.{◌≡◌, ℕ, ◌≤◌, List, length, take};
ghost use Rattle.orders.specs.Claims.{Judgeable};
ghost use Rattle.orders.specs.Orders.{Operation, of_bay};
ghost use Rattle.gathering.specs.Gathering.{Gathered};
ghost use Rattle.gathering.specs.Spans.{spans};
ghost use Rattle.gathering.specs.Writes.{places};
ghost use Rattle.lists.specs.Lists.{listed};
ghost use Rattle.trying.specs.Trying.{placed, RanksUpTo, RanksSearched, JudgedWithin};

use crate::edges::edges_between;
use crate::order::BayOrder;
use gathering::bay::Bay;
use gathering::write::{MOST_WRITES, Write};
use lists::ArrayList;
use searching::edges::Edges;
use searching::search::{FirstOrder, NotFound};

// The largest limit on trials.
pub const MOST_TRIALS: u32 = 1_000_000;

// Tries the value orders of a gathered bay, with no more trials than the limit. What it finds is said of a bay without faults.
pub fn judge_bay(bay: &Bay, limit: u32) -> Result<BayOrder, NotFound>
    ensures { (ops : List Operation) (b : ℕ) → Gathered ops b bay.now → Judgeable ops (of_bay b) → JudgedWithin ops b limit result }
{
    if bay.writes.is_empty() {
        return Ok(BayOrder {
            age: 0,
            trials: 0,
            places: ArrayList::new(),
        });
    }
    let found = search(bay, limit)?;
    Ok(BayOrder {
        age: if bay.read { found.age } else { 0 },
        trials: found.trials,
        places: placed(bay.writes.as_slice(), &found.writes),
    })
}

// The search over the edges between the writes.
fn search(bay: &Bay, limit: u32) -> Result<FirstOrder, NotFound>
    ensures { RanksSearched (spans (listed bay.now.writes)) limit result }
{
    let found = edges_between(bay);
    let edges = Edges {
        masks: found.as_slice(),
    };
    edges.search(limit)
}

// The places of ranks.
fn placed(writes: &[Write], ranks: &[u8; 64]) -> ArrayList<usize, MOST_WRITES>
    requires { (length writes.now ≤ 64) × (RanksUpTo (length writes.now) ranks.now) }
    ensures order { listed result ≡ placed (places (spans writes.now)) (take (length writes.now) ranks.now) }
    ensures all { length (listed result) ≡ length writes.now }
{
    let mut places = ArrayList::new();
    for rank in &ranks[..writes.len()] {
        places.push(writes[*rank as usize].place).unwrap();
    }
    places
}
