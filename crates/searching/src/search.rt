// The search for the first k with a value order, and the first of its value orders.
ghost use Rattle.std.specs.Prelude.{◌≡◌, ◌+◌, ◌<◌, ◌≤◌, MatchResult};
ghost use Rattle.searching.specs.Outcome.{Searched};

use crate::edges::Edges;
use crate::standing::Standing;

// The age, the trials of all k up to it, and its first value order, which is as long as the bay has writes.
#[derive(Clone, Copy)]
pub struct FirstOrder {
    pub age: usize,
    pub trials: u32,
    pub writes: [u8; 64],
}

#[derive(Clone, Copy)]
pub enum NotFound {
    OverLimit,
    NoOrder,
}

fn counted(trials: u32, limit: u32) -> Result<u32, NotFound>
    ensures { MatchResult result (λ t. (trials < limit) × (t ≡ trials + 1)) (λ e. (limit ≤ trials) × (e ≡ NotFound.OverLimit)) }
{
    if trials < limit {
        Ok(trials + 1)
    } else {
        Err(NotFound::OverLimit)
    }
}

impl<'a> Edges<'a> {
    // From k = n on no read edge binds, so that a larger k has no more value orders.
    pub fn search(&self, limit: u32) -> Result<FirstOrder, NotFound>
        ensures { Searched self.now.masks.now limit result }
    {
        let n = self.masks.len();
        let mut standing = Standing::none(n);
        let mut trials: u32 = 0;
        let mut k: usize = 1;
        let age = 'ages: loop {
            let mut write: usize = 0;
            'place: loop {
                'pick: while write < n {
                    let masks = self.masks[write];
                    if standing.may_take(write, masks.before, masks.behind) {
                        trials = counted(trials, limit)?;
                        standing.push(write, k);
                        if standing.count == n {
                            break 'ages k;
                        }
                        write = 0;
                        continue 'place;
                    }
                    write += 1;
                }
                if standing.count == 0 {
                    break 'place;
                }
                write = standing.pop(k) + 1;
            }
            if k >= n {
                return Err(NotFound::NoOrder);
            }
            k += 1;
        };
        Ok(FirstOrder {
            age,
            trials,
            writes: standing.writes,
        })
    }
}
