// Compares the judge of one bay with all lawful orders and all run-ups of small bays.
#![tactic(auto)]

mod acts;
mod chance;
mod comparison;
mod faults;
mod lawful;
mod run_ups;
mod sequences;
mod tally;

use chance::Chance;
use comparison::Comparison;
use std::io;
use tally::Tally;

// How many bays are compared.
const BAYS: u32 = 20_000;

fn main(rt: HostRuntime) -> io::Result<()> {
    let mut comparison = Comparison::new(rt.alloc())?;
    let mut chance = Chance::new();
    let mut tally = Tally::new(rt.alloc());
    for _ in 0..BAYS {
        let sample = chance.sample(rt.alloc())?;
        tally.count(comparison.agreed(&sample)?)?;
    }
    println!(rt; "{tally}")
}
