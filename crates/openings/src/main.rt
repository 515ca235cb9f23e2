// Opens tables and lists of every sort and compares each answer with what it should be.
#![tactic(auto)]

mod bays;
mod cases;
mod files;
mod trials;

use std::io;
use trials::Trials;

fn main(rt: HostRuntime) -> io::Result<()> {
    let mut trials = Trials::new(rt.alloc());
    trials.lengths()?;
    trials.tables()?;
    trials.two_at_once()?;
    trials.stamps()?;
    trials.lists()?;
    trials.refused_lists()?;
    trials.list_lengths()?;
    trials.places()?;
    let right = trials.right;
    let wrong = trials.wrong;
    let first = trials.first_wrong;
    println!(rt; "{right} right, {wrong} wrong{first}")
}
