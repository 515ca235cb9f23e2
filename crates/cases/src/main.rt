// Judges the worked cases of one bay and compares each answer with what it should be.
#![tactic(auto)]

mod cases;
mod judged;

use cases::CASES;
use std::io;

fn main(rt: HostRuntime) -> io::Result<()> {
    let answers: Vec<String> = CASES
        .iter()
        .map(|case| case.told(rt.alloc()))
        .try_collect(rt.alloc())?;
    let wrong = CASES
        .iter()
        .zip(&answers)
        .filter(|(case, answer)| answer.as_str() != case.said);
    for (_, answer) in wrong {
        println!(rt; "wrong: {answer}")?;
    }
    let right = CASES
        .iter()
        .zip(&answers)
        .filter(|(case, answer)| answer.as_str() == case.said)
        .count();
    let count = CASES.len();
    println!(rt; "{right} right of {count}")
}
