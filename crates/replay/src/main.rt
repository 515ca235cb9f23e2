// Runs the script in the file that it is given, or in script.txt, on a log as one life, and prints the account. The script's values
// are serials.
#![tactic(auto)]

use anyhow::anyhow;
use logs::storage::Storage;
use operations::row::{Row, Sort};
use replaying::desk::Desk;
use replaying::replay::replay;
use scripts::account::account;
use scripts::script::Script;
use std::alloc::Global;
use std::{env, fs};
use values::kind::Kind;
use values::serial::Serial;

// The script of a text. A line that is not one of a script ends it.
fn script_of(heap: Global, text: &str) -> anyhow::Result<Script> {
    let mut script = Script::new(heap);
    for (number, line) in (1usize..).zip(text.lines()) {
        if let Err(unread) = script.read(heap, line) {
            return Err(anyhow!(format!(in heap; "line {number}: {unread}")?));
        }
    }
    Ok(script)
}

// Entries of a storage; what they hold does not matter.
fn blank_rows(heap: Global, entries: u32) -> anyhow::Result<Vec<Row<Serial>>> {
    let Some(value) = Serial::from_pattern(0) else {
        return Err(anyhow!("0 is no serial"));
    };
    let blank = Row {
        sort: Sort::Read,
        bay: 0,
        cabinet: 0,
        value,
        start: 0,
        finish: 0,
    };
    Ok(vec![in heap; blank; entries as usize]?)
}

// The account of the script, or why it was not run.
fn account_of(heap: Global, script: &Script) -> anyhow::Result<String> {
    let mut rows = blank_rows(heap, script.entries)?;
    let mut storage = Storage::new(rows.as_mut_slice());
    let mut desk = Desk::new(heap, script.calls.len())?;
    match replay(
        &mut storage,
        script.first,
        script.calls.as_slice(),
        &mut desk,
    ) {
        Ok(()) => Ok(account(heap, script.calls.as_slice(), desk.answers())?),
        Err(stop) => Ok(stop.to_string(heap)?),
    }
}

fn run(rt: &HostRuntime) -> anyhow::Result<()> {
    let heap = rt.alloc();
    let name = env::args(rt)?.nth(1);
    let text = fs::read_to_string(rt, name.as_deref().unwrap_or("script.txt"))?;
    let script = script_of(heap, text.as_str())?;
    let account = account_of(heap, &script)?;
    println!(rt; "{account}")?;
    Ok(())
}

fn main(rt: HostRuntime) -> anyhow::Result<()> {
    run(&rt)
}
