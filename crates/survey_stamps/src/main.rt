// Prints the survey of table.bin, with the bays of bays.bin left out, in the folder that it is run in. The table's values are stamps.
#![tactic(auto)]

use folders::saying::say;
use summaries::folder::told;
use values::stamp::Stamp;

fn main(rt: HostRuntime) -> anyhow::Result<()> {
    say(&rt, told::<Stamp>(&rt))
}
