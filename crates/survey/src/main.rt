// Prints the survey of table.bin, with the bays of bays.bin left out, in the folder that it is run in. The table's values are serials.
#![tactic(auto)]

use folders::saying::say;
use summaries::folder::told;
use values::serial::Serial;

fn main(rt: HostRuntime) -> anyhow::Result<()> {
    say(&rt, told::<Serial>(&rt))
}
