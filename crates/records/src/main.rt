// Prints the account of table.bin and bays.bin in the folder that it is run in. The table's values are serials.
#![tactic(auto)]

use folders::records::told;
use folders::saying::say;
use values::serial::Serial;

fn main(rt: HostRuntime) -> anyhow::Result<()> {
    say(&rt, told::<Serial>(&rt))
}
