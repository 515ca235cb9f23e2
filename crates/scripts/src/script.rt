// A script as its text has it.
use replaying::call::Call;
use values::serial::Serial;

#[derive(Drop)]
pub struct Script {
    // The tick to open the log at.
    pub first: u32,
    // How many entries its storage has.
    pub entries: u32,
    pub calls: Vec<Call<Serial>>,
}
