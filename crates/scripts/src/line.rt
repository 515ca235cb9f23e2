// The lines of a script.
use replaying::call::Call;
use values::serial::Serial;

// What a line says.
#[derive(Drop)]
pub enum Line {
    // The tick to open the log at.
    Open { first: u32 },
    // How many entries the storage is to have.
    Storage { entries: u32 },
    Call(Call<Serial>),
}
