// Why a script was not run.
use lives::refusal::LogRefusal;

#[derive(Clone, Copy)]
pub enum Stop {
    // The script has more calls than the desk has places.
    TooLong { places: usize },
    // The log could not be opened.
    Refused(LogRefusal),
}
