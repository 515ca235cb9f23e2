// Memory that is taken before the calls that need it.
ghost use Rattle.std.specs.Prelude.{◌≤◌, vec_len, vec_capacity};

// How many operations a table, a log or a surveyed source may have, and how many entries a list of bays.
pub const MOST_OPERATIONS: usize = 512;

// A list with room for 512 elements, which is as many as a table, a list of bays or a source that is judged or surveyed may have.
// What is handed one can do its work without wanting memory.
#[derive(Drop)]
pub struct Room<T> {
    pub(crate) items: Vec<T>,
    ghost wide: { 512 ≤ vec_capacity items },
    ghost few: { vec_len items ≤ 512 },
}
