// What a survey finds of one bay.

// A bay with operations: its number, its age, and how many writes it has, which is how many places its value order has.
#[derive(Clone, Copy, PartialEq)]
pub struct Finding {
    pub bay: u8,
    pub age: usize,
    pub writes: usize,
}
