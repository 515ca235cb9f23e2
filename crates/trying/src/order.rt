// What judging one bay finds.
use gathering::write::MOST_WRITES;
use lists::ArrayList;

// The age, the trials, and the value order by places.
#[derive(Clone, Copy)]
pub struct BayOrder {
    pub age: usize,
    pub trials: u32,
    pub places: ArrayList<usize, MOST_WRITES>,
}
