// One step of a pass over a source.
use crate::operation::Operation;

// An operation, and the position at which the pass goes on.
#[derive_where(Clone, Copy; V: Copy)]
pub struct Step<V> {
    pub operation: Operation<V>,
    pub next: usize,
}
