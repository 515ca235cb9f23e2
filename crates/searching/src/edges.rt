// The edges between the writes of one bay, as masks.
ghost use Rattle.std.specs.Prelude.{◌≤◌, length};

// The edges at one write: the writes with a write edge into it, and those that it has a read edge to.
#[derive(Clone, Copy)]
pub struct EdgeMasks {
    pub before: u64,
    pub behind: u64,
}

// The edges at each write.
#[derive(Clone, Copy)]
pub struct Edges<'a> {
    pub masks: &'a [EdgeMasks],
    ghost few: { length masks.now ≤ 64 },
}
