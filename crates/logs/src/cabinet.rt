// What a cabinet is doing.

// A cabinet is idle, or it reads or writes a bay since the tick at which that was begun.
#[derive(Clone, Copy)]
pub enum Cabinet {
    Idle,
    Reading { bay: u8, begun: u32 },
    Writing { bay: u8, begun: u32 },
}
