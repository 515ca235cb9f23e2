// The storage of a log.
ghost use Rattle.std.specs.Prelude.{◌≡◌, ◌+◌, ◌≤◌, length};
ghost use Rattle.logs.specs.Cabinets.{busy, AllHeld, ValidUpTo};

use crate::cabinet::Cabinet;
use lists::BoundedList;
use operations::row::Row;

// All that a call reads of a log: what each cabinet is doing, the next tick, and the operations that ended.
#[derive(Drop)]
pub struct Storage<'a, V> {
    pub(crate) cabinets: [Cabinet; 64],
    pub(crate) next: u32,
    // How many cabinets are not idle, so that a call need not count them.
    pub(crate) waiting: u32,
    pub(crate) ended: BoundedList<'a, Row<V>>,
    ghost wide: { length cabinets ≡ 64 },
    ghost held: { AllHeld next cabinets },
    ghost valid: { ValidUpTo ended.items.now ended.len },
    ghost counted: { waiting ≡ busy cabinets },
    ghost room: { ended.len + waiting ≤ length ended.items.now },
    ghost ticks: { next + waiting ≤ 1073741824 },
}
