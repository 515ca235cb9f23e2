// Operations as plain rows.

// Whether an operation reads or writes.
#[derive(Clone, Copy, PartialEq)]
pub enum Sort {
    Read,
    Write,
}

// An operation as plain data: what a cabinet, which is one client, did to a bay, which is one register, and when. Nothing holds
// its fields to the rules of an operation.
#[derive(Clone, Copy)]
pub struct Row<V> {
    pub sort: Sort,
    pub bay: u8,
    pub cabinet: u8,
    pub value: V,
    pub start: u32,
    pub finish: u32,
}
