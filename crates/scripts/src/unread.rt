// Why a line was not read.
use std::alloc::{AllocError, AllocFailed};
use std::fmt;

#[derive(Clone, Copy, Debug)]
pub enum Unread {
    // It is no line of a script.
    NotUnderstood,
    // Only calls follow a call.
    Late,
    NoMemory,
}

impl From<AllocError> for Unread {
    fn from(_: AllocError) -> Unread {
        Unread::NoMemory
    }
}

impl<T: Drop> From<AllocFailed<T>> for Unread {
    fn from(_: AllocFailed<T>) -> Unread {
        Unread::NoMemory
    }
}

impl fmt::Display for Unread {
    fn fmt<W: fmt::Write>(&self, f: &mut fmt::Formatter<W>) -> fmt::Result {
        match self {
            Unread::NotUnderstood => f.write_str("not understood"),
            Unread::Late => f.write_str("comes after a call"),
            Unread::NoMemory => f.write_str("no memory"),
        }
    }
}
