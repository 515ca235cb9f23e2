// A log between two calls.
use logs::log::{Closed, Recording};

#[derive(Drop)]
pub(crate) enum Log {
    Recording(Recording),
    Closed(Closed),
}
