// What a refused call hands back.
use lives::refusal::LogRefusal;

// Why a call was refused, and what it was handed. It may be let go where that may be, so never with a ticket in it.
#[derive(Drop)]
pub struct HandedBack<T> {
    pub refusal: LogRefusal,
    pub value: T,
}
