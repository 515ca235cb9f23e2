// What can be done with a room.
ghost use Rattle.std.specs.Prelude.{◌≡◌, [], length, IfOk};
ghost use Rattle.operations.specs.Rooms.{held, Pushed, Replaced};

use crate::refusal::PastEnd;
use crate::room::{MOST_OPERATIONS, Room};
use std::alloc::{AllocError, Global};

// There was no room for one more.
#[derive(Clone, Copy)]
pub struct Full;

impl<T: Copy> Room<T> {
    // An empty room.
    pub fn new(heap: Global) -> Result<Room<T>, AllocError>
        ensures { IfOk result (λ room. held room ≡ []) }
    {
        let items = Vec::with_capacity(heap, MOST_OPERATIONS)?;
        Ok(Room { items })
    }

    pub fn len(&self) -> usize
        ensures { result ≡ length (held self.now) }
    {
        self.items.len()
    }

    pub fn as_slice(&self) -> &[T]
        ensures { result.now ≡ held self.now }
    {
        self.items.as_slice()
    }

    pub fn clear(&mut self)
        ensures { held self.new ≡ [] }
    {
        self.items.clear();
    }

    pub fn push(&mut self, element: T) -> Result<(), Full>
        ensures { Pushed (held self.old) element (held self.new) result }
    {
        if self.len() >= MOST_OPERATIONS {
            return Err(Full);
        }
        self.items.push_reserved(element);
        Ok(())
    }

    // Another element at a place that has one.
    pub fn set(&mut self, place: usize, element: T) -> Result<(), PastEnd>
        ensures { Replaced (held self.old) place element (held self.new) result }
    {
        if place >= self.items.len() {
            return Err(PastEnd { place });
        }
        self.items[place] = element;
        Ok(())
    }
}
