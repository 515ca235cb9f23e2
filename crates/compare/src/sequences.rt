// All sequences of different places, in the order of run-ups.
ghost use Rattle.std.specs.Option.{ForSome};
ghost use Rattle.std.specs.Prelude.{◌≡◌, ◌+◌, ◌≤◌, ◌==◌};

use crate::acts::MOST;
use std::alloc::{AllocError, Global};

// How many places a sequence has, and the position of each place that stands in it.
#[derive(Clone, Copy)]
pub struct Sequence {
    pub length: usize,
    positions: [Option<usize>; MOST],
    ghost few: { length ≤ 6 },
}

impl Sequence {
    fn empty() -> Sequence {
        Sequence {
            length: 0,
            positions: [None; MOST],
        }
    }

    // Where a place stands, if it does.
    pub fn position(&self, place: usize) -> Option<usize> {
        *self.positions.get(place)?
    }

    // Whether all places stand in it.
    pub fn is_full(&self) -> bool
        ensures { result ≡ (self.now.length == 6) }
    {
        self.length == MOST
    }

    // The sequence that goes on with a place, where that does not stand in it.
    fn with(&self, place: usize) -> Option<Sequence>
        ensures { ForSome result (λ longer. longer.length ≡ self.now.length + 1) }
    {
        if self.is_full() || self.position(place).is_some() {
            return None;
        }
        let mut positions = self.positions;
        *positions.get_mut(place)? = Some(self.length);
        Some(Sequence {
            length: self.length + 1,
            positions,
        })
    }

    // Adds all that begin with this one to the sequences, by places at the first difference, each before those that it begins.
    fn add_longer(&self, sequences: &mut Vec<Sequence>) -> Result<(), AllocError> {
        for place in 0..MOST {
            if let Some(longer) = self.with(place) {
                sequences.push(longer)?;
                longer.add_longer(sequences)?;
            }
        }
        Ok(())
    }
}

// All sequences but the empty one.
pub fn all(heap: Global) -> Result<Vec<Sequence>, AllocError> {
    let mut sequences = Vec::new(heap);
    Sequence::empty().add_longer(&mut sequences)?;
    Ok(sequences)
}
