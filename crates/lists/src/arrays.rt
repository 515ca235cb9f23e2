// What can be done with a list in places of its own.
ghost use Rattle.std.specs.Prelude.{◌≡◌, ◌<◌, ◌≤◌, ◌==◌, [], ◌∷◌, ◌++◌, length, MatchResult, slice_set};
ghost use Rattle.lists.specs.Lists.{listed};

use crate::array::ArrayList;

impl<T: Copy, const PLACES: usize> ArrayList<T, PLACES> {
    // An empty list. It wants no memory.
    pub fn new() -> ArrayList<T, PLACES>
        ensures { listed result ≡ [] }
    {
        ArrayList {
            items: None,
            len: 0,
        }
    }

    pub fn len(&self) -> usize
        ensures { result ≡ length (listed self.now) }
    {
        self.as_slice().len()
    }

    pub fn is_empty(&self) -> bool
        ensures { result ≡ (length (listed self.now) == 0) }
    {
        self.len == 0
    }

    pub fn as_slice(&self) -> &[T]
        ensures value { result.now ≡ listed self.now }
        ensures fits { length result.now ≤ PLACES }
    {
        match &self.items {
            Some(places) => &places[..self.len],
            None => &[],
        }
    }

    // Empties the list. Its places stay filled, so the next push fills none but its own.
    pub fn clear(&mut self)
        ensures { listed self.new ≡ [] }
    {
        self.len = 0;
    }

    // The first element fills all places. It stands apart because a function pays for its places of memory on every call.
    fn push_first(&mut self, element: T)
        requires { (0 < PLACES) × (listed self.old ≡ []) }
        ensures { listed self.new ≡ element ∷ [] }
    {
        self.items = Some([element; PLACES]);
        self.len = 1;
    }

    // One more element at the end; where there is no place for it, it is handed back and nothing changes.
    pub fn push(&mut self, element: T) -> Result<(), T>
        ensures { MatchResult result
            (λ _. (length (listed self.old) < PLACES) × (listed self.new ≡ listed self.old ++ element ∷ []))
            (λ back. (PLACES ≤ length (listed self.old)) × (back ≡ element) × (listed self.new ≡ listed self.old)) }
    {
        if self.len >= PLACES {
            return Err(element);
        }
        match &mut self.items {
            Some(places) => {
                places[self.len] = element;
                self.len += 1;
            }
            None => self.push_first(element),
        }
        Ok(())
    }

    // Another element at a place that has one; where it has none, the element is handed back and nothing changes.
    pub fn set(&mut self, place: usize, element: T) -> Result<(), T>
        ensures { MatchResult result
            (λ _. (place < length (listed self.old)) × (listed self.new ≡ slice_set (listed self.old) place element))
            (λ back. (length (listed self.old) ≤ place) × (back ≡ element) × (listed self.new ≡ listed self.old)) }
    {
        match &mut self.items {
            Some(places) if place < self.len => {
                places[place] = element;
                Ok(())
            }
            _ => Err(element),
        }
    }
}
