// A bounded list over a lent slice: as long as it may grow, the slice has place for it.
ghost use Rattle.std.specs.Prelude.{◌≡◌, ◌+◌, ◌<◌, ◌≤◌, min, length, MatchOption, MatchResult, slice_index_or, slice_set};

// The first `len` elements of the slice are the list; those behind them are left as they are.
#[derive(Drop)]
pub struct BoundedList<'a, T> {
    pub items: &'a mut [T],
    pub len: usize,
}

impl<'a, T: Copy> BoundedList<'a, T> {
    // The empty list over a slice.
    pub fn new(items: &'a mut [T]) -> BoundedList<'a, T>
        ensures empty { result.len ≡ 0 }
        ensures same { result.items.now ≡ items.old }
        ensures lent { result.items.ghost_name ≡ items.entry.ghost_name }
    {
        BoundedList { items, len: 0 }
    }

    // How many elements the slice has place for.
    pub fn capacity(&self) -> usize
        ensures { result ≡ length self.now.items.now }
    {
        self.items.len()
    }

    pub fn clear(&mut self)
        ensures empty { self.new.len ≡ 0 }
        ensures same { self.new.items.now ≡ self.old.items.now }
        ensures lent { self.new.items.ghost_name ≡ self.old.items.ghost_name }
    {
        self.len = 0;
    }

    pub fn get(&self, place: usize) -> Option<T>
        ensures { MatchOption result (min self.now.len (length self.now.items.now) ≤ place) (λ x. (place < self.now.len) × (place < length self.now.items.now) × (x ≡ slice_index_or self.now.items.now place x)) }
    {
        if place < self.len {
            self.items.get(place).copied()
        } else {
            None
        }
    }

    // One more element at the end; where there is no place for it, it is handed back and nothing changes.
    pub fn push(&mut self, element: T) -> Result<(), T>
        ensures pushed { MatchResult result
            (λ _. (self.old.len < length self.old.items.now) × (self.new.len ≡ self.old.len + 1) × (self.new.items.now ≡ slice_set self.old.items.now self.old.len element))
            (λ back. (length self.old.items.now ≤ self.old.len) × (back ≡ element) × (self.new ≡ self.old)) }
        ensures lent { self.new.items.ghost_name ≡ self.old.items.ghost_name }
    {
        if self.len >= self.capacity() {
            return Err(element);
        }
        self.items[self.len] = element;
        self.len += 1;
        Ok(())
    }
}
