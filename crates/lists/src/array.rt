// A bounded list in places of its own.
ghost use Rattle.std.specs.Prelude.{◌≡◌, ◌≤◌, length, ⊤};
ghost use Rattle.std.specs.Option.{ForSome, ForNone};

use std::alloc::AllocError;

// The first `len` elements of the places are the list. Before the first push there is no element to fill the places with.
pub struct ArrayList<T, const PLACES: usize> {
    pub(crate) items: Option<[T; PLACES]>,
    pub(crate) len: usize,
    ghost few: { len ≤ PLACES },
    ghost filled: { ForSome items (λ places. length places ≡ PLACES) },
    ghost unfilled: { ForNone items (len ≡ 0) },
}

impl<T: Copy, const PLACES: usize> Clone for ArrayList<T, PLACES> {
    ghost is_clone = { λ x y. y ≡ x };

    ghost is_infallible = { λ _. ⊤ };

    fn clone(&self) -> Result<ArrayList<T, PLACES>, AllocError> {
        Ok(*self)
    }
}

impl<T: Copy, const PLACES: usize> Copy for ArrayList<T, PLACES> {}
