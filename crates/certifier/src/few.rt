// A short list in a fixed array: the items are the array's first `len`.
// Kept: a public type promises at least what it did: `Track` and `DayEntry`, which hold such lists, are Copy, and arrayvec's `ArrayVec` is not.
ghost use Rattle.std.specs.Prelude.{◌≡◌, ◌≤◌, ⊤};

use std::alloc::AllocError;

mod items;

pub(crate) struct Few<T, const N: usize> {
    items: [T; N],
    len: usize,
    ghost ok: { len ≤ N },
}

// Kept: `Clone` is not derived for a generic struct with ghost fields.
impl<T: Copy, const N: usize> Clone for Few<T, N> {
    ghost is_clone = { λ a b. b ≡ a };

    ghost is_infallible = { λ _. ⊤ };

    fn clone(&self) -> Result<Few<T, N>, AllocError> {
        Ok(*self)
    }
}

impl<T: Copy, const N: usize> Copy for Few<T, N> {}
