// Lists of a few elements, held by value.
ghost use Rattle.std.specs.Prelude.{◌≡◌, ℕ, ◌≤◌, length};

use std::alloc::AllocError;

// The first `count` of the items; those behind them are not part of the list.
// An array with a count: the core runs in fixed memory, without `Vec`, and the library's `ArrayVec` is no `Copy`.
pub struct BoundedList<T, const N: usize> {
    items: [T; N],
    count: usize,
    ghost sized: { length items ≡ N },
    ghost within: { count ≤ N },
}

// By hand: a derived `Clone` of a struct with a ghost field and a type parameter is refused. A copy is the same list.
impl<T: Copy, const N: usize> Clone for BoundedList<T, N> {
    ghost is_clone = { λ x y. y ≡ x };

    ghost is_infallible = { λ _. Unit {0} };

    fn clone(&self) -> Result<Self, AllocError> {
        Ok(*self)
    }
}

impl<T: Copy, const N: usize> Copy for BoundedList<T, N> {}

pub mod methods;
