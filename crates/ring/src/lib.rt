// A queue of at most N values, oldest first, in a fixed array, since the bench uses no heap.
#![tactic(auto)]

ghost use Rattle.std.specs.Prelude.{◌≡◌, ◌≤◌, length, ⊤};

use std::alloc::AllocError;

pub mod each;
pub mod queue;
pub mod size;

// The values stand at `len` places from `head` on; the first place follows the last.
// It has no model: a `Copy` struct's view must give its fields back, and the values do not tell where they begin.
#[derive(Copy)]
pub struct Ring<T, const N: usize> {
    places: [T; N],
    head: usize,
    len: usize,
    ghost long: { length places ≡ N },
    ghost head_in: { head ≤ N },
    ghost len_in: { len ≤ N },
}

// By hand, since a derive refuses a struct with ghost fields over a type parameter.
impl<T: Copy, const N: usize> Clone for Ring<T, N> {
    ghost is_clone = { λ ring copy. copy ≡ ring };

    ghost is_infallible = { λ _. ⊤ };

    fn clone(&self) -> Result<Self, AllocError> {
        Ok(*self)
    }
}
