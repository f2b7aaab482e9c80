//! Arguments of functors.
ghost use Rattle.std.specs.Prelude.{◌≡◌, ◌≤◌, ℕ, length, vec_len};
ghost use Rattle.chr_value.specs.Bounds.{most_arguments};

use crate::atom::MOST_ARGS;
use std::alloc::Allocator;
use std::ops::DerefSlice;

/// One to [`MOST_ARGS`] values or terms, one after another. They are read as a slice.
#[derive(Drop)]
pub struct Arguments<T, A: Allocator> {
    list: Vec<T, A>,
    pub ghost few: { (1 ≤ length list.items) × (length list.items ≤ most_arguments) },
}

impl<T, A: Allocator> Arguments<T, A> {
    /// Takes a list of 1 to [`MOST_ARGS`] elements.
    pub fn new(list: Vec<T, A>) -> Arguments<T, A>
        requires some { 1 ≤ vec_len list }
        requires few { vec_len list ≤ most_arguments }
        ensures { result.list ≡ list }
    {
        Arguments { list }
    }

    /// Returns how many there are, from 1 to [`MOST_ARGS`].
    pub fn len(&self) -> usize
        ensures { result ≡ length self.now.list.items }
    {
        self.list.len()
    }
}

impl<T, A: Allocator> DerefSlice for Arguments<T, A> {
    type Elem = T;

    ghost deref_gives = { λ v xs. xs ≡ v.list.items };

    #[inline(always)]
    fn deref(&self) -> &[T] {
        self.list.as_slice()
    }
}
