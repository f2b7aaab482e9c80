//! Lines.
use std::alloc::Allocator;

/// Lines of a store or of a log: how many, and their bytes.
#[derive(Drop)]
pub struct Lines<A: Allocator> {
    pub count: usize,
    pub bytes: Vec<u8, A>,
}

/// What lines are made of.
#[derive(Drop)]
pub enum Read<C, A: Allocator> {
    /// The lines themselves.
    Lines(Lines<A>),
    /// A copy of the names, and of what is asked for.
    Copy(C),
}
