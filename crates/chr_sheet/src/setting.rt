//! What a search looks through.
use chr_plan::Plans;
use chr_rule::Program;
use chr_store::Store;
use std::alloc::Allocator;

/// A program with its plans, and a store.
#[derive(Drop)]
pub(crate) struct Setting<'s, A: Allocator> {
    pub(crate) program: &'s Program<A>,
    pub(crate) plans: &'s Plans<A>,
    pub(crate) store: &'s Store<A>,
}
