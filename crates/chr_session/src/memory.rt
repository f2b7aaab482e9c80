//! Sources and sinks in memory, whose bytes go in pieces of a given size.
ghost use Rattle.std.specs.Prelude.{◌≡◌, [], length, vec_len};

use crate::devices::{Failed, Sink, Source};
use std::alloc::Allocator;

/// Bytes in memory that are read in pieces.
#[derive(Drop)]
pub struct MemorySource<'a> {
    /// What is still to come.
    pub rest: &'a [u8],
    /// A call gives at most so many bytes. 0 counts as 1.
    pub piece: usize,
}

impl<'a> MemorySource<'a> {
    /// A source of these bytes, which gives at most `piece` of them in one call. A piece of 0 counts as 1.
    pub fn new(bytes: &'a [u8], piece: usize) -> MemorySource<'a>
        ensures bytes { result.rest.now ≡ bytes.now }
        ensures piece { result.piece ≡ piece }
    {
        MemorySource { rest: bytes, piece }
    }
}

impl Source for MemorySource<'_> {
    ghost left = { λ m bytes. m.rest.now ≡ bytes };

    ghost budget = { λ m. length m.rest.now };

    ghost failures = { λ m. 0 };

    fn read(&mut self, into: &mut [u8]) -> Result<usize, Failed> {
        let n = self.piece.max(1).min(self.rest.len()).min(into.len());
        let (front, back) = self.rest.split_at(n);
        into[..n].copy_from_slice(front);
        self.rest = back;
        Ok(n)
    }
}

/// Bytes in memory that are written in pieces. A call for which there is no memory fails.
#[derive(Drop)]
pub struct MemorySink<A: Allocator> {
    /// What was taken.
    pub bytes: Vec<u8, A>,
    /// A call takes at most so many bytes. 0 counts as 1.
    pub piece: usize,
    /// How many calls failed.
    pub failures: u64,
}

impl<A: Allocator> MemorySink<A> {
    /// An empty sink, which takes at most `piece` bytes in one call. A piece of 0 counts as 1.
    pub fn new(alloc: A, piece: usize) -> MemorySink<A>
        ensures bytes { result.bytes.items ≡ [] }
        ensures piece { result.piece ≡ piece }
        ensures failures { result.failures ≡ 0 }
    {
        MemorySink {
            bytes: Vec::new(alloc),
            piece,
            failures: 0,
        }
    }
}

impl<A: Allocator> Sink for MemorySink<A> {
    ghost taken = { λ m all. m.bytes.items ≡ all };

    ghost failures = { λ m. m.failures };

    fn write(&mut self, bytes: &[u8]) -> Result<usize, Failed> {
        let n = self.piece.max(1).min(bytes.len());
        if self.bytes.extend_from_slice(&bytes[..n]).is_err() {
            self.failures = self.failures.saturating_add(1);
            return Err(Failed);
        }
        Ok(n)
    }
}
