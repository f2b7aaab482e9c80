//! Sources and sinks that fail after so many calls.
ghost use Rattle.std.specs.Prelude.{◌≡◌, ◌+◌, ◌-◌, ◌<◌, ◌≤◌, ◌++◌, ℕ, List, length, take, IfOk, OnErr, IsOk, IsErr};
ghost use Rattle.chr_session.specs.Devices.{HasCause, Gives};

use crate::devices::{Failed, Sink, Source};

/// A source or a sink of which only the first calls are made; each later one fails.
#[derive(Drop)]
pub struct Failing<T> {
    /// The source that is read, or the sink that is written to.
    pub inner: T,
    /// How many more calls are made.
    pub calls: u64,
    /// How many calls failed that were not made.
    pub failures: u64,
}

impl<T> Failing<T> {
    /// A source that reads from `inner`, or a sink that writes to it, at most `calls` times.
    pub fn new(inner: T, calls: u64) -> Failing<T>
        ensures inner { result.inner ≡ inner }
        ensures calls { result.calls ≡ calls }
        ensures failures { result.failures ≡ 0 }
    {
        Failing {
            inner,
            calls,
            failures: 0,
        }
    }

    /// Counts a call, or a failure where none is left.
    fn begin(&mut self) -> Result<(), Failed>
        ensures inner { self.new.inner ≡ self.old.inner }
        ensures spent { self.old.calls ≡ 0 → IsErr result }
        ensures made { 0 < self.old.calls → IsOk result × (self.new.calls ≡ self.old.calls - 1) × (self.new.failures ≡ self.old.failures) }
        ensures cause { HasCause self.old.failures self.new.failures result }
    {
        if self.calls == 0 {
            self.failures = self.failures.saturating_add(1);
            return Err(Failed);
        }
        self.calls -= 1;
        Ok(())
    }
}

impl<S: Source> Source for Failing<S> {
    ghost left = { λ s bytes. S.left s.inner bytes };

    ghost budget = { λ s. S.budget s.inner };

    ghost failures = { λ s. s.failures + S.failures s.inner };

    fn read(&mut self, into: &mut [u8]) -> Result<usize, Failed>
        requires { 0 < length into.old }
        ensures within { IfOk result (λ n. n ≤ length into.old) }
        ensures bytes { IfOk result (λ n. (bytes : List ℕ) → S.left self.old.inner bytes → Gives bytes n into.new (S.left self.new.inner)) }
        ensures budget { IfOk result (λ n. S.budget self.new.inner + n ≤ S.budget self.old.inner) }
        ensures cause { HasCause (self.old.failures + S.failures self.old.inner) (self.new.failures + S.failures self.new.inner) result }
        ensures spent { self.old.calls ≡ 0 → IsErr result }
        ensures made { 0 < self.old.calls → (self.new.calls ≡ self.old.calls - 1) × (self.new.failures ≡ self.old.failures) }
    {
        self.begin()?;
        self.inner.read(into)
    }
}

impl<W: Sink> Sink for Failing<W> {
    ghost taken = { λ s all. W.taken s.inner all };

    ghost failures = { λ s. s.failures + W.failures s.inner };

    fn write(&mut self, bytes: &[u8]) -> Result<usize, Failed>
        requires { 0 < length bytes.now }
        ensures some { IfOk result (λ n. (0 < n) × (n ≤ length bytes.now)) }
        ensures bytes { IfOk result (λ n. (all : List ℕ) → W.taken self.old.inner all → W.taken self.new.inner (all ++ take n bytes.now)) }
        ensures none { OnErr result ((all : List ℕ) → W.taken self.old.inner all → W.taken self.new.inner all) }
        ensures cause { HasCause (self.old.failures + W.failures self.old.inner) (self.new.failures + W.failures self.new.inner) result }
        ensures spent { self.old.calls ≡ 0 → IsErr result }
        ensures made { 0 < self.old.calls → (self.new.calls ≡ self.old.calls - 1) × (self.new.failures ≡ self.old.failures) }
    {
        self.begin()?;
        self.inner.write(bytes)
    }
}
