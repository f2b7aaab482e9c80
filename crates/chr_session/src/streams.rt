//! Sources and sinks over std's readers and writers. Each passes at most 2^63 - 1 bytes, and fails past that.
ghost use Rattle.std.specs.Prelude.{◌≡◌, ◌↔◌, ◌+◌, ◌-◌, ◌<◌, ◌≤◌, ◌++◌, ℕ, List, None, Some, Ok, length, take, IfErr, IfOk, OnErr, IsErr, MatchOption, MatchResult};
ghost use Rattle.chr_session.specs.Devices.{HasCause, Gives};
ghost use Rattle.std.specs.Io.{ReadsAtMost, WritesAtMost};
ghost use Rattle.std.specs.Io.KnownBytes.{ReadConsumes, WriteAppends};
ghost use Rattle.std.specs.IoError.{error_kind};
ghost use Rattle.std.specs.declared.io.ErrorKind.TheVariants.{Interrupted};

use crate::devices::{Failed, Sink, Source};
use std::io::{self, ErrorKind, Read, Write};

/// So many bytes pass at most.
const LIMIT: u64 = 9_223_372_036_854_775_807;

/// How often a call that signals interrupt is made at most.
const MOST_CALLS: u64 = u64::MAX;

/// A reader or a writer of bytes. A call that a signal interrupts is made again.
#[derive(Drop)]
pub struct Stream<T> {
    /// The reader or the writer.
    pub inner: T,
    /// How many bytes it gave or took.
    pub passed: u64,
    /// How many calls failed.
    pub failures: u64,
}

impl<T> Stream<T> {
    /// A source of what this reader gives, or a sink of what this writer takes.
    pub fn new(inner: T) -> Stream<T>
        ensures inner { result.inner ≡ inner }
        ensures passed { result.passed ≡ 0 }
        ensures failures { result.failures ≡ 0 }
    {
        Stream {
            inner,
            passed: 0,
            failures: 0,
        }
    }
}

/// What a call came to, or none where a signal interrupted it.
fn ended(call: io::Result<usize>) -> Option<Result<usize, Failed>>
    ensures ended { MatchOption result (IsErr call) (λ ended. MatchResult ended (λ n. call ≡ Ok n) (λ _. IsErr call)) }
    ensures again { IfErr call (λ error. (result ≡ None) ↔ (error_kind error ≡ Interrupted)) }
{
    match call {
        Ok(n) => Some(Ok(n)),
        Err(error) => {
            if error.kind() == ErrorKind::Interrupted {
                return None;
            }
            Some(Err(Failed))
        }
    }
}

/// Reads, and reads again where a signal interrupts the call.
fn read_some<R: Read>(inner: &mut R, into: &mut [u8]) -> Result<usize, Failed>
    ensures bound { ReadsAtMost result into.new }
    ensures bytes { ReadConsumes (R.remaining inner.old) (R.remaining inner.new) result into.new }
{
    for _turn in 0..MOST_CALLS {
        if let Some(read) = ended(inner.read(into)) {
            return read;
        }
    }
    Err(Failed)
}

impl<R: Read> Source for Stream<R> {
    ghost left = { λ s bytes. R.remaining s.inner ≡ Some bytes };

    ghost budget = { λ s. 9223372036854775807 - s.passed };

    ghost failures = { λ s. s.failures };

    fn read(&mut self, into: &mut [u8]) -> Result<usize, Failed>
        requires { 0 < length into.old }
        ensures within { IfOk result (λ n. n ≤ length into.old) }
        ensures bytes { IfOk result (λ n. (bytes : List ℕ) → R.remaining self.old.inner ≡ Some bytes → Gives bytes n into.new (λ rest. R.remaining self.new.inner ≡ Some rest)) }
        ensures budget { IfOk result (λ n. (9223372036854775807 - self.new.passed) + n ≤ 9223372036854775807 - self.old.passed) }
        ensures cause { HasCause self.old.failures self.new.failures result }
        ensures passed { IfOk result (λ n. (self.new.passed ≡ self.old.passed + n) × (self.new.passed ≤ 9223372036854775807)) }
    {
        let room = LIMIT.saturating_sub(self.passed);
        if room >= into.len() as u64 {
            if let Ok(n) = read_some(&mut self.inner, into) {
                self.passed += n as u64;
                return Ok(n);
            }
        }
        self.failures = self.failures.saturating_add(1);
        Err(Failed)
    }
}

/// Writes, and writes again where a signal interrupts the call.
fn write_some<W: Write>(inner: &mut W, bytes: &[u8]) -> Result<usize, Failed>
    ensures bound { WritesAtMost result bytes.now }
    ensures bytes { WriteAppends (W.contents inner.old) (W.contents inner.new) result bytes.now }
{
    for _turn in 0..MOST_CALLS {
        if let Some(written) = ended(inner.write(bytes)) {
            return written;
        }
    }
    Err(Failed)
}

impl<W: Write> Sink for Stream<W> {
    ghost taken = { λ s all. W.contents s.inner ≡ Some all };

    ghost failures = { λ s. s.failures };

    fn write(&mut self, bytes: &[u8]) -> Result<usize, Failed>
        requires { 0 < length bytes.now }
        ensures some { IfOk result (λ n. (0 < n) × (n ≤ length bytes.now)) }
        ensures bytes { IfOk result (λ n. (all : List ℕ) → W.contents self.old.inner ≡ Some all → W.contents self.new.inner ≡ Some (all ++ take n bytes.now)) }
        ensures none { OnErr result ((all : List ℕ) → W.contents self.old.inner ≡ Some all → W.contents self.new.inner ≡ Some all) }
        ensures cause { HasCause self.old.failures self.new.failures result }
        ensures passed { IfOk result (λ n. (self.new.passed ≡ self.old.passed + n) × (self.new.passed ≤ 9223372036854775807)) }
    {
        let room = LIMIT.saturating_sub(self.passed);
        if room >= bytes.len() as u64 {
            if let Ok(n) = write_some(&mut self.inner, bytes) {
                if n > 0 {
                    self.passed += n as u64;
                    return Ok(n);
                }
            }
        }
        self.failures = self.failures.saturating_add(1);
        Err(Failed)
    }
}
