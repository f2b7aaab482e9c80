//! Lines and counted bytes, in whatever pieces they come.
ghost use Rattle.std.specs.Prelude.{◌≡◌, ◌≢◌, ◌+◌, ◌<◌, ◌≤◌, ℕ, List, length, take, IfOk, OnOk, true, if◌then◌else◌, vec_capacity};
ghost use Rattle.chr_session.specs.Devices.{HasCause, Comes};
ghost use Rattle.chr_session.specs.Lines.{Skipped, LineIs, Counted};

use crate::buffer::Buffer;
use crate::devices::{Failed, Source};
use crate::room::push;
use std::alloc::Allocator;

/// How a line ends.
#[derive(Clone, Copy, Debug, PartialEq, Eq)]
pub enum LineEnd {
    /// With its LF.
    Whole,
    /// With its LF, after more bytes than a line may have.
    TooLong,
    /// The input ends inside it.
    Cut,
    /// The input ends before it begins.
    End,
}

/// Passes over the rest of a line. False where the input ends in it.
#[tactic(auto, using(crate::proofs::Passed::at_some))]
pub fn skip_line<S: Source>(buffer: &mut Buffer, source: &mut S) -> Result<bool, Failed>
    ensures line { IfOk result (λ found. (input : List ℕ) → Comes buffer.old (S.left source.old) input →
        Skipped found (Comes buffer.new (S.left source.new)) input) }
    ensures budget { OnOk result (S.budget source.new + length buffer.new ≤ S.budget source.old + length buffer.old) }
    ensures cause { HasCause (S.failures source.old) (S.failures source.new) result }
{
    while let Some(byte) = buffer.next(source)? {
        if byte == b'\n' {
            return Ok(true);
        }
    }
    Ok(false)
}

/// How a line ends that has more bytes than it may have: with its LF, if that was found.
fn long_end(found: bool) -> LineEnd
    ensures { result ≡ (if found then LineEnd.TooLong else LineEnd.Cut) }
{
    if found {
        LineEnd::TooLong
    } else {
        LineEnd::Cut
    }
}

/// How a line ends that has no LF.
fn open_end(is_empty: bool) -> LineEnd
    ensures { result ≡ (if is_empty then LineEnd.End else LineEnd.Cut) }
{
    if is_empty { LineEnd::End } else { LineEnd::Cut }
}

/// Reads a line up to its LF, and keeps it where it has at most 4,097 bytes, which leaves room for a CR.
#[tactic(auto, using(crate::proofs::Passed::at_some, crate::proofs::Passed::none_begun, crate::proofs::Passed::spent_if_open))]
pub fn read_line<S: Source, A: Allocator>(
    line: &mut Vec<u8, A>,
    buffer: &mut Buffer,
    source: &mut S,
) -> Result<LineEnd, Failed>
    requires { 65536 ≤ vec_capacity line.old }
    ensures line { IfOk result (λ end. (input : List ℕ) → Comes buffer.old (S.left source.old) input →
        LineIs end line.new.items (Comes buffer.new (S.left source.new)) input) }
    ensures budget { IfOk result (λ end. end ≢ LineEnd.End → S.budget source.new + length buffer.new < S.budget source.old + length buffer.old) }
    ensures room { 65536 ≤ vec_capacity line.new }
    ensures cause { HasCause (S.failures source.old) (S.failures source.new) result }
{
    line.clear();
    while let Some(byte) = buffer.next(source)? {
        if byte == b'\n' {
            return Ok(LineEnd::Whole);
        }
        if line.len() == 4097 {
            let found = skip_line(buffer, source)?;
            return Ok(long_end(found));
        }
        push(line, byte);
    }
    Ok(open_end(line.is_empty()))
}

/// Passes over so many bytes. False where the input ends before the last of them.
pub fn skip_counted<S: Source>(
    count: u32,
    buffer: &mut Buffer,
    source: &mut S,
) -> Result<bool, Failed>
    ensures bytes { IfOk result (λ found. (input : List ℕ) → Comes buffer.old (S.left source.old) input →
        Counted found count (Comes buffer.new (S.left source.new)) input) }
    ensures budget { OnOk result (S.budget source.new + length buffer.new ≤ S.budget source.old + length buffer.old) }
    ensures cause { HasCause (S.failures source.old) (S.failures source.new) result }
{
    for _taken in 0..count {
        match buffer.next(source)? {
            None => return Ok(false),
            Some(_) => {}
        }
    }
    Ok(true)
}

/// Reads so many bytes. False where the input ends before the last of them.
#[tactic(auto, using(crate::proofs::Passed::none_kept))]
pub fn read_counted<S: Source, A: Allocator>(
    count: u32,
    bytes: &mut Vec<u8, A>,
    buffer: &mut Buffer,
    source: &mut S,
) -> Result<bool, Failed>
    requires few { count ≤ 65536 }
    requires room { 65536 ≤ vec_capacity bytes.old }
    ensures bytes { IfOk result (λ found. (input : List ℕ) → Comes buffer.old (S.left source.old) input →
        Counted found count (Comes buffer.new (S.left source.new)) input × (found ≡ true → bytes.new.items ≡ take count input)) }
    ensures budget { OnOk result (S.budget source.new + length buffer.new ≤ S.budget source.old + length buffer.old) }
    ensures room { 65536 ≤ vec_capacity bytes.new }
    ensures cause { HasCause (S.failures source.old) (S.failures source.new) result }
{
    bytes.clear();
    for _taken in 0..count {
        match buffer.next(source)? {
            None => return Ok(false),
            Some(byte) => push(bytes, byte),
        }
    }
    Ok(true)
}
