//! Commands, read one at a time.
ghost use Rattle.std.specs.Prelude.{◌≡◌, ◌+◌, ◌<◌, ◌≤◌, ℕ, List, length, true, if◌then◌else◌, IfOk, OnOk, vec_capacity};
ghost use Rattle.chr_session.specs.Devices.{HasCause, Comes};
ghost use Rattle.chr_session.specs.Spelling.{SpellsFirst, load_spells, parsed_spells, next, received_of, goes_on};

use crate::buffer::Buffer;
use crate::desk::Fault;
use crate::devices::{Failed, Source};
use crate::lines::{LineEnd, read_counted, read_line, skip_counted};
use crate::parsing::{ParsedLine, parse_line, split_word, trimmed, without_cr};
use crate::room::append;
use chr_lex::fault::{Kind, ReadFault};
use std::alloc::Allocator;

/// How a session ends.
#[derive(Clone, Copy, Debug, PartialEq, Eq)]
pub enum Ended {
    /// With `quit`.
    Quit,
    /// The input ends between commands.
    End,
    /// The input ends inside a command.
    Cut,
}

/// What was read: a line of blanks, a command, a faulty command, or the end. The text of a load or a post is kept beside it.
#[derive(Clone, Copy, Debug, PartialEq, Eq)]
pub enum Received {
    /// A line of blanks.
    Blank,
    /// `load`, whose bytes were read.
    Load,
    /// `post`, with its text.
    Post,
    /// `wait`, with its number.
    Wait(u32),
    /// `store`.
    Store,
    /// `log`, with its number.
    Log(u32),
    /// A command that the session itself refuses: E09, E21 or E22.
    Fault(Fault),
    /// `quit`, or the end of the input.
    Ended(Ended),
}

/// What is received where a load's bytes were found, and else the end of the input inside the command.
fn or_cut(found: bool, received: Received) -> Received
    ensures { result ≡ (if found then received else Received.Ended Ended.Cut) }
{
    if found {
        received
    } else {
        Received::Ended(Ended::Cut)
    }
}

/// Reads the counted bytes of a load, and passes over them where they are more than 65,536 (E09).
fn read_load<S: Source, A: Allocator>(
    count: u32,
    text: &mut Vec<u8, A>,
    buffer: &mut Buffer,
    source: &mut S,
) -> Result<Received, Failed>
    requires { 65536 ≤ vec_capacity text.old }
    ensures received { IfOk result (λ received. (input : List ℕ) → Comes buffer.old (S.left source.old) input →
        SpellsFirst (load_spells count) (received_of received text.new.items) (Comes buffer.new (S.left source.new)) input) }
    ensures budget { OnOk result (S.budget source.new + length buffer.new ≤ S.budget source.old + length buffer.old) }
    ensures room { 65536 ≤ vec_capacity text.new }
    ensures cause { HasCause (S.failures source.old) (S.failures source.new) result }
{
    if count > 65536 {
        let found = skip_counted(count, buffer, source)?;
        let too_long = Fault::Reading(ReadFault {
            kind: Kind::TooLong,
            line: 0,
        });
        return Ok(or_cut(found, Received::Fault(too_long)));
    }
    let found = read_counted(count, text, buffer, source)?;
    Ok(or_cut(found, Received::Load))
}

/// What is received by a line, and by the bytes after it where it is a load. `rest` is the text after the line's word.
#[tactic(auto, using(crate::proofs::FirstSpelled::spells_parsed, crate::proofs::FirstSpelled::spells_quit))]
fn receive<S: Source, A: Allocator>(
    parsed: ParsedLine,
    rest: &[u8],
    text: &mut Vec<u8, A>,
    buffer: &mut Buffer,
    source: &mut S,
) -> Result<Received, Failed>
    requires short { length rest.now ≤ 65536 }
    requires room { 65536 ≤ vec_capacity text.old }
    ensures received { IfOk result (λ received. (input : List ℕ) → Comes buffer.old (S.left source.old) input →
        SpellsFirst (parsed_spells parsed rest.now) (received_of received text.new.items) (Comes buffer.new (S.left source.new)) input) }
    ensures budget { OnOk result (S.budget source.new + length buffer.new ≤ S.budget source.old + length buffer.old) }
    ensures room { 65536 ≤ vec_capacity text.new }
    ensures cause { HasCause (S.failures source.old) (S.failures source.new) result }
{
    match parsed {
        ParsedLine::Blank => Ok(Received::Blank),
        ParsedLine::Load(count) => read_load(count, text, buffer, source),
        ParsedLine::Post => {
            text.clear();
            append(text, rest);
            Ok(Received::Post)
        }
        ParsedLine::Wait(steps) => Ok(Received::Wait(steps)),
        ParsedLine::Store => Ok(Received::Store),
        ParsedLine::Log(from) => Ok(Received::Log(from)),
        ParsedLine::Quit => Ok(Received::Ended(Ended::Quit)),
        ParsedLine::Unknown => Ok(Received::Fault(Fault::UnknownCommand)),
    }
}

/// The next command, in whatever pieces it comes; `text` has the text of a load or a post. An `Err` is E25: the source failed.
pub fn read_command<S: Source, A: Allocator>(
    line: &mut Vec<u8, A>,
    text: &mut Vec<u8, A>,
    buffer: &mut Buffer,
    source: &mut S,
) -> Result<Received, Failed>
    requires line_room { 65536 ≤ vec_capacity line.old }
    requires text_room { 65536 ≤ vec_capacity text.old }
    ensures received { IfOk result (λ received. (input : List ℕ) → Comes buffer.old (S.left source.old) input →
        SpellsFirst next (received_of received text.new.items) (Comes buffer.new (S.left source.new)) input) }
    ensures budget { IfOk result (λ received. goes_on (received_of received text.new.items) ≡ true →
        S.budget source.new + length buffer.new < S.budget source.old + length buffer.old) }
    ensures line_room { 65536 ≤ vec_capacity line.new }
    ensures text_room { 65536 ≤ vec_capacity text.new }
    ensures cause { HasCause (S.failures source.old) (S.failures source.new) result }
{
    match read_line(line, buffer, source)? {
        LineEnd::Whole => {}
        LineEnd::TooLong => return Ok(Received::Fault(Fault::LineTooLong)),
        LineEnd::Cut => return Ok(Received::Ended(Ended::Cut)),
        LineEnd::End => return Ok(Received::Ended(Ended::End)),
    }
    if without_cr(line).len() > 4096 {
        return Ok(Received::Fault(Fault::LineTooLong));
    }
    let (word, rest) = split_word(trimmed(line));
    receive(parse_line(word, rest), rest, text, buffer, source)
}
