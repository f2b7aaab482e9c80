//! A session, from its first command to its end.
ghost use Rattle.std.specs.Prelude.{◌≡◌, ◌+◌, ◌<◌, ◌≤◌, ◌^◌, ℕ, List, IfOk, OnErr, IsErrOf, vec_capacity};
ghost use Rattle.chr_session.specs.Commands.{answer_of};
ghost use Rattle.chr_session.specs.Devices.{HasCause};
ghost use Rattle.chr_session.specs.Spelling.{received_of};
ghost use Rattle.chr_session.specs.Sessions.{AnswerIs, Served, Broken, Unread};

use crate::buffer::Buffer;
use crate::commands::{Ended, Received, read_command};
use crate::desk::{Command, Desk, Fault, Reply};
use crate::devices::{Failed, Sink, Source};
use crate::writing::write_answer;
use std::alloc::{AllocError, Allocator};

/// Why a session could not be served to its end.
#[derive(Clone, Copy, Debug, PartialEq, Eq)]
pub enum ServeFault {
    /// E25: the reader or the writer failed.
    Device,
    /// E01: a growth was refused before the first command.
    NoMemory,
}

/// The reply to what was received: the desk's or the session's own, or none.
fn answer<A: Allocator, D: Desk<A>>(
    received: Received,
    text: &[u8],
    desk: &mut D,
) -> Option<Reply<A>>
    ensures { AnswerIs D.step desk.old (received_of received text.now) (answer_of result) desk.new }
{
    match received {
        Received::Blank => None,
        Received::Load => Some(desk.ask(Command::Load(text))),
        Received::Post => Some(desk.ask(Command::Post(text))),
        Received::Wait(steps) => Some(desk.ask(Command::Wait(steps))),
        Received::Store => Some(desk.ask(Command::Store)),
        Received::Log(from) => Some(desk.ask(Command::Log(from))),
        Received::Fault(fault) => Some(Reply::Fault(fault)),
        Received::Ended(Ended::Quit) => Some(Reply::Bye),
        Received::Ended(Ended::End) => None,
        Received::Ended(Ended::Cut) => Some(Reply::Fault(Fault::Cut)),
    }
}

/// Serves a whole session, whose lines and texts go into room that was made before.
fn run_session<S: Source, W: Sink, A: Allocator, D: Desk<A>>(
    line: &mut Vec<u8, A>,
    text: &mut Vec<u8, A>,
    reader: &mut S,
    writer: &mut W,
    desk: &mut D,
) -> Result<Ended, Failed>
    requires line_room { 65536 ≤ vec_capacity line.old }
    requires text_room { 65536 ≤ vec_capacity text.old }
    ensures served { IfOk result (λ how. (input : List ℕ) → S.left reader.old input →
        Served D.step desk.old desk.new (W.taken writer.old) (W.taken writer.new) how input) }
    ensures broken { OnErr result ((input : List ℕ) → S.left reader.old input →
        Broken D.step desk.old desk.new (W.taken writer.old) (W.taken writer.new) input) }
    ensures unread { OnErr result (W.failures writer.old < 2 ^ 63 → W.failures writer.new ≡ W.failures writer.old → (input : List ℕ) → S.left reader.old input →
        Unread D.step desk.old desk.new (W.taken writer.old) (W.taken writer.new) input) }
    ensures cause { HasCause (S.failures reader.old + W.failures writer.old) (S.failures reader.new + W.failures writer.new) result }
    ensures line_room { 65536 ≤ vec_capacity line.new }
    ensures text_room { 65536 ≤ vec_capacity text.new }
{
    let mut buffer = Buffer::new();
    'session: loop {
        let received = read_command(line, text, &mut buffer, reader)?;
        let reply = answer(received, text, desk);
        write_answer(reply, line, writer)?;
        if let Received::Ended(how) = received {
            return Ok(how);
        }
    }
}

/// The memory of a session: room for a line, and for the text of a load or a post. One session after another can have it.
#[derive(Drop)]
pub struct Rooms<A: Allocator> {
    line: Vec<u8, A>,
    text: Vec<u8, A>,
    ghost line_room: { 65536 ≤ vec_capacity line },
    ghost text_room: { 65536 ≤ vec_capacity text },
}

impl<A: Allocator + Copy> Rooms<A> {
    /// Takes the memory of a session. An `Err` is E01.
    pub fn new(alloc: A) -> Result<Rooms<A>, AllocError> {
        let line = Vec::with_capacity(alloc, 65536)?;
        let text = Vec::with_capacity(alloc, 65536)?;
        Ok(Rooms { line, text })
    }
}

/// Serves a session as [`serve`] does, in memory that was taken before. An `Err` is E25.
pub fn serve_in<S: Source, W: Sink, A: Allocator, D: Desk<A>>(
    rooms: &mut Rooms<A>,
    reader: &mut S,
    writer: &mut W,
    desk: &mut D,
) -> Result<Ended, Failed>
    ensures served { IfOk result (λ how. (input : List ℕ) → S.left reader.old input →
        Served D.step desk.old desk.new (W.taken writer.old) (W.taken writer.new) how input) }
    ensures broken { OnErr result ((input : List ℕ) → S.left reader.old input →
        Broken D.step desk.old desk.new (W.taken writer.old) (W.taken writer.new) input) }
    ensures unread { OnErr result (W.failures writer.old < 2 ^ 63 → W.failures writer.new ≡ W.failures writer.old → (input : List ℕ) → S.left reader.old input →
        Unread D.step desk.old desk.new (W.taken writer.old) (W.taken writer.new) input) }
    ensures cause { HasCause (S.failures reader.old + W.failures writer.old) (S.failures reader.new + W.failures writer.new) result }
{
    run_session(&mut rooms.line, &mut rooms.text, reader, writer, desk)
}

/// Serves a session: reads commands until `quit` or the end of the input, has each right one carried out by the desk, and
/// writes each reply before it reads the next command. E25 only where the reader or the writer failed in this call: then a
/// beginning of the replies is written, and all of those so far where the writer didn't fail. E01 only before the first
/// command, with nothing read, written or done.
pub fn serve<S: Source, W: Sink, A: Allocator + Copy, D: Desk<A>>(
    alloc: A,
    reader: &mut S,
    writer: &mut W,
    desk: &mut D,
) -> Result<Ended, ServeFault>
    ensures served { IfOk result (λ how. (input : List ℕ) → S.left reader.old input →
        Served D.step desk.old desk.new (W.taken writer.old) (W.taken writer.new) how input) }
    ensures broken { IsErrOf result ServeFault.Device → (input : List ℕ) → S.left reader.old input →
        Broken D.step desk.old desk.new (W.taken writer.old) (W.taken writer.new) input }
    ensures unread { IsErrOf result ServeFault.Device → W.failures writer.old < 2 ^ 63 → W.failures writer.new ≡ W.failures writer.old → (input : List ℕ) → S.left reader.old input →
        Unread D.step desk.old desk.new (W.taken writer.old) (W.taken writer.new) input }
    ensures device { IsErrOf result ServeFault.Device → S.failures reader.old + W.failures writer.old < 2 ^ 63 →
        S.failures reader.old + W.failures writer.old < S.failures reader.new + W.failures writer.new }
    ensures memory { IsErrOf result ServeFault.NoMemory → (reader.new ≡ reader.old) × (writer.new ≡ writer.old) × (desk.new ≡ desk.old) }
{
    let Ok(mut rooms) = Rooms::new(alloc) else {
        return Err(ServeFault::NoMemory);
    };
    match serve_in(&mut rooms, reader, writer, desk) {
        Ok(how) => Ok(how),
        Err(_) => Err(ServeFault::Device),
    }
}
