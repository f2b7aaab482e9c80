//! Sessions over memory.
use crate::talks::GREATEST;
use chr_session::{Ended, MemorySink, ServeFault, Sink, Source, serve};
use chr_solo::SoloDesk;
use std::alloc::{AllocError, Allocator, Global};

/// Adds the bytes of a command.
pub fn add_command(input: &mut Vec<u8, Global>, command: &[u8]) -> Result<(), AllocError> {
    for byte in command {
        input.push(if *byte == b'~' { b'\n' } else { *byte })?;
    }
    Ok(())
}

/// Adds a line of a reply.
pub fn add_line(replies: &mut Vec<u8, Global>, line: &[u8]) -> Result<(), AllocError> {
    replies.extend_from_slice(line)?;
    replies.push(b'\n')?;
    Ok(())
}

fn add_lines(
    input: &mut Vec<u8, Global>,
    replies: &mut Vec<u8, Global>,
    lines: &[u8],
) -> Result<(), AllocError> {
    for line in lines.split(|b| *b == b'\n') {
        match line {
            [] => {}
            [b'>', b' ', command @ ..] => add_command(input, command)?,
            reply => add_line(replies, reply)?,
        }
    }
    Ok(())
}

/// The bytes of all commands of a talk's lines, and those of all replies.
pub fn texts(
    alloc: Global,
    lines: &[u8],
) -> Result<(Vec<u8, Global>, Vec<u8, Global>), AllocError> {
    let mut input = Vec::new(alloc);
    let mut replies = Vec::new(alloc);
    add_lines(&mut input, &mut replies, lines)?;
    Ok((input, replies))
}

/// Serves a session with a label limit. How it ended, and whether a program stands at its end.
pub fn end<A: Allocator + Copy, S: Source, W: Sink>(
    alloc: A,
    limit: u32,
    source: &mut S,
    sink: &mut W,
) -> (Result<Ended, ServeFault>, bool) {
    let mut desk = SoloDesk::new(alloc, u64::from(limit));
    let ended = serve(alloc, source, sink, &mut desk);
    (ended, desk.book().is_some())
}

/// Whether a session without a limit, whose replies are taken in pieces of this size, ends so and has these replies.
pub fn is_served<S: Source>(
    alloc: Global,
    source: &mut S,
    piece: usize,
    wanted: Result<Ended, ServeFault>,
    replies: &[u8],
) -> bool {
    let mut sink = MemorySink::new(alloc, piece);
    let (ended, _) = end(alloc, GREATEST, source, &mut sink);
    ended == wanted && sink.bytes.as_slice() == replies
}
