//! A session whose client sends a command only once it has the reply to the one before.
use crate::serving::{add_command, add_line, end};
use crate::talks::{COMPOUND_RUN, GREATEST, RUN, Talk};
use chr_session::{Ended, Stream};
use std::alloc::{AllocError, Global};
use std::cell::Cell;
use std::io::{self, Read, Write};
use std::test::Fail;

/// A command with what was replied to all commands before it.
#[derive(Drop)]
struct Turn {
    command: Vec<u8, Global>,
    replies_before: usize,
}

/// The turns of a talk, and the bytes of all its replies.
fn turns(alloc: Global, lines: &[u8]) -> Result<(Vec<Turn, Global>, Vec<u8, Global>), AllocError> {
    let mut turns = Vec::new(alloc);
    let mut replies = Vec::new(alloc);
    for line in lines.split(|b| *b == b'\n') {
        match line {
            [] => {}
            [b'>', b' ', bytes @ ..] => {
                let mut command = Vec::new(alloc);
                add_command(&mut command, bytes)?;
                turns.push(Turn {
                    command,
                    replies_before: replies.len(),
                })?;
            }
            reply => add_line(&mut replies, reply)?,
        }
    }
    Ok((turns, replies))
}

/// What a client sends: each command in one piece. It looks then how many bytes of replies it has.
#[derive(Drop)]
struct Sent<'c> {
    turns: &'c [Turn],
    next: usize,
    received: &'c Cell<usize>,
    /// Whether a command was read before all replies to those before it were written, or after more than these.
    is_out_of_turn: bool,
}

impl Read for Sent<'_> {
    fn read(&mut self, into: &mut [u8]) -> io::Result<usize> {
        let Some(turn) = self.turns.get(self.next) else {
            return Ok(0);
        };
        self.next = self.next.saturating_add(1);
        if self.received.get() != turn.replies_before {
            self.is_out_of_turn = true;
        }
        let count = turn.command.len().min(into.len());
        into[..count].copy_from_slice(&turn.command[..count]);
        Ok(count)
    }
}

/// What a client receives.
#[derive(Drop)]
struct Received<'c> {
    bytes: Vec<u8, Global>,
    count: &'c Cell<usize>,
}

impl Write for Received<'_> {
    fn write(&mut self, bytes: &[u8]) -> io::Result<usize> {
        self.bytes.extend_from_slice(bytes)?;
        self.count.set(self.bytes.len());
        Ok(bytes.len())
    }

    fn flush(&mut self) -> io::Result<()> {
        Ok(())
    }
}

/// Whether each reply of a talk is written before the next command is read.
fn is_in_turn(alloc: Global, talk: &Talk) -> Result<bool, AllocError> {
    let (turns, replies) = turns(alloc, talk.lines)?;
    let received = Cell::new(0);
    let mut source = Stream::new(Sent {
        turns: &turns,
        next: 0,
        received: &received,
        is_out_of_turn: false,
    });
    let mut sink = Stream::new(Received {
        bytes: Vec::new(alloc),
        count: &received,
    });
    let (ended, _) = end(alloc, GREATEST, &mut source, &mut sink);
    Ok(
        ended == Ok(Ended::Quit)
            && !source.inner.is_out_of_turn
            && source.inner.next == turns.len()
            && sink.inner.bytes.as_slice() == replies.as_slice(),
    )
}

#[test]
fn replies_come_before_the_next_command(rt: HostRuntime) -> Result<(), Fail> {
    for talk in [&RUN, &COMPOUND_RUN] {
        let is = is_in_turn(rt.alloc(), talk)?;
        assert!(rt; is, "{}", talk.name);
    }
    Ok(())
}
