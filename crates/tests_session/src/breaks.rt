//! A session whose input is cut off, or whose reader or writer fails, at each of its bytes.
use crate::serving::{add_line, end, is_served, texts};
use crate::talks::{GREATEST, RUN};
use chr_session::{Ended, Failing, MemorySink, MemorySource, ServeFault};
use std::alloc::{AllocError, Global};
use std::test::Fail;

/// Adds the replies to the commands that are whole in so many bytes of the input. How an input of these bytes ends.
fn add_replies_within(replies: &mut Vec<u8, Global>, bytes: usize) -> Result<Ended, AllocError> {
    let mut left = bytes;
    for line in RUN.lines.split(|b| *b == b'\n') {
        match line {
            [] => {}
            [b'>', b' ', ..] if left == 0 => return Ok(Ended::End),
            [b'>', b' ', command @ ..] => match left.checked_sub(command.len()) {
                Some(rest) => left = rest,
                None => return Ok(Ended::Cut),
            },
            reply => add_line(replies, reply)?,
        }
    }
    Ok(Ended::Quit)
}

/// Whether a session of this beginning of the input has the replies to the commands that are whole in it, and ends so.
fn is_cut_off(alloc: Global, front: &[u8]) -> Result<bool, AllocError> {
    let mut replies = Vec::new(alloc);
    let wanted = add_replies_within(&mut replies, front.len())?;
    if wanted == Ended::Cut {
        add_line(&mut replies, b"fault E23 Cut")?;
    }
    let mut source = MemorySource::new(front, 65_536);
    Ok(is_served(alloc, &mut source, 65_536, Ok(wanted), &replies))
}

#[test]
fn input_cut_off(rt: HostRuntime) -> Result<(), Fail> {
    let (input, _) = texts(rt.alloc(), RUN.lines)?;
    for cut in 0..=input.len() {
        let is = is_cut_off(rt.alloc(), &input[..cut])?;
        assert!(rt; is, "cut off at {cut}");
    }
    Ok(())
}

/// Whether a session whose reader fails after so many bytes has the replies to the commands that are whole in them.
fn fails_after(alloc: Global, input: &[u8], read: usize) -> Result<bool, AllocError> {
    let mut replies = Vec::new(alloc);
    let _ended = add_replies_within(&mut replies, read)?;
    let mut source = Failing::new(MemorySource::new(input, 1), read as u64);
    let wanted = Err(ServeFault::Device);
    Ok(is_served(alloc, &mut source, 1, wanted, &replies))
}

#[test]
fn reader_fails(rt: HostRuntime) -> Result<(), Fail> {
    let (input, _) = texts(rt.alloc(), RUN.lines)?;
    for read in 0..input.len() {
        let is = fails_after(rt.alloc(), &input, read)?;
        assert!(rt; is, "after {read} bytes");
    }
    Ok(())
}

/// Whether a session whose writer fails after it has taken these replies has written just these.
fn is_written_up_to(alloc: Global, input: &[u8], replies: &[u8]) -> bool {
    let mut source = MemorySource::new(input, 1);
    let mut sink = Failing::new(MemorySink::new(alloc, 1), replies.len() as u64);
    let (ended, _) = end(alloc, GREATEST, &mut source, &mut sink);
    ended == Err(ServeFault::Device) && sink.inner.bytes.as_slice() == replies
}

#[test]
fn writer_fails(rt: HostRuntime) -> Result<(), Fail> {
    let (input, replies) = texts(rt.alloc(), RUN.lines)?;
    for taken in 0..replies.len() {
        let is = is_written_up_to(rt.alloc(), &input, &replies[..taken]);
        assert!(rt; is, "after {taken} bytes");
    }
    Ok(())
}

#[test]
fn gives_up_at_once(rt: HostRuntime) -> Result<(), Fail> {
    let (input, replies) = texts(rt.alloc(), RUN.lines)?;
    let mut source = Failing::new(MemorySource::new(&input, 1), input.len() as u64);
    let mut sink = Failing::new(MemorySink::new(rt.alloc(), 1), replies.len() as u64);
    let ended = end(rt.alloc(), GREATEST, &mut source, &mut sink);
    assert_eq!(rt; ended, (Ok(Ended::Quit), true));
    Ok(())
}
