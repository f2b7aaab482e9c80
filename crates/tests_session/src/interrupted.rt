//! A session whose reader and writer signals interrupt.
use crate::serving::{end, texts};
use crate::talks::{GREATEST, RUN};
use chr_session::{Ended, ServeFault, Stream};
use std::alloc::Global;
use std::io::{self, ErrorKind, Read, Write};
use std::ops::Range;
use std::test::Fail;

/// A reader or a writer that passes one byte in a call. The calls with these numbers, counted from 0, pass nothing and end with
/// an error of this kind.
#[derive(Drop)]
struct Broken<T> {
    inner: T,
    call: u64,
    broken: Range<u64>,
    kind: ErrorKind,
}

impl<T> Broken<T> {
    /// How many bytes of so many pass in a call.
    fn passed(&mut self, most: usize) -> io::Result<usize> {
        let call = self.call;
        self.call = call.saturating_add(1);
        if self.broken.contains(&call) {
            return Err(io::Error::from(self.kind));
        }
        Ok(most.min(1))
    }
}

impl<R: Read> Read for Broken<R> {
    fn read(&mut self, into: &mut [u8]) -> io::Result<usize> {
        let count = self.passed(into.len())?.min(into.len());
        self.inner.read(&mut into[..count])
    }
}

impl<W: Write> Write for Broken<W> {
    fn write(&mut self, bytes: &[u8]) -> io::Result<usize> {
        let count = self.passed(bytes.len())?.min(bytes.len());
        self.inner.write(&bytes[..count])
    }

    fn flush(&mut self) -> io::Result<()> {
        self.inner.flush()
    }
}

/// A stream over a reader or a writer of which these calls end with an error of this kind.
fn stream<T>(inner: T, broken: Range<u64>, kind: ErrorKind) -> Stream<Broken<T>> {
    Stream::new(Broken {
        inner,
        call: 0,
        broken,
        kind,
    })
}

/// How a session ended, and what its writer was given.
type Served = (Result<Ended, ServeFault>, Vec<u8, Global>);

/// Serves a run whose reader and writer are broken in these calls.
fn serve_broken(
    alloc: Global,
    input: &[u8],
    reads: Range<u64>,
    writes: Range<u64>,
    kind: ErrorKind,
) -> Served {
    let mut source = stream(input, reads, kind);
    let mut sink = stream(Vec::new(alloc), writes, kind);
    let (ended, _) = end(alloc, GREATEST, &mut source, &mut sink);
    (ended, sink.inner.inner)
}

/// Whether a run whose reader and writer are interrupted in these calls has all its replies, once.
fn is_whole(
    alloc: Global,
    input: &[u8],
    reads: Range<u64>,
    writes: Range<u64>,
    replies: &[u8],
) -> bool {
    let (ended, written) = serve_broken(alloc, input, reads, writes, ErrorKind::Interrupted);
    ended == Ok(Ended::Quit) && written.as_slice() == replies
}

#[test]
fn each_read_is_interrupted_once(rt: HostRuntime) -> Result<(), Fail> {
    let (input, replies) = texts(rt.alloc(), RUN.lines)?;
    for call in 0..input.len() as u64 {
        let is = is_whole(
            rt.alloc(),
            &input,
            call..call.saturating_add(1),
            0..0,
            &replies,
        );
        assert!(rt; is, "read {call}");
    }
    Ok(())
}

#[test]
fn each_write_is_interrupted_once(rt: HostRuntime) -> Result<(), Fail> {
    let (input, replies) = texts(rt.alloc(), RUN.lines)?;
    for call in 0..replies.len() as u64 {
        let is = is_whole(
            rt.alloc(),
            &input,
            0..0,
            call..call.saturating_add(1),
            &replies,
        );
        assert!(rt; is, "write {call}");
    }
    Ok(())
}

#[test]
fn interrupted_again_and_again(rt: HostRuntime) -> Result<(), Fail> {
    let (input, replies) = texts(rt.alloc(), RUN.lines)?;
    let is = is_whole(rt.alloc(), &input, 7..1000, 5..1000, &replies);
    assert!(rt; is);
    Ok(())
}

/// Whether a run whose reader or writer fails in a call ends with E25, when so many of its replies are written.
fn is_broken_off(
    alloc: Global,
    input: &[u8],
    reads: Range<u64>,
    writes: Range<u64>,
    replies: &[u8],
) -> bool {
    let (ended, written) = serve_broken(alloc, input, reads, writes, ErrorKind::TimedOut);
    ended == Err(ServeFault::Device) && written.as_slice() == replies
}

#[test]
fn another_failure_ends_it(rt: HostRuntime) -> Result<(), Fail> {
    let (input, _) = texts(rt.alloc(), RUN.lines)?;
    assert!(rt; is_broken_off(rt.alloc(), &input, 3..4, 0..0, b""));
    assert!(rt; is_broken_off(rt.alloc(), &input, 0..0, 3..4, b"loa"));
    Ok(())
}
