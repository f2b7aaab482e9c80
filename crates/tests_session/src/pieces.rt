//! Sessions whose input comes in one piece, in single bytes, and in two pieces.
use crate::serving::{end, texts};
use crate::talks::{GREATEST, Talk, talks};
use chr_session::{Ended, MemorySink, MemorySource, Source, Stream};
use std::alloc::{AllocError, Global};
use std::io::Read;
use std::test::Fail;

/// Whether a session is served so, with its replies taken in pieces of this size.
fn is_served<S: Source>(
    alloc: Global,
    talk: &Talk,
    replies: &[u8],
    source: &mut S,
    piece: usize,
) -> bool {
    let mut sink = MemorySink::new(alloc, piece);
    let ended = end(alloc, talk.limit, source, &mut sink);
    ended == (Ok(talk.ended), talk.stands) && sink.bytes.as_slice() == replies
}

/// Whether a session is served so in two pieces, wherever it is cut.
fn is_served_in_two(alloc: Global, talk: &Talk, input: &[u8], replies: &[u8]) -> bool {
    for cut in 0..=input.len() {
        let (front, back) = input.split_at(cut);
        let mut halves = Stream::new(front.chain(back));
        if !is_served(alloc, talk, replies, &mut halves, 65_536) {
            return false;
        }
    }
    true
}

/// Whether a session is served so in one piece, in single bytes, and in two pieces.
fn is_served_in_pieces(alloc: Global, talk: &Talk) -> Result<bool, AllocError> {
    let (input, replies) = texts(alloc, talk.lines)?;
    let mut whole = MemorySource::new(&input, 65_536);
    let mut bytes = MemorySource::new(&input, 1);
    Ok(
        is_served(alloc, talk, &replies, &mut whole, 65_536)
            && is_served(alloc, talk, &replies, &mut bytes, 1)
            && is_served_in_two(alloc, talk, &input, &replies),
    )
}

#[test]
fn worked_sessions(rt: HostRuntime) -> Result<(), Fail> {
    for talk in talks() {
        let is = is_served_in_pieces(rt.alloc(), talk)?;
        assert!(rt; is, "{}", talk.name);
    }
    Ok(())
}

/// Inputs that end inside a command.
static CUTS: [&[u8]; 16] = [
    b"q",
    b"quit",
    b"quit\r",
    b" ",
    b"\t\r",
    b"store a",
    b"hello",
    b"post p(X).",
    b"load",
    b"load 9",
    b"load 9\r",
    b"load 9\n",
    b"load 9\na ==> b.",
    b"load 65537",
    b"load 65537\na <=> b.\nquit\n",
    b"load 4294967295\na <=> b.\nquit\n",
];

/// How such a session ends.
static CUT: Talk = Talk {
    name: "cut",
    limit: GREATEST,
    lines: b"",
    ended: Ended::Cut,
    stands: false,
};

/// Whether a session is cut by its input, in one piece and in single bytes.
fn is_cut(alloc: Global, input: &[u8]) -> bool {
    for piece in [1, 65_536] {
        let mut source = MemorySource::new(input, piece);
        if !is_served(alloc, &CUT, b"fault E23 Cut\n", &mut source, piece) {
            return false;
        }
    }
    true
}

#[test]
fn cut_commands(rt: HostRuntime) {
    for (i, input) in CUTS.iter().enumerate() {
        assert!(rt; is_cut(rt.alloc(), input), "input {i}");
    }
}
