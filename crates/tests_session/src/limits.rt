//! Lines and loads up to their limits, and past them.
use crate::serving::is_served;
use chr_session::{Ended, MemorySource, Stream};
use std::alloc::{AllocError, Global};
use std::io::Read;
use std::test::Fail;

/// A text, a byte that follows it so many times, and what follows these; the replies, and how the session ends.
type Row<'r> = (&'r [u8], u8, usize, &'r [u8], &'r [u8], Ended);

static ROWS: [Row; 20] = [
    (
        b"",
        b'x',
        4097,
        b"\nquit\n",
        b"fault E22 LineTooLong\nbye\n",
        Ended::Quit,
    ),
    (
        b"",
        b'x',
        4096,
        b"\nquit\n",
        b"fault E21 UnknownCommand\nbye\n",
        Ended::Quit,
    ),
    (
        b"",
        b'x',
        4096,
        b"\r\nquit\n",
        b"fault E21 UnknownCommand\nbye\n",
        Ended::Quit,
    ),
    (
        b"",
        b'x',
        4096,
        b"\r\r\nquit\n",
        b"fault E22 LineTooLong\nbye\n",
        Ended::Quit,
    ),
    (
        b"",
        b'x',
        4096,
        b"\rx\nquit\n",
        b"fault E22 LineTooLong\nbye\n",
        Ended::Quit,
    ),
    (b"", b' ', 4096, b"\nquit\n", b"bye\n", Ended::Quit),
    (b"", b'\t', 4096, b"\r\nquit\n", b"bye\n", Ended::Quit),
    (
        b"",
        b' ',
        4097,
        b"\nquit\n",
        b"fault E22 LineTooLong\nbye\n",
        Ended::Quit,
    ),
    (b"quit", b' ', 4092, b"\n", b"bye\n", Ended::Quit),
    (
        b"quit",
        b' ',
        4093,
        b"\n",
        b"fault E22 LineTooLong\n",
        Ended::End,
    ),
    (
        b"load 9",
        b' ',
        4091,
        b"\nquit\n",
        b"fault E22 LineTooLong\nbye\n",
        Ended::Quit,
    ),
    (
        b"load 0\npost a.",
        b' ',
        4089,
        b"\nlog 1\n",
        b"loaded 0\nposted 1 1\nlog 1\nP 1 a\n",
        Ended::End,
    ),
    (
        b"load 0\npost a.",
        b' ',
        4090,
        b"\nlog 1\n",
        b"loaded 0\nfault E22 LineTooLong\nlog 0\n",
        Ended::End,
    ),
    (b"", b'x', 4097, b"", b"fault E23 Cut\n", Ended::Cut),
    (
        b"load 65536\na <=> b.",
        b' ',
        65_528,
        b"quit\n",
        b"loaded 1\nbye\n",
        Ended::Quit,
    ),
    (
        b"load 65536\n",
        b' ',
        65_535,
        b"",
        b"fault E23 Cut\n",
        Ended::Cut,
    ),
    (
        b"load 65537\n",
        b'\n',
        65_537,
        b"store\n",
        b"fault E09 TooLong 0\nfault E24 NoProgram\n",
        Ended::End,
    ),
    (
        b"load 75\ngcd(0) <=> true.\ngcd(N) \\ gcd(M) <=> 0 < N, N =< M | L is M mod N, gcd(L).\nload 65537\n",
        b'x',
        65_537,
        b"store\n",
        b"loaded 2\nfault E09 TooLong 0\nstore 0\n",
        Ended::End,
    ),
    (
        b"load 0\nload 65536\n",
        b'x',
        65_536,
        b"store\n",
        b"loaded 0\nfault E20 AlreadyLoaded\nstore 0\n",
        Ended::End,
    ),
    (
        b"load 65537\n",
        b'\n',
        65_536,
        b"",
        b"fault E23 Cut\n",
        Ended::Cut,
    ),
];

/// The input of a row.
fn input(alloc: Global, row: &Row) -> Result<Vec<u8, Global>, AllocError> {
    let (before, byte, count, after, _, _) = *row;
    let mut input = Vec::new(alloc);
    input.extend_from_slice(before)?;
    for _filled in 0..count {
        input.push(byte)?;
    }
    input.extend_from_slice(after)?;
    Ok(input)
}

/// Whether a session ends so and has these replies, with its input and its replies in one piece and in single bytes.
fn is_served_in_pieces(alloc: Global, input: &[u8], wanted: Ended, replies: &[u8]) -> bool {
    for piece in [1, 65_536] {
        let mut source = MemorySource::new(input, piece);
        if !is_served(alloc, &mut source, piece, Ok(wanted), replies) {
            return false;
        }
    }
    true
}

/// Whether a session is served as a row says, with its input cut in two at this byte.
fn is_served_in_two(alloc: Global, row: &Row, input: &[u8], cut: usize) -> bool {
    let (_, _, _, _, replies, wanted) = *row;
    let Some((front, back)) = input.split_at_checked(cut) else {
        return true;
    };
    let mut source = Stream::new(front.chain(back));
    is_served(alloc, &mut source, 65_536, Ok(wanted), replies)
}

#[test]
fn lines_and_loads(rt: HostRuntime) -> Result<(), Fail> {
    for (i, row) in ROWS.iter().enumerate() {
        let (before, _, count, _, replies, wanted) = *row;
        let input = input(rt.alloc(), row)?;
        let is = is_served_in_pieces(rt.alloc(), &input, wanted, replies);
        assert!(rt; is, "row {i}");
        // Around the place where the repeated bytes begin, and where they end.
        for place in [before.len(), before.len().saturating_add(count)] {
            for cut in place.saturating_sub(12)..place.saturating_add(12) {
                let is = is_served_in_two(rt.alloc(), row, &input, cut);
                assert!(rt; is, "row {i} cut at {cut}");
            }
        }
    }
    Ok(())
}

#[test]
fn long_line_cut_anywhere(rt: HostRuntime) -> Result<(), Fail> {
    let input = input(rt.alloc(), &ROWS[0])?;
    for cut in 0..=input.len() {
        assert!(rt;
            is_served_in_two(rt.alloc(), &ROWS[0], &input, cut),
            "cut at {cut}"
        );
    }
    Ok(())
}

/// Pieces of a text, each so many times.
type Pieces<'r> = &'r [(&'r str, usize)];

/// Sessions whose longest line has 4,096 bytes and nested values, and their replies.
static NESTED: [(Pieces<'static>, &[u8]); 3] = [
    (
        &[
            ("load 22\np(X) \\ p(X) <=> true.\npost ", 1),
            ("p(s(s(s(s(s(s(s(z)))))))),", 156),
            ("p(s(s(s(s(s(s(s(z)))))))).", 1),
            (" ", 9),
            ("\nwait 1000000\nstore\nlog 626\nquit\n", 1),
        ],
        b"loaded 1\nposted 1 157\nquiet\nstore 1\n#157 p(s(s(s(s(s(s(s(z))))))))\nlog 2\nF 157 1 157\\156\nD 157\nbye\n",
    ),
    (
        &[
            ("load 0\npost p(", 1),
            ("s(", 1362),
            ("z", 1),
            (")", 1363),
            (".\nquit\n", 1),
        ],
        b"loaded 0\nfault E07 TooMany 1\nbye\n",
    ),
    (
        &[
            ("load 0\npost p(", 1),
            ("s(", 1363),
            ("z", 1),
            (")", 1361),
            (".\nquit\n", 1),
        ],
        b"loaded 0\nfault E04 Syntax 1\nbye\n",
    ),
];

/// The text of pieces.
fn text_of(alloc: Global, pieces: Pieces) -> Result<Vec<u8, Global>, AllocError> {
    let mut text = Vec::new(alloc);
    for (piece, count) in pieces {
        for _ in 0..*count {
            text.extend_from_slice(piece.as_bytes())?;
        }
    }
    Ok(text)
}

#[test]
fn lines_of_nested_values(rt: HostRuntime) -> Result<(), Fail> {
    for (i, (pieces, replies)) in NESTED.iter().enumerate() {
        let input = text_of(rt.alloc(), pieces)?;
        let is = is_served_in_pieces(rt.alloc(), &input, Ended::Quit, replies);
        assert!(rt; is, "row {i}");
    }
    Ok(())
}
