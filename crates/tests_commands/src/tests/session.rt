//! The ends of sessions.
use chr_commands::session::serve_streams;
use chr_commands::{Detail, Status};
use std::io::{self, Read};
use std::test::*;

/// What a session is told, the greatest label, how it ends, and its replies.
type Row = (&'static str, u32, Status, &'static str);

static ENDS: [Row; 6] = [
    ("", 0, Status::Done, ""),
    ("quit\nstore", 0, Status::Done, "bye\n"),
    ("load 0\n", 0, Status::Done, "loaded 0\n"),
    ("load 2\n", 0, Status::Fault, "fault E23 Cut\n"),
    ("hello\n", 0, Status::Done, "fault E21 UnknownCommand\n"),
    (
        "load 0\npost a, b.\nwait 9\nstore\n",
        1,
        Status::Done,
        "loaded 0\nposted 1 2\nopen\nstore 1\n#1 a\n",
    ),
];

/// Whether a session ends as its row has it, with these replies.
fn ends(rt: &HostRuntime, row: &Row) -> bool {
    let (input, labels, status, replies) = *row;
    let mut written = Vec::new(rt.alloc());
    let given = serve_streams(rt, Detail::Line, labels, input.as_bytes(), &mut written);
    given == status && written.as_slice() == replies.as_bytes()
}

#[test]
fn sessions(rt: HostRuntime) {
    for (i, row) in ENDS.iter().enumerate() {
        assert!(rt; ends(&rt, row), "row {i}");
    }
}

/// A reader that fails.
#[derive(Drop)]
struct Failing;

impl Read for Failing {
    fn read(&mut self, _buf: &mut [u8]) -> io::Result<usize> {
        Err(io::ErrorKind::Other.into())
    }
}

#[test]
fn a_reader_that_fails(rt: HostRuntime) {
    let mut written = Vec::new(rt.alloc());
    let reader = b"load 0\nsto".as_slice().chain(Failing);
    let status = serve_streams(&rt, Detail::Line, 0, reader, &mut written);
    assert!(rt; status == Status::Usage);
    assert!(rt; written.as_slice() == b"loaded 0\n".as_slice());
}

#[test]
fn a_writer_that_fails(rt: HostRuntime) {
    let mut room = [0; 12];
    let input = b"load 0\nstore\nquit\n".as_slice();
    let status = serve_streams(&rt, Detail::Line, 0, input, room.as_mut_slice());
    assert!(rt; status == Status::Usage);
    assert!(rt; room.as_slice() == b"loaded 0\nsto".as_slice());
}
