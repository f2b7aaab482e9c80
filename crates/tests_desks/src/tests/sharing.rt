//! Two sessions on one book, without workers.
use crate::tests::hall::{Hall, Visit, visited};
use chr_crew::Place;
use chr_pool::Hand;
use chr_seats::PostLedger;
use chr_session::{Desk, Ended, MemorySink, MemorySource, serve};
use chr_shared::Shared;
use chr_shared_desk::SharedDesk;
use std::alloc::{AllocError, Global};
use std::sync::Wait;
use std::sync::ledger::Ledger;
use std::test::*;

/// What two sessions are told and reply, and the tickets that the pool has in the end.
#[derive(Clone, Copy, Debug)]
struct Talk<'t> {
    pub name: &'t str,
    /// What the first session is told stands after `1> `, and what the second is told after `2> `; `~` in it is the end of a
    /// line. Each other line is one of the reply to the command before it.
    pub lines: &'t [u8],
    pub tickets: &'t [u64],
}

/// Posts of one session, as both find them.
static POSTS: Talk = Talk {
    name: "posts",
    lines: b"
1> load 75~gcd(0) <=> true.~gcd(N) \\ gcd(M) <=> 0 < N, N =< M | L is M mod N, gcd(L).~
loaded 2
2> wait 3~
quiet
1> post gcd(9), gcd(6).~log 1~
posted 1 2
log 2
P 1 gcd(9)
P 2 gcd(6)
2> log 2~
log 1
P 2 gcd(6)
2> wait 0~
open
1> wait 3~
open
2> post gcd(4).~
posted 3 1
2> post~
posted 4 0
1> post gcd(X).~
fault E08 Binding 1
1> log 3~
log 1
P 3 gcd(4)
1> log 4~
log 0
2> store~
store 0
",
    tickets: &[1, 2, 3],
};

/// A load where no program stands, where one can't be read, and where one stands.
static LOADS: Talk = Talk {
    name: "loads",
    lines: b"
1> post a.~
fault E24 NoProgram
1> wait 3~
fault E24 NoProgram
1> store~
fault E24 NoProgram
1> log 1~
fault E24 NoProgram
1> load 9~a ==> b.~
fault E05 Propagation 1
2> wait 0~
fault E24 NoProgram
2> load 9~a <=> b.~
loaded 1
1> load 9~a <=> b.~
fault E20 AlreadyLoaded
2> load 9~a ==> b.~
fault E20 AlreadyLoaded
1> wait 0~
quiet
1> post a.~log 1~
posted 1 1
log 1
P 1 a
",
    tickets: &[1],
};

/// Adds a line of a reply. Whether it could.
fn adds_line(replies: &mut Vec<u8>, line: &[u8]) -> bool {
    replies.extend_from_slice(line).is_ok() && replies.push(b'\n').is_ok()
}

/// The bytes of a command.
fn bytes_of(alloc: Global, command: &[u8]) -> Result<Vec<u8>, AllocError> {
    let mut bytes = Vec::new(alloc);
    for byte in command {
        bytes.push(if *byte == b'~' { b'\n' } else { *byte })?;
    }
    Ok(bytes)
}

/// Whether a desk is served a command, with its reply behind those before.
fn is_served<D: Desk<Global>>(
    alloc: Global,
    desk: &mut D,
    command: &[u8],
    sink: &mut MemorySink<Global>,
) -> bool {
    match bytes_of(alloc, command) {
        Ok(told) => {
            let mut source = MemorySource::new(&told, 7);
            matches!(serve(alloc, &mut source, sink, desk), Ok(Ended::End))
        }
        Err(_) => false,
    }
}

/// Whether two desks reply as the lines say.
fn reply<D: Desk<Global>>(alloc: Global, first: &mut D, second: &mut D, lines: &[u8]) -> bool {
    let mut sink = MemorySink::new(alloc, 5);
    let mut wanted = Vec::new(alloc);
    for line in lines.split(|b| *b == b'\n') {
        let right = match line {
            [] => true,
            [b'1', b'>', b' ', command @ ..] => is_served(alloc, first, command, &mut sink),
            [b'2', b'>', b' ', command @ ..] => is_served(alloc, second, command, &mut sink),
            reply => adds_line(&mut wanted, reply),
        };
        if !right {
            return false;
        }
    }
    sink.bytes.as_slice() == wanted.as_slice()
}

/// The same of desks at these places.
fn reply_at<L1: PostLedger, L2: Ledger, R: Wait>(
    rt: &R,
    alloc: Global,
    shared: &Shared<L1, L2, Global>,
    places: (Place<L1, L2>, Place<L1, L2>),
    lines: &[u8],
) -> bool {
    let (first, second) = places;
    let mut first = SharedDesk::new(rt, alloc, shared, first.seat, first.inlet);
    let mut second = SharedDesk::new(rt, alloc, shared, second.seat, second.inlet);
    reply(alloc, &mut first, &mut second, lines)
}

/// Whether the pool has these tickets, and no other.
fn has_tickets<R: Wait>(rt: &R, hand: &mut Hand<u64>, tickets: &[u64]) -> bool {
    for ticket in tickets {
        if hand.take(rt) != Some(*ticket) {
            return false;
        }
    }
    hand.take(rt).is_none()
}

/// Whether the replies are those of the lines, and the pool has the tickets then.
impl Visit<Global> for Talk<'_> {
    type Seen = bool;

    fn visit<L1: PostLedger, L2: Ledger, R: Wait>(
        &self,
        rt: &R,
        hall: &mut Hall<L1, L2, Global>,
    ) -> Option<bool> {
        let (Ok(first), Ok(second)) = (hall.rack.take(rt), hall.rack.take(rt)) else {
            return None;
        };
        let right = reply_at(rt, hall.alloc, &hall.shared, (first, second), self.lines);
        Some(right && has_tickets(rt, &mut hall.workers.0.hand, self.tickets))
    }
}

#[test]
fn replies_are_those_of_the_tables(rt: HostRuntime) {
    for talk in [&POSTS, &LOADS] {
        let right = visited(&rt, rt.alloc(), rt.alloc(), talk);
        assert_eq!(rt; right, Some(true), "{}", talk.name);
    }
}
