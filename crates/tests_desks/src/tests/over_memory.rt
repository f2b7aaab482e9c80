//! Sessions over memory, and one with a request for memory refused.
use crate::tests::hall::{Hall, Visit, visited};
use chr_crew::Rack;
use chr_seats::PostLedger;
use chr_serve::serve_at;
use chr_session::{Ended, MemorySink, MemorySource, ServeFault};
use chr_shared::Shared;
use refusing::{Refusing, refuses_in_order};
use std::alloc::{Allocator, Global};
use std::sync::Wait;
use std::sync::ledger::Ledger;
use std::test::*;

/// How a session ended, and what it wrote.
pub type Served = (Result<Ended, ServeFault>, Vec<u8>);

/// Sessions over memory on one book.
pub trait Sessions {
    /// Serves a session whose input comes in pieces of this size, and whose replies are taken in such. None where there is no
    /// place for it.
    fn serve(&self, input: &[u8], piece: usize) -> Option<Served>;
}

/// A lock, and the places of its sessions. What sessions write is of other memory.
#[derive(Drop)]
pub struct Lent<'h, R: Wait, L1: PostLedger, L2: Ledger, A: Allocator> {
    pub rt: &'h R,
    pub alloc: A,
    pub texts: Global,
    pub shared: &'h Shared<L1, L2, A>,
    pub rack: &'h Rack<L1, L2, A>,
}

impl<R: Wait, L1: PostLedger, L2: Ledger, A: Allocator + Copy> Sessions for Lent<'_, R, L1, L2, A> {
    fn serve(&self, input: &[u8], piece: usize) -> Option<Served> {
        let Ok(place) = self.rack.take(self.rt) else {
            return None;
        };
        let mut source = MemorySource::new(input, piece);
        let mut sink = MemorySink::new(self.texts, piece);
        let (place, ended) = serve_at(
            self.rt,
            self.alloc,
            self.shared,
            place,
            &mut source,
            &mut sink,
        );
        self.rack.give_back(self.rt, place);
        Some((ended, sink.bytes))
    }
}

type Memory<'m> = &'m Refusing<Global>;

/// The command that loads two rules.
pub const LOAD: &str =
    "load 75\ngcd(0) <=> true.\ngcd(N) \\ gcd(M) <=> 0 < N, N =< M | L is M mod N, gcd(L).\n";

/// What a session is told after its load.
const REST: &str = "post gcd(9), gcd(6).\nwait 0\nstore\nlog 1\nquit\n";

/// What it writes where a command is refused memory, with a word for the command.
static REFUSED: [(&str, &str); 4] = [
    (
        "load",
        "fault E01 NoMemory\nfault E24 NoProgram\nfault E24 NoProgram\nfault E24 NoProgram\nfault E24 NoProgram\nbye\n",
    ),
    (
        "post",
        "loaded 2\nfault E01 NoMemory\nquiet\nstore 0\nlog 0\nbye\n",
    ),
    (
        "log",
        "loaded 2\nposted 1 2\nopen\nstore 0\nfault E01 NoMemory\nbye\n",
    ),
    (
        "",
        "loaded 2\nposted 1 2\nopen\nstore 0\nlog 2\nP 1 gcd(9)\nP 2 gcd(6)\nbye\n",
    ),
];

/// The command that was answered E01, "" where none was, and "serve" where the session ended before the first. None for any
/// other session.
fn command_refused(ended: Result<Ended, ServeFault>, written: &[u8]) -> Option<&'static str> {
    if ended == Err(ServeFault::NoMemory) && written.is_empty() {
        return Some("serve");
    }
    for (command, replies) in &REFUSED {
        if ended == Ok(Ended::Quit) && written == replies.as_bytes() {
            return Some(*command);
        }
    }
    None
}

/// A session with request number `n` for memory refused, without workers.
#[derive(Drop)]
struct WithRefusal<'t> {
    n: u64,
    input: &'t [u8],
    texts: Global,
}

impl<'m> Visit<Memory<'m>> for WithRefusal<'_> {
    type Seen = Served;

    fn visit<L1: PostLedger, L2: Ledger, R: Wait>(
        &self,
        rt: &R,
        hall: &mut Hall<L1, L2, Memory<'m>>,
    ) -> Option<Served> {
        let sessions = Lent {
            rt,
            alloc: hall.alloc,
            texts: self.texts,
            shared: &hall.shared,
            rack: &hall.rack,
        };
        hall.alloc.refuse(self.n);
        sessions.serve(self.input, 65_536)
    }
}

/// The command of such a session that is refused, by the words above, or "rule" where a rule did without the list of its words,
/// and whether a request was.
fn refused<R: Wait>(rt: &R, texts: Global, n: u64, input: &[u8]) -> Option<(&'static str, bool)> {
    let memory = Refusing::new(texts, 0);
    let session = WithRefusal { n, input, texts };
    let (ended, written) = visited(rt, &memory, texts, &session)?;
    match command_refused(ended, &written)? {
        "" if memory.was_refused() => Some(("rule", true)),
        command => Some((command, memory.was_refused())),
    }
}

/// The commands that are refused memory, in order.
static COMMANDS: [&str; 8] = [
    "serve", "load", "rule", "load", "rule", "load", "post", "log",
];

#[test]
fn each_request_of_a_session_is_refused(rt: HostRuntime) -> Result<(), Fail> {
    let alloc = rt.alloc();
    let input = format!(in alloc; "{LOAD}{REST}")?;
    let input = input.as_bytes();
    assert!(rt; refuses_in_order(|n| refused(&rt, alloc, n, input), &COMMANDS));
    Ok(())
}
