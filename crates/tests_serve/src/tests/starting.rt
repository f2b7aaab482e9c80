//! What stands before a server says that it can serve.
ghost use Rattle.std.specs.Prelude.{◌≤◌};

use crate::tests::client::{Client, LOAD, connect_all, found_beside, listen};
use chr_serve::{Ready, ServerFault, serve_on};
use refusing::Refusing;
use std::alloc::{AllocGlobal, Global};
use std::cell::Cell;
use std::fs::Files;
use std::net::Net;
use std::os::unix::net::{SocketAddr, UnixListener};
use std::rt::Clock;
use std::sync::Wait;
use std::test::*;
use std::thread::Threads;

type Memory<'m> = &'m Refusing<Global>;

/// How often it is told that a server can serve, and with how many workers at last.
#[derive(Drop)]
struct Told {
    /// How many workers it is to be told of.
    expected: usize,
    times: Cell<u32>,
    workers: Cell<usize>,
}

impl Ready for Told {
    ghost expected = { λ told. told.expected };

    fn tell(&self, workers: usize) {
        self.times.set(self.times.get().wrapping_add(1));
        self.workers.set(workers);
    }
}

/// How many workers a server of no connection tells of, to whom memory is refused once, or none. None where it doesn't tell
/// of them just where it wasn't refused any, and then once.
fn workers_told<R: Threads + Wait + Clock + Sync + AllocGlobal>(
    rt: &R,
    memory: Memory,
    listener: &UnixListener,
    workers: usize,
) -> Option<usize>
    requires { (1 ≤ workers) × (workers ≤ 16) }
{
    let told = Told {
        expected: workers,
        times: Cell::new(0),
        workers: Cell::new(0),
    };
    let ended = serve_on(rt, memory, rt.alloc(), listener, &told, workers, Some(0));
    match (memory.was_refused(), ended, told.times.get()) {
        (true, Err(ServerFault::NoMemory), 0) | (false, Ok(()), 1) => Some(told.workers.get()),
        _ => None,
    }
}

/// More requests for memory than a server makes before it can serve.
const MANY: u64 = 1000;

/// How many requests for memory a server makes before it can serve, each of which was refused in turn.
fn requests_to_start<R: Files + Net + Threads + Wait + Clock + Sync + AllocGlobal>(
    rt: &R,
    workers: usize,
) -> Option<u64>
    requires { (1 ≤ workers) × (workers ≤ 16) }
{
    let (listener, _) = listen(rt).ok()?;
    for n in 1..MANY {
        let memory = Refusing::new(rt.alloc(), n);
        match workers_told(rt, &memory, &listener, workers) {
            Some(0) => {}
            Some(told) if told == workers => return Some(n.wrapping_sub(1)),
            _ => return None,
        }
    }
    None
}

#[test]
fn nothing_is_told_where_memory_is_refused(rt: HostRuntime) {
    for workers in [1, 2, 16] {
        // At least one for each of its sessions.
        assert!(rt;
            matches!(requests_to_start(&rt, workers), Some(16..)),
            "{workers}"
        );
    }
}

/// Whether the first replies of sixteen sessions, which are served at once, ask for no memory.
fn take_no_memory<R: Net + AllocGlobal>(
    rt: &R,
    memory: Memory,
    address: &SocketAddr,
    sixteen: &mut Vec<Client>,
) -> bool {
    // A server takes a connection once it can serve.
    let connect = connect_all(rt, address, 1, sixteen) && have_replies(sixteen.as_mut_slice());
    let taken = memory.requests();
    connect
        && connect_all(rt, address, 15, sixteen)
        && have_replies(sixteen.as_mut_slice())
        && memory.requests() == taken
}

/// Whether clients are told that there are no rules yet, and that a command is wrong.
fn have_replies(clients: &mut [Client]) -> bool {
    clients.iter_mut().all(|client| {
        client.plays(&[
            ("store\n", "fault E24 NoProgram\n"),
            ("load 5000000000\n", "fault E21 UnknownCommand\n"),
            ("post gcd(9).\n", "fault E24 NoProgram\n"),
        ])
    })
}

/// Whether a load that is refused memory is told so, changes nothing, and can be made again.
fn loads_again(memory: Memory, client: &mut Client) -> bool {
    memory.refuse(1);
    client.plays(&[(LOAD, "fault E01 NoMemory\n"), (LOAD, "loaded 2\n")])
}

/// Whether sessions take no memory but for their commands.
fn are_served<R: Net + AllocGlobal>(rt: &R, memory: Memory, address: &SocketAddr) -> bool {
    let mut sixteen = Vec::new(rt.alloc());
    take_no_memory(rt, memory, address, &mut sixteen)
        && match sixteen.last_mut() {
            Some(client) => loads_again(memory, client),
            None => false,
        }
}

#[test]
fn sessions_have_their_memory_before_they_begin(rt: HostRuntime) {
    let memory = Refusing::new(rt.alloc(), 0);
    let served = match listen(&rt) {
        Ok((listener, address)) => found_beside(
            &rt,
            &memory,
            &listener,
            2,
            16,
            || are_served(&rt, &memory, &address),
        ),
        Err(_) => None,
    };
    assert_eq!(rt; served, Some(true));
}
