//! Listeners that fail.
ghost use denote.Param.Send.{IsSync};

use crate::tests::client::{Anybody, Client, LOAD, connect_all, listen, plays};
use chr_serve::{Listener, ServerFault, serve_on};
use std::alloc::AllocGlobal;
use std::cell::Cell;
use std::fs::Files;
use std::io::{self, ErrorKind};
use std::net::Net;
use std::os::unix::net::{SocketAddr, UnixListener, UnixStream};
use std::rt::Clock;
use std::sync::Wait;
use std::sync::atomic::{AtomicU64, Ordering};
use std::test::*;
use std::thread;
use std::thread::Threads;

/// What a listener gives.
#[derive(Clone, Copy)]
enum Next {
    /// The next client that has connected.
    Client,
    Fault(ErrorKind),
    /// The system's error of this number.
    Number(i32),
}

const INTERRUPTED: Next = Next::Fault(ErrorKind::Interrupted);

const ABORTED: Next = Next::Fault(ErrorKind::ConnectionAborted);

const DENIED: Next = Next::Fault(ErrorKind::PermissionDenied);

/// No memory.
const ENOMEM: Next = Next::Number(12);

/// No descriptor is free for any process.
const ENFILE: Next = Next::Number(23);

/// No descriptor is free for this process.
const EMFILE: Next = Next::Number(24);

/// No memory for sockets.
const ENOBUFS: Next = Next::Number(105);

/// The listener is no descriptor.
const EBADF: Next = Next::Number(9);

/// A listener that goes by a script, and then fails.
#[derive(Drop)]
struct Scripted<'s> {
    clients: &'s UnixListener,
    script: &'s [Next],
    /// How much of the script it has given.
    given: Cell<usize>,
}

impl Listener for Scripted<'_> {
    fn next_connection(&self) -> io::Result<UnixStream> {
        let given = self.given.get();
        self.given.set(given.wrapping_add(1));
        match self.script.get(given) {
            Some(Next::Client) => self.clients.next_connection(),
            Some(Next::Fault(kind)) => Err((*kind).into()),
            Some(Next::Number(number)) => Err(io::Error::from_raw_os_error(*number)),
            None => Err(ErrorKind::Other.into()),
        }
    }
}

/// A server and its clients.
struct Row {
    script: &'static [Next],
    /// How many connections the server is to take.
    sessions: u32,
    /// How many clients have connected before. They take their leave one after the other.
    clients: usize,
    /// Whether the last of them takes its leave first.
    last_first: bool,
    /// How the server ends.
    ended: Result<(), Option<ErrorKind>>,
}

/// Failures between two connections. Where the last client takes its leave first, the first session lives until the second
/// begins.
static BETWEEN_CONNECTIONS: [Row; 3] = [
    Row {
        script: &[INTERRUPTED, Next::Client, ABORTED, EMFILE, Next::Client],
        sessions: 2,
        clients: 2,
        last_first: false,
        ended: Ok(()),
    },
    Row {
        script: &[Next::Client, ABORTED, EMFILE, ENFILE, EMFILE, Next::Client],
        sessions: 2,
        clients: 2,
        last_first: true,
        ended: Ok(()),
    },
    Row {
        script: &[Next::Client, DENIED, EBADF, DENIED, Next::Client],
        sessions: 2,
        clients: 2,
        last_first: true,
        ended: Ok(()),
    },
];

/// Want of descriptors and of memory before the first connection.
static BEFORE_THE_FIRST_SESSION: Row = Row {
    script: &[EMFILE, ENFILE, ENOBUFS, ENOMEM, EMFILE, Next::Client],
    sessions: 1,
    clients: 1,
    last_first: false,
    ended: Ok(()),
};

static AFTER_THE_LAST_SESSION: Row = Row {
    script: &[Next::Client],
    sessions: 2,
    clients: 1,
    last_first: false,
    ended: Err(Some(ErrorKind::Other)),
};

static WITH_NO_SESSION: [Row; 3] = [
    Row {
        script: &[DENIED],
        sessions: 1,
        clients: 0,
        last_first: false,
        ended: Err(Some(ErrorKind::PermissionDenied)),
    },
    Row {
        script: &[ABORTED, ENFILE, Next::Fault(ErrorKind::InvalidInput)],
        sessions: 1,
        clients: 0,
        last_first: false,
        ended: Err(Some(ErrorKind::InvalidInput)),
    },
    Row {
        script: &[],
        sessions: 0,
        clients: 0,
        last_first: false,
        ended: Ok(()),
    },
];

/// How a server ends that takes its connections by a script.
fn ended<R: Threads + Wait + Clock + Sync + AllocGlobal>(
    rt: &R,
    clients: &UnixListener,
    row: &Row,
) -> Result<(), Option<ErrorKind>> {
    let listener = Scripted {
        clients,
        script: row.script,
        given: Cell::new(0),
    };
    let alloc = rt.alloc();
    match serve_on(
        rt,
        alloc,
        alloc,
        &listener,
        &Anybody { workers: 1 },
        1,
        Some(row.sessions),
    ) {
        Ok(()) => Ok(()),
        Err(ServerFault::NoMemory) => Err(None),
        Err(ServerFault::Listener(error)) => Err(Some(error.kind())),
    }
}

/// Whether clients take their leave, and their server ends as it should.
fn end_well<R: Threads + Wait + Clock + Sync + AllocGlobal>(
    rt: &R,
    listener: &UnixListener,
    row: &Row,
    clients: &mut [Client],
) -> bool {
    let (leave, ended) = thread::join(
        rt,
        || clients.iter_mut().all(|client| client.takes_leave()),
        || ended(rt, listener, row),
    );
    leave && ended == row.ended
}

/// The same of a new server and new clients.
fn is_right<R: Files + Net + Threads + Wait + Clock + Sync + AllocGlobal>(
    rt: &R,
    row: &Row,
) -> bool {
    let mut clients = Vec::new(rt.alloc());
    match listen(rt) {
        Ok((listener, address)) => {
            if !connect_all(rt, &address, row.clients, &mut clients) {
                return false;
            }
            if row.last_first {
                clients.reverse();
            }
            end_well(rt, &listener, row, clients.as_mut_slice())
        }
        Err(_) => false,
    }
}

#[test]
fn a_failure_beside_a_session_is_passed_over(rt: HostRuntime) {
    for (i, row) in BETWEEN_CONNECTIONS.iter().enumerate() {
        assert!(rt; is_right(&rt, row), "row {i}");
    }
}

#[test]
fn want_before_the_first_session_is_passed_over(rt: HostRuntime) {
    assert!(rt; is_right(&rt, &BEFORE_THE_FIRST_SESSION));
}

/// How often no descriptor is free after the end of the first session.
const FAILURES: u32 = 4;

/// A listener that finds no descriptor from the end of the first session on, so many times.
#[derive(Drop)]
struct Starved<'s> {
    clients: &'s UnixListener,
    /// How many calls it has answered.
    calls: Cell<u32>,
    /// 1 once the first session has ended.
    over: &'s AtomicU64,
}

impl Listener for Starved<'_> {
    fn next_connection(&self) -> io::Result<UnixStream> {
        let calls = self.calls.get();
        self.calls.set(calls.wrapping_add(1));
        if calls == 0 || calls > FAILURES {
            return self.clients.next_connection();
        }
        for _ in 0..u64::MAX {
            if self.over.load(Ordering::SeqCst) == 1 {
                break;
            }
            thread::yield_now();
        }
        Err(io::Error::from_raw_os_error(24))
    }
}

/// Whether a client loads rules, and another finds them after the end of its session.
fn rules_stay<R: Net + AllocGlobal>(rt: &R, address: &SocketAddr, over: &AtomicU64) -> bool {
    let loads = match Client::connect(rt, address) {
        Some(mut first) => first.replies(LOAD, "loaded 2\n") && first.takes_leave(),
        None => false,
    };
    over.store(1, Ordering::SeqCst);
    loads && plays(rt, address, &[(LOAD, "fault E20 AlreadyLoaded\n")])
}

/// The same of a server that finds no descriptor between them, and whether it ends well.
fn rules_stay_starved<R: Files + Net + Threads + Wait + Clock + Sync + AllocGlobal>(
    rt: &R,
) -> Option<(bool, bool)> {
    let (listener, address) = listen(rt).ok()?;
    let clients = &listener;
    let flag = AtomicU64::new(0);
    let over = &flag;
    let serve = || -> bool
        requires { IsSync R.row }
    {
        let starved = Starved {
            clients,
            calls: Cell::new(0),
            over,
        };
        let alloc = rt.alloc();
        serve_on(
            rt,
            alloc,
            alloc,
            &starved,
            &Anybody { workers: 1 },
            1,
            Some(2),
        )
        .is_ok()
    };
    Some(thread::join(rt, serve, || rules_stay(rt, &address, over)))
}

#[test]
fn a_book_stays_where_no_descriptor_is_free(rt: HostRuntime) {
    assert_eq!(rt; rules_stay_starved(&rt), Some((true, true)));
}

#[test]
fn a_failure_ends_it_once_the_last_session_has_ended(rt: HostRuntime) {
    assert!(rt; is_right(&rt, &AFTER_THE_LAST_SESSION));
}

#[test]
fn a_failure_with_no_session_ends_it(rt: HostRuntime) {
    for (i, row) in WITH_NO_SESSION.iter().enumerate() {
        assert!(rt; is_right(&rt, row), "row {i}");
    }
}
