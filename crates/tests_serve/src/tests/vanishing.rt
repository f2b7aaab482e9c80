//! Clients that vanish, that send what is no command, and that never read.
use crate::tests::client::{
    Client, LOAD, connect_all, found_at, found_until, is_added, listen, plays,
};
use std::alloc::AllocGlobal;
use std::fs::Files;
use std::io::{self, Write};
use std::net::Net;
use std::os::fd::AsRawFd;
use std::os::unix::net::{SocketAddr, UnixStream};
use std::test::*;

/// How many pairs of sockets are opened. These are more descriptors than the tests here have open at once.
const PAIRS: usize = 64;

/// The greatest number of the descriptors of so many new pairs. Since the system gives the least numbers that are free, it
/// grows by one with each descriptor that was open before, whatever the numbers of these are.
fn greatest_descriptor<R: Net + AllocGlobal>(rt: &R) -> Option<i32> {
    let mut pairs = Vec::new(rt.alloc());
    for _ in 0..PAIRS {
        pairs.push(UnixStream::pair(rt).ok()?).ok()?;
    }
    let (one, other) = pairs.last()?;
    Some(one.as_raw_fd().max(other.as_raw_fd()))
}

/// What clients tell that don't end it.
static UNENDED: [&str; 3] = [
    "post gcd(8), gcd(",
    "load 75\ngcd(0) <=",
    "\0\u{7f}wait\nload\n\n)\npost\u{1}(",
];

/// A client whose replies are longer than what the system keeps for a client that doesn't read them.
fn asker<R: Net + AllocGlobal>(rt: &R, address: &SocketAddr) -> Option<Client> {
    match "log 1\n".repeat(rt.alloc(), 5000) {
        Ok(logs) => Client::that_tells(rt, address, logs.as_str()),
        Err(_) => None,
    }
}

/// Adds clients that don't end what they say, and one that asks for much and reads nothing. Whether it could.
fn adds_bad<R: Net + AllocGlobal>(rt: &R, address: &SocketAddr, clients: &mut Vec<Client>) -> bool {
    for told in UNENDED {
        if !is_added(clients, Client::that_tells(rt, address, told)) {
            return false;
        }
    }
    is_added(clients, asker(rt, address))
}

/// Whether a client is served as ever beside bad ones.
fn goes_on<R: Net + AllocGlobal>(rt: &R, address: &SocketAddr, client: &mut Client) -> bool {
    let mut bad = Vec::new(rt.alloc());
    adds_bad(rt, address, &mut bad)
        && client.becomes_quiet()
        && client.replies("post gcd(7).\n", "posted 5 1\n")
        && client.becomes_quiet()
}

/// Whether a new client finds the book quiet.
fn finds_quiet<R: Net + AllocGlobal>(rt: &R, address: &SocketAddr) -> bool {
    match Client::connect(rt, address) {
        Some(mut client) => client.becomes_quiet(),
        None => false,
    }
}

/// Whether a new client and one that comes after the bad ones are served as ever.
fn others_go_on<R: Net + AllocGlobal>(rt: &R, address: &SocketAddr) -> bool {
    match Client::connect(rt, address) {
        Some(mut client) => {
            client.plays(&[
                (LOAD, "loaded 2\n"),
                ("post gcd(9), gcd(6).\n", "posted 1 2\n"),
            ]) && goes_on(rt, address, &mut client)
                && finds_quiet(rt, address)
        }
        None => false,
    }
}

#[test]
fn bad_clients_cost_their_own_sessions(rt: HostRuntime) {
    let go_on = found_at(&rt, 2, 6, |address| others_go_on(&rt, address));
    assert_eq!(rt; go_on, Some(true));
}

/// Opens and cuts connections, some of them in mid-load.
fn open_and_cut<R: Net>(rt: &R, address: &SocketAddr, count: u32) -> io::Result<()> {
    for k in 0..count {
        let mut stream = UnixStream::connect_addr(rt, address)?;
        if k % 3 == 0 {
            // The server may have refused it.
            let _ = stream.write_all(b"load 40\nten bytes!");
        }
    }
    Ok(())
}

/// A new client with a seat, whose `wait 0` has this reply. None where it finds no seat.
fn seated<R: Net + AllocGlobal>(rt: &R, address: &SocketAddr, reply: &str) -> Option<Client> {
    match Client::connect(rt, address) {
        Some(mut client) => client.replies("wait 0\n", reply).then_some(client),
        None => None,
    }
}

/// Waits for a seat: connects again after each connection that finds none.
fn seated_at_last<R: Net + AllocGlobal>(
    rt: &R,
    address: &SocketAddr,
    reply: &str,
) -> Option<Client> {
    for _ in 0..u64::MAX {
        let client = seated(rt, address, reply);
        if client.is_some() {
            return client;
        }
    }
    None
}

/// How many connections are opened and cut.
const CUT: u32 = 10_000;

/// Waits for sixteen seats. The greatest descriptor beside the clients that have them.
fn greatest_beside_sixteen<R: Net + AllocGlobal>(rt: &R, address: &SocketAddr) -> Option<i32> {
    let mut clients = Vec::new(rt.alloc());
    for _ in 0..16 {
        if !is_added(&mut clients, seated_at_last(rt, address, "quiet\n")) {
            return None;
        }
    }
    // Each of the sixteen threads has a session now, so it has closed those before.
    greatest_descriptor(rt)
}

/// The same after a client has loaded and ten thousand connections were cut.
fn greatest_after_cuts<R: Net + AllocGlobal>(rt: &R, address: &SocketAddr) -> Option<i32> {
    let loads = plays(rt, address, &[(LOAD, "loaded 2\n")]);
    open_and_cut(rt, address, CUT).ok()?;
    let greatest = greatest_beside_sixteen(rt, address)?;
    loads.then_some(greatest)
}

/// The greatest descriptor beside a listener and sixteen connections, of which both ends are open.
fn greatest_beside_pairs<R: Files + Net + AllocGlobal>(rt: &R) -> Option<i32> {
    let (_listener, _) = listen(rt).ok()?;
    let mut pairs = Vec::new(rt.alloc());
    for _ in 0..16 {
        pairs.push(UnixStream::pair(rt).ok()?).ok()?;
    }
    greatest_descriptor(rt)
}

#[test]
fn nothing_is_left_of_ten_thousand_connections(rt: HostRuntime) {
    let before = greatest_descriptor(&rt);
    let beside_pairs = greatest_beside_pairs(&rt);
    let found = found_until(&rt, 2, |address| greatest_after_cuts(&rt, address));
    let more = match (found, beside_pairs) {
        (Some(Some(found)), Some(beside_pairs)) => found.wrapping_sub(beside_pairs),
        _ => -1,
    };
    // The system keeps a number for the connection that a server waits for, once it waits.
    assert!(rt; matches!(more, 0 | 1), "{found:?} {beside_pairs:?}");
    assert_eq!(rt; greatest_descriptor(&rt), before);
}

/// Whether a client can wait for a run without an end. It goes away then.
fn waits<R: Net + AllocGlobal>(rt: &R, address: &SocketAddr) -> bool {
    match Client::connect(rt, address) {
        Some(mut client) => {
            client.plays(&[
                ("load 9\na <=> a.\n", "loaded 1\n"),
                ("post a.\n", "posted 1 1\n"),
            ]) && client.tell("wait 4294967295\n")
        }
        None => false,
    }
}

/// Whether the seat comes back, while fifteen others are out, of a client that went away in a long `wait`.
fn seat_comes_back<R: Net + AllocGlobal>(rt: &R, address: &SocketAddr) -> bool {
    let mut others = Vec::new(rt.alloc());
    connect_all(rt, address, 15, &mut others)
        && waits(rt, address)
        && seated_at_last(rt, address, "open\n").is_some()
}

#[test]
fn a_seat_comes_back_after_a_wait(rt: HostRuntime) {
    let found = found_until(&rt, 2, |address| seat_comes_back(&rt, address));
    // The server ends, though the run doesn't.
    assert_eq!(rt; found, Some(true));
}
