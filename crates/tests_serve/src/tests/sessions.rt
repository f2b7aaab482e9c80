//! Sessions of clients that read what they are told.
use crate::tests::client::{
    COMPOUND, Client, LOAD, NO_SEAT, NUMBERS, Rules, connect_all, found_at, plays,
};
use std::alloc::AllocGlobal;
use std::net::Net;
use std::os::unix::net::SocketAddr;
use std::sync::atomic::{AtomicU64, Ordering};
use std::test::*;
use std::thread;
use std::thread::Threads;

/// What one client does: it loads and posts, and reads the store and the log of a quiet book.
fn is_served<R: Net + AllocGlobal>(rt: &R, address: &SocketAddr) -> bool {
    match Client::connect(rt, address) {
        Some(mut client) => {
            client.plays(&[
                (LOAD, "loaded 2\n"),
                ("post gcd(9), gcd(6).\r\n", "posted 1 2\n"),
            ]) && client.tell("wait 1000\n")
                && matches!(client.reply(), Ok("quiet\n" | "open\n"))
                && client.becomes_quiet()
                && client.ends_with(NUMBERS, 3)
                && client.takes_leave()
        }
        None => false,
    }
}

#[test]
fn a_session_of_two_workers(rt: HostRuntime) {
    let served = found_at(&rt, 2, 1, |address| is_served(&rt, address));
    assert_eq!(rt; served, Some(true));
}

/// Whether two sessions each find at once what they have posted.
fn find_their_posts(first: &mut Client, second: &mut Client) -> bool {
    first.replies(LOAD, "loaded 2\n")
        && first.tell("post gcd(9), gcd(6).\nlog 1\n")
        && second.tell("post gcd(8), gcd(4).\nlog 1\n")
        && first.finds_posts(NUMBERS, (9, 6))
        && second.finds_posts(NUMBERS, (8, 4))
}

/// The same of two new connections.
fn both_find<R: Net + AllocGlobal>(rt: &R, address: &SocketAddr) -> bool {
    match (Client::connect(rt, address), Client::connect(rt, address)) {
        (Some(mut first), Some(mut second)) => find_their_posts(&mut first, &mut second),
        _ => false,
    }
}

#[test]
fn two_sessions_find_their_posts(rt: HostRuntime) {
    let found = found_at(&rt, 2, 2, |address| both_find(&rt, address));
    assert_eq!(rt; found, Some(true));
}

/// Whether a seventeenth client is refused while sixteen have a session.
fn seventeenth_is_refused<R: Net + AllocGlobal>(rt: &R, address: &SocketAddr) -> bool {
    let mut sixteen = Vec::new(rt.alloc());
    connect_all(rt, address, 16, &mut sixteen) && plays(rt, address, &NO_SEAT)
}

#[test]
fn seventeen_connections(rt: HostRuntime) {
    let refused = found_at(&rt, 1, 17, |address| seventeenth_is_refused(&rt, address));
    assert_eq!(rt; refused, Some(true));
}

/// Whether a client finds two numbers of its own that it posts.
fn finds_its_posts(client: &mut Client, rules: Rules, at: usize) -> bool {
    let number = (at as u64).wrapping_add(1).wrapping_mul(12);
    let numbers = (number, number.wrapping_mul(5));
    match rules.post_and_log(client.alloc, numbers) {
        Ok(post) => {
            client.tell(post.as_str())
                && client.finds_posts(rules, numbers)
                && client.becomes_quiet()
        }
        Err(_) => false,
    }
}

/// Whether clients that post at once each find their own posts.
fn all_find<R: Threads + Sync>(rt: &R, rules: Rules, clients: &mut [Client]) -> bool {
    let found = AtomicU64::new(0);
    thread::for_each_mut(
        rt,
        clients,
        16,
        &|at, client| {
            if finds_its_posts(client, rules, at) {
                found.fetch_add(1, Ordering::SeqCst);
            }
        },
    );
    found.load(Ordering::SeqCst) == 16
}

/// The same after the first has loaded, and whether the last is then told a log that the check accepts.
fn all_find_and_end<R: Threads + Sync>(rt: &R, rules: Rules, clients: &mut [Client]) -> bool {
    let loads = match clients.first_mut() {
        Some(first) => first.replies(rules.load, "loaded 2\n"),
        None => false,
    };
    loads
        && all_find(rt, rules, clients)
        && match clients.last_mut() {
            Some(last) => last.ends_with(rules, 12),
            None => false,
        }
}

/// The same of sixteen new connections.
fn sixteen_post<R: Net + Threads + Sync + AllocGlobal>(
    rt: &R,
    rules: Rules,
    address: &SocketAddr,
) -> bool {
    let mut clients = Vec::new(rt.alloc());
    connect_all(rt, address, 16, &mut clients)
        && all_find_and_end(rt, rules, clients.as_mut_slice())
}

#[test]
fn sixteen_sessions_post_at_once(rt: HostRuntime) {
    for round in 0..12 {
        let rules = if round % 4 == 3 { COMPOUND } else { NUMBERS };
        let found = found_at(&rt, 4, 16, |address| sixteen_post(&rt, rules, address));
        assert_eq!(rt; found, Some(true), "round {round}");
    }
}
