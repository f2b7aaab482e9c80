//! Clients that send what no session reads.
use crate::tests::client::{Client, NO_SEAT, connect_all, found_at, found_beside, listen};
use std::alloc::{AllocError, AllocGlobal, Global};
use std::net::Net;
use std::os::unix::net::{SocketAddr, UnixListener};
use std::rt::Clock;
use std::sync::Wait;
use std::test::*;
use std::thread::Threads;

/// More than a session reads at once.
const BEHIND: usize = 100_000;

/// A command that ends a session, and many bytes behind it.
fn quit_and_more(alloc: Global) -> Result<String, AllocError> {
    let more = "x".repeat(alloc, BEHIND)?;
    format!(in alloc; "quit\n{more}")
}

/// Whether a client that has sent bytes behind the end of its session comes to the end of its replies, without a failure.
fn ends_behind_quit<R: Net + AllocGlobal>(rt: &R, address: &SocketAddr) -> bool {
    match (Client::connect(rt, address), quit_and_more(rt.alloc())) {
        (Some(mut client), Ok(sent)) => {
            // The session may have ended before all is sent.
            client.tell(sent.as_str());
            client.plays(&[("", "bye\n"), ("", "")])
        }
        _ => false,
    }
}

#[test]
fn bytes_behind_quit_reset_no_client(rt: HostRuntime) {
    let ends = found_at(&rt, 1, 1, |address| ends_behind_quit(&rt, address));
    assert_eq!(rt; ends, Some(true));
}

/// Whether the last client is told that there is no seat, and comes to the end of its replies; then the others go away.
fn last_is_refused(sixteen: &mut Vec<Client>, last: &mut Client) -> bool {
    let told = last.plays(&NO_SEAT);
    sixteen.clear();
    told
}

/// The same where all have connected, and the last has sent its command, before any connection is taken.
fn late_client_is_refused<R: Net + Threads + Wait + Clock + Sync + AllocGlobal>(
    rt: &R,
    listener: &UnixListener,
    address: &SocketAddr,
) -> Option<bool> {
    let mut sixteen = Vec::new(rt.alloc());
    if !connect_all(rt, address, 16, &mut sixteen) {
        return None;
    }
    match Client::that_tells(rt, address, "wait 0\n") {
        Some(mut last) => found_beside(
            rt,
            rt.alloc(),
            listener,
            1,
            17,
            || last_is_refused(&mut sixteen, &mut last),
        ),
        None => None,
    }
}

#[test]
fn bytes_without_a_seat_reset_no_client(rt: HostRuntime) {
    let refused = match listen(&rt) {
        Ok((listener, address)) => late_client_is_refused(&rt, &listener, &address),
        Err(_) => None,
    };
    assert_eq!(rt; refused, Some(true));
}
