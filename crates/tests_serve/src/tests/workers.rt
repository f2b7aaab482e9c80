//! Goals that are worked on at once.
use crate::tests::client::{Client, found_at, has_part};
use std::alloc::{AllocError, AllocGlobal};
use std::net::Net;
use std::os::unix::net::SocketAddr;
use std::test::*;

/// The goal of an `a` tries each older `b` with each older `c` and so on, and fires with none; an `s` fires at once.
const LOAD: &str =
    "load 73\na(U),b(V),c(W),d(X),e(Y),f(Z) <=> U+V+W+X+Y+Z =:= -1 | true.\ns <=> true.\n";

/// How many there are of each name but `a` and `s`. The goal of an `a` then has ten thousand million trials, which take
/// hours.
const EACH: u64 = 100;

/// How many tickets these take.
const POSTED: u64 = 500;

/// Adds the command that posts this name with each number below `count` to a text.
fn push_post(text: &mut String, name: &str, count: u64) -> Result<(), AllocError> {
    for k in 0..count {
        let start = if k == 0 { "post " } else { "," };
        write!(text, "{start}{name}({k})")?;
    }
    text.push_str(".\n")
}

/// Whether a client can post each of these names with each number below `count`.
pub fn posts_each(client: &mut Client, names: &[&str], count: u64) -> bool {
    let mut post = String::new(client.alloc);
    for name in names {
        post.clear();
        if push_post(&mut post, name, count).is_err()
            || !client.tell(post.as_str())
            || client.reply().is_err()
        {
            return false;
        }
    }
    true
}

/// Waits until the log has an entry that begins with this letter and ticket. Whether it could read the log so long.
fn sees_entry(client: &mut Client, letter: &str, ticket: u64) -> bool {
    let alloc = client.alloc;
    for _ in 0..u64::MAX {
        if !client.tell("log 1\n") {
            return false;
        }
        match client.reply() {
            Ok(log) if has_part(log, format!(in alloc; "\n{letter} {ticket} ")) => return true,
            Ok(log) if log.starts_with("log ") => {}
            _ => return false,
        }
    }
    false
}

/// Whether a post of one constraint is answered by this ticket.
fn posts_one(client: &mut Client, post: &str, ticket: u64) -> bool {
    match format!(in client.alloc; "posted {ticket} 1\n") {
        Ok(posted) => client.replies(post, posted.as_str()),
        Err(_) => false,
    }
}

/// Whether so many long goals can be begun, none of which ends.
fn begins_long_goals(client: &mut Client, count: u64) -> bool {
    for k in 0..count {
        let ticket = POSTED.wrapping_add(1).wrapping_add(k);
        if !posts_one(client, "post a(0).\n", ticket) || !sees_entry(client, "A", ticket) {
            return false;
        }
    }
    true
}

/// Whether a short goal fires beside so many long ones, each of which has a worker until the server ends. A server with no
/// worker more never comes to it.
fn fires_beside(client: &mut Client, long: u64) -> bool {
    let ticket = POSTED.wrapping_add(1).wrapping_add(long);
    client.replies(LOAD, "loaded 2\n")
        && posts_each(client, &["b", "c", "d", "e", "f"], EACH)
        && client.becomes_quiet()
        && begins_long_goals(client, long)
        && posts_one(client, "post s.\n", ticket)
        && sees_entry(client, "F", ticket)
}

/// Whether as many workers as that work at once for a client. It goes away then.
pub fn work_at_once(client: Option<Client>, workers: u64) -> bool {
    match client {
        Some(mut client) => fires_beside(&mut client, workers.wrapping_sub(1)),
        None => false,
    }
}

/// The same of a new connection.
fn found_at_work<R: Net + AllocGlobal>(rt: &R, address: &SocketAddr, workers: u64) -> bool {
    work_at_once(Client::connect(rt, address), workers)
}

#[test]
fn two_workers_work_at_once(rt: HostRuntime) {
    let found = found_at(&rt, 2, 1, |address| found_at_work(&rt, address, 2));
    assert_eq!(rt; found, Some(true));
}
