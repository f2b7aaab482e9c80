//! A goal that outlasts its server.
use crate::tests::client::{Client, found_at};
use crate::tests::workers::posts_each;
use std::alloc::AllocGlobal;
use std::net::Net;
use std::os::unix::net::SocketAddr;
use std::test::*;

/// The goal of an `a` tries each older `b` with each older `c` and so on, and fires with none.
const LOAD: &str = "load 61\na(U),b(V),c(W),d(X),e(Y),f(Z) <=> U+V+W+X+Y+Z =:= -1 | true.\n";

/// How many there are of each other name. The goal of an `a` then has ten thousand million trials, which take hours.
const EACH: u64 = 100;

/// Whether a `wait` for one look is answered while a worker is at such a goal. The goals of the other names are short, since
/// they find no `a`.
fn is_answered<R: Net + AllocGlobal>(rt: &R, address: &SocketAddr) -> bool {
    match Client::connect(rt, address) {
        Some(mut client) => {
            client.replies(LOAD, "loaded 1\n")
                && posts_each(&mut client, &["b", "c", "d", "e", "f"], EACH)
                && client.becomes_quiet()
                && client.plays(&[("post a(0).\n", "posted 501 1\n"), ("wait 1\n", "open\n")])
        }
        None => false,
    }
}

#[test]
fn a_long_goal_holds_up_no_wait_and_no_end(rt: HostRuntime) {
    let answered = found_at(&rt, 1, 1, |address| is_answered(&rt, address));
    // The server ends, though the goal isn't done.
    assert_eq!(rt; answered, Some(true));
}
