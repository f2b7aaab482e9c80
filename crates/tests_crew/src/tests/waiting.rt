//! A wait that no worker can end, a worker whose crew is closed, and one that finds a ticket that the inlet refused.
use crate::tests::beside::is_right;
use crate::tests::play::Step::{News, Open, Posts, PostsAndWorks, Stores, Stray, Waits, Works};
use crate::tests::play::{Before, NONE, Play};
use crate::tests::runs::MANY;
use chr_crew::Stop;
use std::test::*;

/// A session that waits where the only worker has ended.
static NOBODY: Play = Play {
    task: ("", "a."),
    steps: &[Works(Stop::Turns(0)), Open(u32::MAX, 2)],
    ..NONE
};

#[test]
fn a_wait_ends_where_no_worker_is_awake(rt: HostRuntime) {
    assert_eq!(rt; is_right(&rt, rt.alloc(), &NOBODY), Some(true));
}

/// Forty partners and an atom that looks for them.
const FORTY: &str =
    "b(1), b(2), b(3), b(4), b(5), b(6), b(7), b(8), b(9), b(10), b(1), b(2), b(3), b(4), b(5), b(6), b(7), b(8), b(9), b(10), b(1), b(2), b(3), b(4), b(5), b(6), b(7), b(8), b(9), b(10), b(1), b(2), b(3), b(4), b(5), b(6), b(7), b(8), b(9), b(10), a(1).";

/// A crew that is closed while its goal, of ticket 41, has many trials left: it has partners and no instance.
static CLOSED_IN_A_GOAL: Play = Play {
    task: ("a(X), b(Y) <=> X + Y =:= -1 | true.", FORTY),
    tickets: 41,
    before: Before::Closes(41),
    steps: &[Works(Stop::Closed), Stray(41)],
    ..NONE
};

#[test]
fn a_closed_crew_puts_its_goal_down(rt: HostRuntime) {
    assert_eq!(rt; is_right(&rt, rt.alloc(), &CLOSED_IN_A_GOAL), Some(true));
}

/// Forty posts: the queue asks for memory at the 31st, the last that its first block takes.
const FORTY_POSTS: &[u8] =
    b"a,a,a,a,a,a,a,a,a,a,a,a,a,a,a,a,a,a,a,a,a,a,a,a,a,a,a,a,a,a,a,a,a,a,a,a,a,a,a,a.";

/// A session that posts, where one request for memory may be refused, and a worker that works until it finds no ticket.
static POSTS_FORTY: Play = Play {
    task: ("a <=> true.", ""),
    steps: &[PostsAndWorks(FORTY_POSTS, 1, 40), Waits(0)],
    ..NONE
};

/// This holds whatever request is refused: a ticket that the inlet refuses is found all the same. A plain run refuses none;
/// `rt try --test --fail-alloc N` with the number of the queue's request does.
#[test]
fn a_ticket_that_the_inlet_refuses_is_worked_on(rt: HostRuntime) {
    let mut right = None;
    for _ in 0..2u64 {
        if right.is_none() {
            right = is_right(&rt, rt.alloc(), &POSTS_FORTY);
        }
    }
    assert_eq!(rt; right, Some(true));
}

/// Nothing but one ticket from the start.
const ONE_TICKET: Play = Play { tickets: 1, ..NONE };

/// How often something new is announced: at a firing that gives two, at one that gives one, and by a worker that leaves its
/// goal.
static ANNOUNCED: [Play; 3] = [
    Play {
        task: ("go <=> a, b.", "go."),
        steps: &[Works(Stop::Turns(MANY)), News(1)],
        ..ONE_TICKET
    },
    Play {
        task: ("go <=> a.", "go."),
        steps: &[Works(Stop::Turns(MANY)), News(0)],
        ..ONE_TICKET
    },
    Play {
        task: ("go <=> a, b.", "go."),
        steps: &[Works(Stop::Turns(1)), News(1)],
        ..ONE_TICKET
    },
];

#[test]
fn what_others_may_take_is_announced(rt: HostRuntime) {
    for (i, play) in ANNOUNCED.iter().enumerate() {
        assert_eq!(rt; is_right(&rt, rt.alloc(), play), Some(true), "row {i}");
    }
}

/// A session whose post of two is announced once, when the pool has both tickets.
static POSTED_ONCE: Play = Play {
    steps: &[Posts(b"a, b.", 1, 2), News(1)],
    ..NONE
};

#[test]
fn a_post_is_announced_once(rt: HostRuntime) {
    assert_eq!(rt; is_right(&rt, rt.alloc(), &POSTED_ONCE), Some(true));
}

/// A worker whose own tickets never end, and one that a session posts.
static BESIDE_A_CHAIN: Play = Play {
    task: ("a <=> a.\nd <=> e.\n", "a."),
    steps: &[
        Posts(b"d.", 2, 1),
        Works(Stop::Turns(10_000)),
        Stores(b" e\n"),
    ],
    ..ONE_TICKET
};

#[test]
fn a_post_is_taken_up_beside_a_chain_without_end(rt: HostRuntime) {
    assert_eq!(rt; is_right(&rt, rt.alloc(), &BESIDE_A_CHAIN), Some(true));
}
