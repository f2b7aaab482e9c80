//! Workers that are told in time, and sessions that look in time.
use crate::tests::beside::{is_right, is_right_on};
use crate::tests::play::Step::{
    Announces, BecomesQuiet, Judges, LooksTwice, Open, Posts, Refuses, Sleep, Tells, Waits, Yields,
};
use crate::tests::play::{Before, NONE, Play};
use crate::tests::runs::{GCD, MANY, open};
use refusing::Refusing;
use std::alloc::{AllocError, Global};
use std::sync::Wait;
use std::test::*;
use std::thread::Threads;

/// Nothing beside one worker.
const ONE_WORKER: Play = Play { workers: 1, ..NONE };

/// A session that posts when the worker is probably asleep.
static WAKES: Play = Play {
    task: (GCD, ""),
    steps: &[Yields, Posts(b"gcd(9), gcd(6).", 1, 2), BecomesQuiet],
    ..ONE_WORKER
};

#[test]
fn a_post_wakes_a_sleeper(rt: HostRuntime) {
    assert_eq!(rt; is_right(&rt, rt.alloc(), &WAKES), Some(true));
}

/// A session that posts again and again while the worker sleeps, and looks twice each time.
static LOOKS_TWICE: Play = Play {
    task: ("a <=> true.", ""),
    steps: &[Sleep(1), LooksTwice(1000)],
    ..ONE_WORKER
};

#[test]
fn who_is_told_counts_as_awake(rt: HostRuntime) {
    assert_eq!(rt; is_right(&rt, rt.alloc(), &LOOKS_TWICE), Some(true));
}

/// A session that waits for the end of a run.
static WAITS: Play = Play {
    task: (GCD, "gcd(9), gcd(6)."),
    tickets: 2,
    steps: &[Waits(u32::MAX)],
    ..ONE_WORKER
};

/// Whether a `wait` comes to the end of a run with request number `n` refused, and whether one was. None where it was refused
/// before the worker had begun.
fn ends_though_refused<R: Threads + Wait + Sync>(
    rt: &R,
    memory: &Refusing<Global>,
    pool: Global,
    n: u64,
) -> Option<(bool, bool)> {
    let (program, posts) = WAITS.task;
    let book = open(memory, program, posts)?;
    memory.refuse(n);
    let ends = is_right_on(rt, memory, pool, book, &WAITS);
    let refused = memory.was_refused();
    memory.refuse(0);
    Some((ends?, refused))
}

/// The last request of such a run; as an `Err` the first whose refusal leaves it open.
fn last_request<R: Threads + Wait + Sync>(rt: &R, pool: Global) -> Result<u64, u64> {
    for n in 1..1000u64 {
        let memory = Refusing::new(pool, 0);
        match ends_though_refused(rt, &memory, pool, n) {
            None | Some((true, true)) => (),
            Some((true, false)) => return Ok(n - 1),
            Some((false, _)) => return Err(n),
        }
    }
    Err(0)
}

#[test]
fn a_wait_tells_a_worker_that_had_no_memory(rt: HostRuntime) {
    let last = last_request(&rt, rt.alloc());
    // The first two are those of the seats.
    assert!(rt; matches!(last, Ok(3..)), "{last:?}");
}

/// A session that announces something new while the worker judges, and nothing afterwards. The first judgement waits for that,
/// and then the next request for memory is refused. The firing needs memory, since it adds sixteen goals.
static ANNOUNCES: Play = Play {
    task: (
        "a <=> b, b, b, b, b, b, b, b, b, b, b, b, b, b, b, b.",
        "a.",
    ),
    tickets: 1,
    before: Before::Meets(1),
    steps: &[Judges, Announces, Refuses, Tells, BecomesQuiet],
    ..ONE_WORKER
};

/// Whether a worker that is refused memory behind something new looks again by itself. None where memory ran out.
fn looks_again<R: Threads + Wait + Sync>(
    rt: &R,
    memory: &Refusing<Global>,
    pool: Global,
) -> Option<bool> {
    let (program, posts) = ANNOUNCES.task;
    let book = open(memory, program, posts)?;
    let quiet = is_right_on(rt, memory, pool, book, &ANNOUNCES)?;
    Some(quiet && memory.was_refused())
}

#[test]
fn news_during_a_refused_call_is_not_slept_over(rt: HostRuntime) {
    let memory = Refusing::new(rt.alloc(), 0);
    assert_eq!(rt; looks_again(&rt, &memory, rt.alloc()), Some(true));
}

/// How many constraints there are of each of two names, whose pairs one goal tries.
const EACH: u64 = 520;

/// The ticket of that goal.
const LONG: u64 = 1_041;

/// A judgement far behind the first: more than 1,024 holds lie between, of up to 256 judgements each.
const FAR: u64 = 265_000;

/// The posts `n(0), m(0)` and so on, and `go` behind them.
fn pairs(alloc: Global) -> Result<String<Global>, AllocError> {
    let mut text = String::new(alloc);
    for k in 0..EACH {
        let post = format!(in alloc; "n({k}), m({k}).\n")?;
        text.push_str(post.as_str())?;
    }
    text.push_str("go.\n")?;
    Ok(text)
}

/// Whether a session is answered within a long goal: its first judgement waits until the session has looked, and a late one
/// until it was answered. None where memory ran out.
fn is_answered_between<R: Threads + Wait + Sync>(rt: &R, alloc: Global) -> Option<bool> {
    let posts = pairs(alloc).ok()?;
    let play = Play {
        task: ("go, n(X), m(Y) <=> X + Y =:= -1 | true.", posts.as_str()),
        tickets: LONG,
        before: Before::WaitsTwice(LONG, FAR),
        steps: &[Judges, Open(1, MANY), Tells],
        ..ONE_WORKER
    };
    is_right(rt, alloc, &play)
}

#[test]
fn a_wait_looks_into_a_long_goal(rt: HostRuntime) {
    assert_eq!(rt; is_answered_between(&rt, rt.alloc()), Some(true));
}
