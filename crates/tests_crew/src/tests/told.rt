//! Two workers, of which one is told of what the other leaves.
use crate::tests::beside::is_right;
use crate::tests::play::Step::{BecomesQuiet, HaveMet, Posts, Sleep, Waits};
use crate::tests::play::{Before, NONE, Play};
use chr_crew::Stop;
use std::test::*;

/// A session that posts a goal whose firing gives two once both workers sleep, and waits for the end of the run. The two goals
/// are to be judged by two workers at once.
static SHARES_A_FIRING: Play = Play {
    task: ("go <=> a, b.\na <=> true.\nb <=> true.\n", ""),
    workers: 2,
    before: Before::Meets(2),
    steps: &[Sleep(2), Posts(b"go.", 1, 1), Waits(u32::MAX), HaveMet],
    ..NONE
};

#[test]
fn a_firing_that_gives_two_tells_a_sleeper(rt: HostRuntime) {
    assert_eq!(rt; is_right(&rt, rt.alloc(), &SHARES_A_FIRING), Some(true));
}

/// Two workers that come to the end of a chain of a hundred firings, which is too long for one: it takes 304 turns, and each has
/// more than half of them. The first judgement waits until the other worker sleeps.
static SHARES_A_CHAIN: Play = Play {
    task: ("c(N) <=> 0 < N | M is N - 1, c(M).\n", "c(100)."),
    workers: 2,
    stop: Stop::Turns(200),
    tickets: 1,
    before: Before::WaitsForASleeper,
    steps: &[BecomesQuiet],
};

#[test]
fn a_worker_that_leaves_tells_a_sleeper(rt: HostRuntime) {
    assert_eq!(rt; is_right(&rt, rt.alloc(), &SHARES_A_CHAIN), Some(true));
}
