//! What other threads do while a worker judges.
use crate::tests::beside::is_right;
use crate::tests::play::{Before, Play, Signs, Step};
use crate::tests::runs::{GCD, MANY, finished};
use chr_crew::{End, Stop};
use std::alloc::Global;
use std::sync::Wait;
use std::test::*;
use std::thread::Threads;

/// Whether two workers come to the end of a run, after each has stood before a judgement while the other did. None where
/// memory ran out.
fn both_come<R: Threads + Wait + Sync>(rt: &R, alloc: Global) -> Option<bool> {
    let gate = Signs::new(Before::Meets(1));
    let finished = finished(rt, alloc, (GCD, "gcd(9), gcd(6)."), (2, &gate, MANY))?;
    Some(finished.end == End::Quiet && gate.have_met())
}

#[test]
fn two_hands_judge_at_once(rt: HostRuntime) {
    assert_eq!(rt; both_come(&rt, rt.alloc()), Some(true));
}

/// A session that posts while the worker's first judgement waits until it has.
static POSTS_MEANWHILE: Play = Play {
    task: (GCD, "gcd(9)."),
    workers: 1,
    stop: Stop::Turns(MANY),
    tickets: 1,
    before: Before::Meets(1),
    steps: &[
        Step::Judges,
        Step::Posts(b"gcd(6).", 2, 1),
        Step::Tells,
        Step::BecomesQuiet,
        Step::HaveMet,
    ],
};

#[test]
fn judging_under_the_lock(rt: HostRuntime) {
    assert_eq!(rt; is_right(&rt, rt.alloc(), &POSTS_MEANWHILE), Some(true));
}

/// How many judgements a run by one worker makes, and how many for ticket 5: one for each of the first four goals, which
/// have no partner, and for the fifth those of its own label alone and with each of the four partners, of which the last
/// fires. None where memory ran out.
fn judgements<R: Threads + Wait + Sync>(rt: &R, alloc: Global) -> Option<(u64, u64)> {
    let gate = Signs::new(Before::Counts(5));
    let task = (
        "t \\ n(X) <=> X > 20 | r(X).",
        "n(1), n(2), n(3), n(21), t.",
    );
    finished(rt, alloc, task, (1, &gate, MANY))?;
    Some(gate.counts())
}

#[test]
fn each_judgement_of_a_batch_passes_the_gate(rt: HostRuntime) {
    assert_eq!(rt; judgements(&rt, rt.alloc()), Some((9, 5)));
}
