//! Runs in threads.
use crate::tests::runs::{
    COMPOUND, GCD, MANY, NUMBERS, Rules, Task, finished, is_final, multiples, tickets, verdict,
};
use chr_check::Verdict;
use chr_crew::{End, Finished, Open};
use chr_seats::Counts;
use std::alloc::Global;
use std::sync::Wait;
use std::thread::Threads;

/// Tasks whose runs have an end in any order.
static TASKS: [Task; 4] = [
    (
        GCD,
        "gcd(12), gcd(24), gcd(36), gcd(48), gcd(60), gcd(72), gcd(84), gcd(96), gcd(18), gcd(30).",
    ),
    (
        "min(N) \\ min(M) <=> N =< M | true.",
        "min(3), min(1), min(2), min(1), min(7), min(5), min(4), min(1), min(9), min(8), min(6).",
    ),
    (
        "edge(X,Y), edge(Y,Z), node(Z) <=> path(X,Z). path(X,Y) \\ path(X,Y) <=> true.",
        "edge(a,b), edge(b,c), node(c), edge(a,b), edge(b,c), node(c), edge(c,d), edge(d,e), node(e), edge(e,f), node(f).",
    ),
    (
        "way(f(X,Y)), link(Y,g(Z)) <=> way(f(X,Z)). way(f(X,Y)) \\ way(f(X,Y)) <=> true.",
        "way(f(a,b)), link(b,g(c)), link(c,g(d(1))), link(d(1),g(e)), way(f(a,b)), way(f(d(2),b)), link(b,g(d(2))), link(d(2),g(c)), link(c,g(b)).",
    ),
];

/// What a run of a task by so many workers ends as, and what the check answers of it.
fn ended<R: Threads + Wait + Sync>(
    rt: &R,
    alloc: Global,
    task: Task,
    workers: usize,
) -> Option<(End, Option<Verdict>)> {
    if workers < 1 || 16 < workers {
        return None;
    }
    let finished = finished(rt, alloc, task, (workers, &Open, MANY))?;
    Some((finished.end, verdict(alloc, &finished.book)))
}

/// The first number of workers whose run of a task isn't quiet, or isn't accepted as final.
fn first_wrong<R: Threads + Wait + Sync>(rt: &R, alloc: Global, task: Task) -> Option<usize> {
    for workers in [1, 2, 4, 16] {
        if ended(rt, alloc, task, workers) != Some((End::Quiet, Some(Verdict::RunAndFinal))) {
            return Some(workers);
        }
    }
    None
}

#[test]
fn each_run_is_accepted(rt: HostRuntime) {
    for round in 0..36usize {
        let wrong = first_wrong(&rt, rt.alloc(), TASKS[round % 4]);
        assert_eq!(rt; wrong, None, "round {round}");
    }
}

/// Programs and posts of four kinds of work: joins of three heads that never fire, whose guard is one comparison, or three of
/// products; joins of six heads that never fire; and pipelines, where each firing gives the next goal.
static KINDS: [Task; 4] = [
    (
        "p(X), p(Y), p(Z) <=> X + Y + Z < 0 | true.",
        "p(1), p(2), p(3), p(4), p(5), p(6), p(7), p(8), p(9), p(10), p(11), p(12).",
    ),
    (
        "p(X), p(Y), p(Z) <=> 0 < X * Y, 0 < Y * Z, X * Z < 0 | true.",
        "p(1), p(2), p(3), p(4), p(5), p(6), p(7), p(8), p(9), p(10), p(11), p(12).",
    ),
    (
        "a(A), b(B), c(C), d(D), e(E), f(F) <=> A + F < 0 | true.",
        "a(1), a(2), b(1), b(2), c(1), c(2), d(1), d(2), e(1), e(2), f(1), f(2).",
    ),
    (
        "s(0, X) <=> s(1, X). s(1, X) <=> s(2, X). s(2, X) <=> s(3, X). s(3, X) <=> s(4, X). s(4, X) <=> s(5, X). s(5, X) <=> s(6, X). s(6, X) <=> s(7, X). s(7, X) <=> s(8, X). s(8, X) <=> s(9, X). s(9, X) <=> s(10, X). s(10, X) <=> s(11, X). s(11, X) <=> s(12, X).",
        "s(0, 1), s(0, 2), s(0, 3), s(0, 4), s(0, 5), s(0, 6), s(0, 7), s(0, 8), s(0, 9), s(0, 10), s(0, 11), s(0, 12), s(0, 13), s(0, 14), s(0, 15), s(0, 16), s(0, 17), s(0, 18), s(0, 19), s(0, 20).",
    ),
];

#[test]
fn sixteen_workers_end_each_kind_of_work(rt: HostRuntime) {
    for kind in 0..4usize {
        let ended = ended(&rt, rt.alloc(), KINDS[kind], 16);
        assert_eq!(rt;
            ended,
            Some((End::Quiet, Some(Verdict::RunAndFinal))),
            "kind {kind}"
        );
    }
}

/// Whether a run is final, with one constraint, and each ticket was pushed and taken once.
fn is_whole(alloc: Global, rules: Rules, finished: &Finished<Global>) -> bool {
    let (given, _) = tickets(&finished.book);
    is_final(alloc, finished, rules.last)
        && finished.tally.pushed == given
        && finished.tally.taken == given
        && finished.tally.left.is_empty()
}

/// Whether four workers bring two hundred goals to such an end. None where memory ran out.
fn is_two_hundred_whole<R: Threads + Wait + Sync>(
    rt: &R,
    alloc: Global,
    rules: Rules,
) -> Option<bool> {
    let posts = multiples(alloc, rules, 200).ok()?;
    let finished = finished(rt, alloc, (rules.program, posts.as_str()), (4, &Open, MANY))?;
    Some(is_whole(alloc, rules, &finished))
}

#[test]
fn four_workers_end_two_hundred_goals(rt: HostRuntime) {
    for rules in [NUMBERS, COMPOUND] {
        let is = is_two_hundred_whole(&rt, rt.alloc(), rules);
        assert_eq!(rt; is, Some(true), "{}", rules.program);
    }
}

/// How many turns are made at most, how the run ends, how many entries the worker makes, and the log.
type Turns<'t> = (u64, End, u64, &'t [u8]);

/// One worker on `gcd(9), gcd(6)`: after its first turn, and to the end, where it takes the tickets in the order in which they
/// were pushed.
static TURNS: [Turns; 2] = [
    (1, End::Stopped, 1, b"P 1 gcd(9)\nP 2 gcd(6)\nA 1 1\n"),
    (
        MANY,
        End::Quiet,
        10,
        b"P 1 gcd(9)\nP 2 gcd(6)\nA 1 1\nD 1\nA 2 2\nF 2 2 2\\1\nD 2\nA 3 3\nF 3 2 3\\2\nD 3\nA 4 4\nF 4 1 \\4\n",
    ),
];

/// Whether a run has the end, the entries and the log of a row.
fn is_left(alloc: Global, finished: &Finished<Global>, row: &Turns) -> bool {
    let (_, end, others, expected) = *row;
    let mut log = Vec::new(alloc);
    finished.book.log_lines(&mut log, 1).is_ok()
        && finished.end == end
        && finished.counts.first().copied() == Some(Counts { posts: 0, others })
        && log.as_slice() == expected
}

/// Whether one worker leaves what a row has. None where memory ran out.
fn leaves<R: Threads + Wait + Sync>(rt: &R, alloc: Global, row: &Turns) -> Option<bool> {
    let finished = finished(rt, alloc, (GCD, "gcd(9), gcd(6)."), (1, &Open, row.0))?;
    Some(is_left(alloc, &finished, row))
}

#[test]
fn gives_up_at_once(rt: HostRuntime) {
    for row in &TURNS {
        assert_eq!(rt; leaves(&rt, rt.alloc(), row), Some(true), "{} turns", row.0);
    }
}
