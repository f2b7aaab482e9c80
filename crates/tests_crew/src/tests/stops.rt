//! Workers that are stopped, and a second crew that goes on.
use crate::tests::runs::{
    GCD, MANY, NUMBERS, finished, is_brought_to_its_end, multiples, open_up_to, run, tickets,
    verdict,
};
use chr_book::Book;
use chr_calls::TicketState;
use chr_check::Verdict;
use chr_crew::{End, Finished, Open};
use std::alloc::Global;
use std::sync::Wait;
use std::thread::Threads;

/// Whether a book has these lines of its log from an entry on.
fn has_log(alloc: Global, book: &Book<Global>, from: u64, expected: &[u8]) -> bool {
    let mut log = Vec::new(alloc);
    book.log_lines(&mut log, from).is_ok() && log.as_slice() == expected
}

/// Whether a run without a turn leaves both tickets as they were, in the pool or taken from it.
fn is_as_posted(alloc: Global, finished: &Finished<Global>) -> bool {
    let left = finished.tally.left.len() as u64;
    finished.end == End::Stopped
        && has_log(alloc, &finished.book, 1, b"P 1 gcd(9)\nP 2 gcd(6)\n")
        && finished.book.state(1) == TicketState::Waiting
        && finished.book.state(2) == TicketState::Waiting
        && finished.tally.pushed == 2
        && finished.tally.taken.wrapping_add(left) == 2
}

/// Whether two workers without a turn leave a book so. None where memory ran out.
fn makes_no_turn<R: Threads + Wait + Sync>(rt: &R, alloc: Global) -> Option<bool> {
    let finished = finished(rt, alloc, (GCD, "gcd(9), gcd(6)."), (2, &Open, 0))?;
    Some(is_as_posted(alloc, &finished))
}

#[test]
fn no_turn_is_made(rt: HostRuntime) {
    assert_eq!(rt; makes_no_turn(&rt, rt.alloc()), Some(true));
}

/// Whether the fourth ticket of a book waits after a run of the first three, and is marked.
fn leaves_the_fourth(alloc: Global, book: &mut Book<Global>) -> bool {
    has_log(alloc, book, 5, b"A 1 1\nD 1\nA 2 2\nD 2\nA 3 3\nD 3\n")
        && book.state(4) == TicketState::Waiting
        && book.take_stray() == Some(4)
}

/// Whether one worker on four constraints with three labels leaves the fourth. None where memory ran out.
fn spends_its_labels<R: Threads + Wait + Sync>(rt: &R, alloc: Global) -> Option<bool> {
    let book = open_up_to(alloc, "", 3, "a, b, c, d.")?;
    let mut finished = run(rt, alloc, alloc, book, (1, &Open, MANY)).ok()?;
    Some(finished.end == End::Stopped && leaves_the_fourth(alloc, &mut finished.book))
}

#[test]
fn labels_run_out(rt: HostRuntime) {
    assert_eq!(rt; spends_its_labels(&rt, rt.alloc()), Some(true));
}

/// Whether the check accepts a run as it ends, and no ticket is held.
fn is_let_go(alloc: Global, finished: &Finished<Global>) -> bool {
    let as_it_ends = match finished.end {
        End::Quiet => Verdict::RunAndFinal,
        End::Stopped => Verdict::Run,
    };
    let (_, held) = tickets(&finished.book);
    held == 0 && verdict(alloc, &finished.book) == Some(as_it_ends)
}

/// Whether two workers with so many turns leave such a book, which a second crew brings to its end. None where memory ran out.
fn goes_on<R: Threads + Wait + Sync>(
    rt: &R,
    alloc: Global,
    posts: &str,
    turns: u64,
) -> Option<bool> {
    let finished = finished(rt, alloc, (GCD, posts), (2, &Open, turns))?;
    let let_go = is_let_go(alloc, &finished);
    Some(is_brought_to_its_end(rt, alloc, alloc, finished.book, " gcd(12)") && let_go)
}

#[test]
fn a_second_crew_goes_on(rt: HostRuntime) {
    let posts = multiples(rt.alloc(), NUMBERS, 8).unwrap_or(String::new(rt.alloc()));
    for turns in 0..61u64 {
        let goes_on = goes_on(&rt, rt.alloc(), posts.as_str(), turns);
        assert_eq!(rt; goes_on, Some(true), "{turns} turns");
    }
}
