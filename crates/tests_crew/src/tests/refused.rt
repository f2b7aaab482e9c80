//! Runs in which one request for memory is refused.
//!
//! The memory is that of the book and of the run. That of the pool isn't refused, since it is always of `Global`.
use crate::tests::runs::{
    COMPOUND, MANY, NUMBERS, Rules, is_brought_to_its_end, multiples, open, run, tickets, verdict,
};
use chr_book::Book;
use chr_calls::TicketState;
use chr_check::Verdict;
use chr_crew::{Cause, CrewFault, End, Finished, Open};
use refusing::Refusing;
use std::alloc::{Allocator, Global};
use std::sync::Wait;
use std::test::*;
use std::thread::Threads;

/// Whether all tickets of a book that was given back before the workers started still wait.
fn all_wait<A: Allocator + Copy>(book: &Book<A>, posts: u64) -> bool {
    for ticket in 1..=posts {
        if book.state(ticket) != TicketState::Waiting {
            return false;
        }
    }
    book.log().len() as u64 == posts && tickets(book) == (posts, 0)
}

/// How a run ends, and what the check answers of it, where a ticket is left marked or none is.
fn end_of(marked: bool) -> (End, Option<Verdict>) {
    if marked {
        (End::Stopped, Some(Verdict::Run))
    } else {
        (End::Quiet, Some(Verdict::RunAndFinal))
    }
}

/// Whether a run ended so, and no ticket is held.
fn is_ended<A: Allocator + Copy>(alloc: A, finished: &mut Finished<A>, marked: bool) -> bool {
    let ended = (finished.end, verdict(alloc, &finished.book));
    let (_, held) = tickets(&finished.book);
    let is_marked = finished.book.take_stray().is_some();
    held == 0 && is_marked == marked && ended == end_of(marked)
}

/// What came of a run.
type Answer<A> = Result<Finished<A>, CrewFault<A>>;

/// Whether a run of so many workers on a book of so many posts left what it is to leave, where a request was refused or none.
fn is_left<A: Allocator + Copy>(
    alloc: A,
    answer: &mut Answer<A>,
    posts: u64,
    workers: usize,
    refused: bool,
) -> bool {
    match answer {
        // A worker whose call is refused ends, and leaves its ticket marked. Where there is another worker, that one takes it.
        // Judging a whole trial does without, and the run goes on.
        Ok(finished) => {
            let marked = refused && workers == 1 && finished.end == End::Stopped;
            is_ended(alloc, finished, marked)
        }
        Err(fault) => refused && fault.cause == Cause::NoMemory && all_wait(&fault.book, posts),
    }
}

/// The book that came back.
fn book_of<A: Allocator>(answer: Answer<A>) -> Book<A> {
    match answer {
        Ok(finished) => finished.book,
        Err(fault) => fault.book,
    }
}

/// Runs of which a request for memory is refused.
struct Row {
    rules: Rules,
    /// How many posts the book has.
    posts: u64,
    workers: usize,
    /// Each request is refused in turn where this is 0, else each of the first ones, and later ones that are one such part of
    /// their number from one another.
    apart: u64,
}

/// Whether a run became quiet.
fn is_quiet<A: Allocator>(answer: &Answer<A>) -> bool {
    match answer {
        Ok(finished) => finished.end == End::Quiet,
        Err(_) => false,
    }
}

/// Whether a run leaves what it is to leave with its request number `n` refused, and can be brought to its end; and whether it
/// became quiet all the same, where a request was refused. None where memory ran out before it.
fn refused_run<R: Threads + Wait + Sync>(
    rt: &R,
    memory: &Refusing<Global>,
    pool: Global,
    row: &Row,
    n: u64,
) -> Option<(bool, Option<bool>)> {
    let workers = row.workers;
    if workers < 1 || 16 < workers {
        return None;
    }
    let text = multiples(pool, row.rules, row.posts).ok()?;
    let book = open(memory, row.rules.program, text.as_str())?;
    memory.refuse(n);
    let mut answer = run(rt, memory, pool, book, (workers, &Open, MANY));
    let refused = memory.was_refused();
    memory.refuse(0);
    let quiet = refused.then_some(is_quiet(&answer));
    let right = is_left(memory, &mut answer, row.posts, workers, refused);
    let ends = is_brought_to_its_end(rt, memory, pool, book_of(answer), row.rules.last);
    Some((right && ends, quiet))
}

/// Refuses a request of a run, the first one first, until a run meets no refusal. Returns how many runs became quiet with a
/// request refused, or as an `Err` the number at which a book that came back was not the one that is to come.
fn refuse_each<R: Threads + Wait + Sync>(rt: &R, pool: Global, row: &Row) -> Result<u64, u64> {
    let memory = Refusing::new(pool, 0);
    let mut n = 0u64;
    let mut quiet = 0u64;
    for _ in 0..100_000u64 {
        n = n
            .wrapping_add(1)
            .wrapping_add(n.checked_div(row.apart).unwrap_or(0));
        match refused_run(rt, &memory, pool, row, n) {
            Some((true, Some(became))) => quiet = quiet.wrapping_add(u64::from(became)),
            Some((true, None)) => return Ok(quiet),
            _ => return Err(n),
        }
    }
    Err(0)
}

const ONE_WORKER: Row = Row {
    rules: NUMBERS,
    posts: 4,
    workers: 1,
    apart: 0,
};

/// Each of 24, 36 and 48 fires with 12, and so many trials with variables are whole. What is left of each, 0, fires by a rule
/// that has none, of which nothing is kept.
const WHOLE_OF_FOUR: u64 = 3;

#[test]
fn one_worker_leaves_a_stray_ticket(rt: HostRuntime) {
    let quiet = refuse_each(&rt, rt.alloc(), &ONE_WORKER);
    assert!(rt; quiet == Ok(WHOLE_OF_FOUR), "{quiet:?}");
}

static TWO_WORKERS: Row = Row {
    rules: NUMBERS,
    posts: 20,
    workers: 2,
    apart: 16,
};

#[test]
fn two_workers_leave_a_lawful_book(rt: HostRuntime) {
    let quiet = refuse_each(&rt, rt.alloc(), &TWO_WORKERS);
    assert!(rt; quiet.is_ok(), "at request {quiet:?}");
}

static COMPOUND_VALUES: Row = Row {
    rules: COMPOUND,
    posts: 3,
    ..ONE_WORKER
};

/// Each of 24 and 36 fires with 12, and then what is left of it, by a rule with a variable.
const WHOLE_OF_THREE: u64 = 4;

#[test]
fn a_worker_is_refused_compound_values(rt: HostRuntime) {
    let quiet = refuse_each(&rt, rt.alloc(), &COMPOUND_VALUES);
    assert!(rt; quiet == Ok(WHOLE_OF_THREE), "{quiet:?}");
}
