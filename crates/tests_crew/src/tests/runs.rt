//! Books for crews, runs on them, and the check of what they leave.
ghost use Rattle.std.specs.Prelude.{◌≤◌};
ghost use Rattle.chr_value.specs.Bounds.{greatest_label};

use chr_book::Book;
use chr_calls::TicketState;
use chr_check::{Verdict, check};
use chr_crew::{CrewFault, End, Finished, Gate, Open, run_crew};
use chr_log::{Event, Version};
use chr_seats::Blanks;
use chr_value::{Atom, GREATEST_LABEL, Label};
use std::alloc::{AllocError, Allocator, Global};
use std::marker::Brand;
use std::sync::Wait;
use std::thread::Threads;

pub const GCD: &str =
    "gcd(0) <=> true.\ngcd(N) \\ gcd(M) <=> 0 < N, N =< M | L is M mod N, gcd(L).\n";

/// More turns than any run of the tests takes.
pub const MANY: u64 = 10_000_000;

/// The seat of the posts, which is no worker's.
pub const POSTER: u32 = 17;

/// A book of a program, with labels up to a limit, after a text of posts. None where one of them can't be read, or where
/// memory ran out.
pub fn open_up_to<A: Allocator + Copy>(
    alloc: A,
    program: &str,
    limit: u64,
    posts: &str,
) -> Option<Book<A>>
    requires { limit ≤ greatest_label }
{
    let mut book = Book::of_text(alloc, program.as_bytes(), limit).ok()?;
    book.post_text(POSTER, posts.as_bytes()).ok()?;
    Some(book)
}

/// The same with all labels.
pub fn open<A: Allocator + Copy>(alloc: A, program: &str, posts: &str) -> Option<Book<A>> {
    open_up_to(alloc, program, GREATEST_LABEL, posts)
}

/// Rules over the numbers of constraints, what stands before a number and after it, and how the last one is written.
#[derive(Clone, Copy, Debug)]
pub struct Rules {
    pub program: &'static str,
    pub before: &'static str,
    pub after: &'static str,
    pub last: &'static str,
}

pub const NUMBERS: Rules = Rules {
    program: GCD,
    before: "gcd(",
    after: ")",
    last: " gcd(12)",
};

/// The same with compound values.
pub const COMPOUND: Rules = Rules {
    program: "gcd(f(0,_)) <=> true.\ngcd(f(N,g)) \\ gcd(f(M,X)) <=> 0 < N, N =< M | L is M mod N, gcd(f(L,X)).\n",
    before: "gcd(f(",
    after: ",g))",
    last: " gcd(f(12,g))",
};

/// The posts of 12, 24 and so on, as many as are asked for.
pub fn multiples(alloc: Global, rules: Rules, count: u64) -> Result<String<Global>, AllocError> {
    let mut text = String::new(alloc);
    for k in 0..count {
        let number = k.wrapping_add(1).wrapping_mul(12);
        let post = format!(in alloc; "{}{number}{}.\n", rules.before, rules.after)?;
        text.push_str(post.as_str())?;
    }
    Ok(text)
}

/// How many workers there are, their gate, and how many turns each makes at most.
pub type Crew<'g, G> = (usize, &'g G, u64);

/// A run of a crew.
pub fn run<A: Allocator + Copy + Send + Sync, R: Threads + Wait + Sync, G: Gate + Sync>(
    rt: &R,
    alloc: A,
    pool: Global,
    book: Book<A>,
    crew: Crew<'_, G>,
) -> Result<Finished<A>, CrewFault<A>>
    requires { (1 ≤ crew.0) × (crew.0 ≤ 16) }
{
    let (n, gate, turns) = crew;
    let blanks = Blanks::new();
    run_crew::<Brand, Brand, A, R, G>(rt, alloc, pool, book, n, gate, turns, blanks)
}

/// A program and posts.
pub type Task<'t> = (&'t str, &'t str);

/// What a run of a crew on a task leaves. None where memory ran out.
pub fn finished<R: Threads + Wait + Sync, G: Gate + Sync>(
    rt: &R,
    alloc: Global,
    task: Task<'_>,
    crew: Crew<'_, G>,
) -> Option<Finished<Global>>
    requires { (1 ≤ crew.0) × (crew.0 ≤ 16) }
{
    let (program, posts) = task;
    let book = open(alloc, program, posts)?;
    run(rt, alloc, alloc, book, crew).ok()
}

/// The events of a book's log. None where memory ran out.
fn events_of<A: Allocator + Copy>(alloc: A, book: &Book<A>) -> Option<Vec<Event<A>, A>> {
    let mut events = Vec::new(alloc);
    for index in 0..book.log().len() {
        events.push(book.log().get(index).ok()?.event).ok()?;
    }
    Some(events)
}

/// A copy of a book's store. None where memory ran out.
fn store_of<A: Allocator + Copy>(alloc: A, book: &Book<A>) -> Option<Vec<(Label, Atom<A>), A>> {
    let mut store = Vec::new(alloc);
    for (label, atom) in book.store().iter() {
        store.push((label, atom.copy(alloc).ok()?)).ok()?;
    }
    Some(store)
}

/// What the check answers of a book's log and store. None where it refuses them, or where memory ran out.
pub fn verdict<A: Allocator + Copy>(alloc: A, book: &Book<A>) -> Option<Verdict> {
    match (events_of(alloc, book), store_of(alloc, book)) {
        (Some(events), Some(store)) => {
            check(alloc, book.program(), Version::Two, &events, &store).ok()
        }
        _ => None,
    }
}

/// Whether the store has the one constraint of this text.
pub fn has_only<A: Allocator + Copy>(alloc: A, book: &Book<A>, atom: &str) -> bool {
    let mut bytes = Vec::new(alloc);
    if book.store().len() != 1 || book.store_lines(&mut bytes).is_err() {
        return false;
    }
    let Some(line) = bytes.strip_suffix(b"\n") else {
        return false;
    };
    line.ends_with(atom.as_bytes())
}

/// Whether a run is quiet and the check accepts it as final, with the one constraint of this text.
pub fn is_final<A: Allocator + Copy>(alloc: A, finished: &Finished<A>, atom: &str) -> bool {
    finished.end == End::Quiet
        && verdict(alloc, &finished.book) == Some(Verdict::RunAndFinal)
        && has_only(alloc, &finished.book, atom)
}

/// Whether two more workers bring a book to such an end.
pub fn is_brought_to_its_end<A: Allocator + Copy + Send + Sync, R: Threads + Wait + Sync>(
    rt: &R,
    alloc: A,
    pool: Global,
    book: Book<A>,
    atom: &str,
) -> bool {
    match run(rt, alloc, pool, book, (2, &Open, MANY)) {
        Ok(finished) => is_final(alloc, &finished, atom),
        Err(_) => false,
    }
}

/// How many tickets a book has given, and how many of them a seat holds.
pub fn tickets<A: Allocator + Copy>(book: &Book<A>) -> (u64, u64) {
    let mut held = 0u64;
    for ticket in 1..u64::MAX {
        match book.state(ticket) {
            TicketState::Unknown => return (ticket.wrapping_sub(1), held),
            TicketState::Held(_) => held = held.wrapping_add(1),
            TicketState::Waiting | TicketState::Resting | TicketState::Ended => {}
        }
    }
    (u64::MAX, held)
}
