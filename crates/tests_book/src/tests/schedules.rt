//! Many lists of calls by three seats, whose logs the check of a log accepts.
use crate::tests::lists::{Calls, Does};
use crate::tests::script::{Opening, open};
use crate::tests::tables::GCD;
use chr_book::Book;
use chr_calls::TicketState;
use chr_check::{Verdict, check};
use chr_entries::Entries;
use chr_log::{Entry, Event, Version};
use chr_value::Atom;
use std::alloc::{AllocError, Global};

/// What a book is opened with, and what is posted.
type Scene = (Opening<'static>, [&'static str; 8]);

static NUMBERS: Scene = (
    GCD,
    [
        "gcd(12).", "gcd(24).", "gcd(36).", "gcd(48).", "gcd(60).", "gcd(72).", "gcd(84).",
        "gcd(96).",
    ],
);

/// The same with compound values, of which one is a part of another.
static COMPOUND: Scene = (
    Opening {
        program: "gcd(f(0,_)) <=> true. gcd(f(N,g)) \\ gcd(f(M,X)) <=> 0 < N, N =< M | L is M mod N, gcd(f(L,X)).",
        names: "",
        limit: 4_294_967_295,
    },
    [
        "gcd(f(12,g)).",
        "gcd(f(24,g)).",
        "gcd(f(36,g)).",
        "gcd(f(48,g)).",
        "gcd(f(60,g)).",
        "gcd(f(72,g)).",
        "gcd(f(84,g)).",
        "gcd(f(96,g)).",
    ],
);

/// How many tickets are looked at.
const TICKETS: u64 = 64;

/// How many rounds a list has, each of sixteen calls.
const ROUNDS: usize = 25;

/// The calls for one goal in a round.
#[derive(Clone, Copy)]
struct Course {
    seat: u32,
    ticket: u64,
    kinds: &'static [Does],
}

/// Calls that take a goal further trial by trial.
static SINGLY: [Does; 8] = [
    Does::Claim,
    Does::Trial,
    Does::Report,
    Does::Trial,
    Does::Report,
    Does::Trial,
    Does::Fire,
    Does::DropGoal,
];

/// Calls that take a goal further by batches.
static BY_BATCHES: [Does; 8] = [
    Does::Claim,
    Does::Batch,
    Does::ReportBatch,
    Does::Batch,
    Does::ReportBatch,
    Does::Batch,
    Does::Fire,
    Does::DropGoal,
];

/// What may stand for a call of a round.
const ANY: [Does; 10] = [
    Does::Claim,
    Does::Trial,
    Does::Report,
    Does::Fire,
    Does::DropGoal,
    Does::Batch,
    Does::ReportBatch,
    Does::PutDown,
    Does::MarkStray,
    Does::TakeStray,
];

/// The next number that is drawn, below 2^31 - 1.
fn next_draw(draw: u64) -> u64 {
    draw.wrapping_mul(48_271) % 2_147_483_647
}

/// The first open ticket from a number on, around to it; that number where none is open.
fn open_from(book: &Book<Global>, start: u64) -> u64 {
    for i in 0..TICKETS {
        let ticket = start.wrapping_add(i) % TICKETS;
        match book.state(ticket) {
            TicketState::Unknown | TicketState::Ended => (),
            TicketState::Waiting | TicketState::Held(_) | TicketState::Resting => return ticket,
        }
    }
    start
}

/// How the goal of a ticket is taken further: the first open ticket from a drawn number on, by the seat that holds it, or
/// else by a drawn one.
fn drawn_course(book: &Book<Global>, draw: u64) -> Course {
    let ticket = open_from(book, draw % TICKETS);
    let number = draw / TICKETS;
    let seat = match book.state(ticket) {
        TicketState::Held(holder) => holder,
        _ => (number % 3) as u32 + 1,
    };
    let kinds = if number / 3 % 2 == 0 {
        &SINGLY
    } else {
        &BY_BATCHES
    };
    Course {
        seat,
        ticket,
        kinds,
    }
}

/// Adds a call of a course, for which any call by any seat stands so many times in thirty-two.
fn add_drawn(
    calls: &mut Calls<Global>,
    course: &Course,
    does: Does,
    any: u64,
    draw: u64,
) -> Result<(), AllocError> {
    if any <= draw % 32 {
        return calls.add_own(course.seat, does, course.ticket);
    }
    let number = draw / 32;
    let other = ANY.get((number / 3 % 10) as usize).copied();
    calls.add_own(
        (number % 3) as u32 + 1,
        other.unwrap_or(does),
        course.ticket,
    )
}

/// What is posted in a round, if anything: the posts rise for some seeds, and fall for others.
fn post_in(scene: &Scene, seed: u64, number: usize) -> Option<&'static str> {
    let rises = seed / 8 % 2 == 0;
    let place = if rises {
        number
    } else {
        7usize.wrapping_sub(number)
    };
    scene.1.get(place).copied()
}

/// Adds the calls of a round by which two goals are taken further by turns.
fn add_turns(
    calls: &mut Calls<Global>,
    book: &Book<Global>,
    any: u64,
    first: u64,
) -> Result<(), AllocError> {
    let mut draw = next_draw(first);
    let (one, other) = (drawn_course(book, first), drawn_course(book, draw));
    for (does, next) in one.kinds.iter().zip(other.kinds.iter()) {
        draw = next_draw(draw);
        add_drawn(calls, &one, *does, any, draw)?;
        draw = next_draw(draw);
        add_drawn(calls, &other, *next, any, draw)?;
    }
    Ok(())
}

/// The calls of a round: two goals are taken further by turns, after a post in the first rounds.
fn round(
    alloc: Global,
    scene: &Scene,
    book: &Book<Global>,
    seed: u64,
    number: usize,
    first: u64,
) -> Result<Calls<Global>, AllocError> {
    let mut calls = Calls::new(alloc);
    if let Some(text) = post_in(scene, seed, number) {
        calls.add_post(alloc, 1, text)?;
    }
    add_turns(&mut calls, book, seed % 8, first)?;
    calls.truncate(16);
    Ok(calls)
}

/// Makes the calls of a round, and adds them to a list.
fn add_round(
    alloc: Global,
    book: &mut Book<Global>,
    list: &mut Calls<Global>,
    mut calls: Calls<Global>,
) -> Result<(), AllocError> {
    let _answers = calls.answers(alloc, book)?;
    list.append(&mut calls)
}

/// The calls of a seed, drawn round by round as the book stands after those before.
fn rounds(
    alloc: Global,
    scene: &Scene,
    book: &mut Book<Global>,
    seed: u64,
) -> Result<Calls<Global>, AllocError> {
    let mut list = Calls::new(alloc);
    let mut draw = seed;
    for number in 0..ROUNDS {
        draw = next_draw(next_draw(draw));
        let calls = round(alloc, scene, book, seed, number, draw)?;
        add_round(alloc, book, &mut list, calls)?;
    }
    Ok(list)
}

/// The same on a book of their own.
fn list_of(alloc: Global, scene: &Scene, seed: u64) -> Option<Calls<Global>> {
    let mut book = open(alloc, scene.0)?;
    rounds(alloc, scene, &mut book, seed).ok()
}

/// The events of a book's log.
fn events_of(alloc: Global, log: &Entries<Global>) -> Result<Vec<Event<Global>>, AllocError> {
    let mut events = Vec::new(alloc);
    for index in 0..log.len() {
        events.push(log.get(index)?.event)?;
    }
    Ok(events)
}

/// The events of a strict log.
fn strict_events(
    alloc: Global,
    entries: &[Entry<Global>],
) -> Result<Vec<Event<Global>>, AllocError> {
    let mut events = Vec::new(alloc);
    for entry in entries {
        events.push(entry.event.copy(alloc)?)?;
    }
    Ok(events)
}

/// The constraints of a book's store.
fn store_of(alloc: Global, book: &Book<Global>) -> Result<Vec<(u64, Atom<Global>)>, AllocError> {
    let mut store = Vec::new(alloc);
    for (label, atom) in book.store().iter() {
        store.push((label, atom.copy(alloc)?))?;
    }
    Ok(store)
}

/// What the check of a book's events answers. None where it is refused, or where memory ran out.
fn verdict(
    alloc: Global,
    book: &Book<Global>,
    version: Version,
    events: Result<Vec<Event<Global>>, AllocError>,
    store: &[(u64, Atom<Global>)],
) -> Option<Verdict> {
    check(alloc, book.program(), version, &events.ok()?, store).ok()
}

/// What the check of a book's strict log answers, where it has one. None where it is refused, or where memory ran out.
fn strict_verdict(
    alloc: Global,
    book: &Book<Global>,
    store: &[(u64, Atom<Global>)],
) -> Option<Option<Verdict>> {
    match book.strict_log().ok()? {
        None => Some(None),
        Some(log) => {
            let events = strict_events(alloc, log.entries());
            verdict(alloc, book, Version::One, events, store).map(Some)
        }
    }
}

/// What the checks of a book's log and of its strict log answer. None where one is refused, or where memory ran out.
fn verdicts(alloc: Global, book: &Book<Global>) -> Option<(Verdict, Option<Verdict>)> {
    let store = store_of(alloc, book).ok()?;
    let events = events_of(alloc, book.log());
    match (
        verdict(alloc, book, Version::Two, events, &store),
        strict_verdict(alloc, book, &store),
    ) {
        (Some(verdict), Some(strict)) => Some((verdict, strict)),
        _ => None,
    }
}

/// Makes a list of calls. Whether the book is then quiet, and what the checks of its logs answer.
fn run_checked(
    alloc: Global,
    book: &mut Book<Global>,
    list: &Calls<Global>,
) -> Option<(bool, (Verdict, Option<Verdict>))> {
    if !list.are_made(alloc, book) {
        return None;
    }
    Some((book.quiet(), verdicts(alloc, book)?))
}

/// The same for the calls of a seed.
fn checked(alloc: Global, scene: &Scene, seed: u64) -> Option<(bool, (Verdict, Option<Verdict>))> {
    let list = list_of(alloc, scene, seed)?;
    let mut book = open(alloc, scene.0)?;
    run_checked(alloc, &mut book, &list)
}

/// What is answered where the book is quiet, and where it isn't.
const QUIET: (bool, (Verdict, Option<Verdict>)) = (
    true,
    (Verdict::RunAndFinal, Some(Verdict::RunAndFinal)),
);

const OPEN: (bool, (Verdict, Option<Verdict>)) = (false, (Verdict::Run, None));

/// How many books are quiet after the calls of so many seeds, and the first seed whose checks answer otherwise, or 0.
fn quiet_books(alloc: Global, scene: &Scene, seeds: u64) -> (u64, u64) {
    let mut quiet = 0u64;
    for seed in 1..seeds.saturating_add(1) {
        let answer = checked(alloc, scene, seed);
        if answer == Some(QUIET) {
            quiet = quiet.wrapping_add(1);
        } else if answer != Some(OPEN) {
            return (quiet, seed);
        }
    }
    (quiet, 0)
}

#[test]
fn each_schedule_is_a_run(rt: HostRuntime) {
    let (quiet, wrong) = quiet_books(rt.alloc(), &NUMBERS, 200);
    let is_right = wrong == 0 && 20 < quiet && quiet < 180;
    assert!(rt; is_right, "{quiet} of 200 are quiet, {wrong} is wrong");
}

#[test]
fn each_schedule_with_compound_values_is_a_run(rt: HostRuntime) {
    let (quiet, wrong) = quiet_books(rt.alloc(), &COMPOUND, 40);
    let is_right = wrong == 0 && 4 < quiet && quiet < 36;
    assert!(rt; is_right, "{quiet} of 40 are quiet, {wrong} is wrong");
}
