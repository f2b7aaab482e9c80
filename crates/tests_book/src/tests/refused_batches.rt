//! A worked run by batches, with a request of each call refused.
use crate::tests::batches::{SCENES, Scene, takes_first_goals};
use crate::tests::lists::{Memory, add_made, judged_copy};
use crate::tests::plays::{Play, Played, play_each};
use crate::tests::script::{is_text, open, trial_text};
use chr_book::Book;
use chr_calls::{Batch, Turn, TurnFault};
use chr_search::Judged;
use std::alloc::{AllocError, Allocator, Global};

/// The seat, and the ticket of the goal that it works on after the first four.
const SEAT: u32 = 1;

const TICKET: u64 = 5;

/// The trials of a batch in words, how many of their judgements are reported, and what comes next then.
type Row<'t> = (&'t str, usize, &'t str);

static ROWS: [Row; 2] = [
    ("1.1 [5] Part", 1, "1.1 [5, 1] Misfit"),
    (
        "1.1 [5, 1] Misfit, 1.1 [5, 2] Misfit, 1.1 [5, 3] Misfit, 1.1 [5, 4] Whole",
        3,
        "1.1 [5, 4] Whole",
    ),
];

/// Adds the judgements of the trials of a batch. None where it has none, or where memory ran out.
fn add_judgements<A: Allocator + Copy>(
    alloc: A,
    judgements: &mut Vec<Judged<A>, A>,
    batch: &Result<Batch<A>, TurnFault>,
) -> Option<()> {
    let Ok(Batch::Trials(trials)) = batch else {
        return None;
    };
    for trial in trials {
        judgements.push(judged_copy(alloc, trial).ok()?).ok()?;
    }
    Some(())
}

/// Asks for a batch with a request refused, and again where it was, and adds the judgements of its trials. Whether it was
/// refused. None where it doesn't fail exactly then.
fn judge_batch<A: Allocator + Copy>(
    book: &mut Book<A>,
    play: &Play<A>,
    judgements: &mut Vec<Judged<A>, A>,
) -> Option<bool> {
    play.memory.refuse(play.n);
    let batch = book.batch(SEAT, TICKET);
    let fails = matches!(batch, Err(TurnFault::NoMemory));
    let added = match play.memory.is_refused(fails) {
        Some(true) => add_judgements(play.alloc, judgements, &book.batch(SEAT, TICKET)),
        Some(false) => add_judgements(play.alloc, judgements, &batch),
        None => None,
    };
    added.and(Some(fails))
}

/// Judgements in words.
fn judgements_text<A: Allocator + Copy>(
    texts: Global,
    judgements: &[Judged<A>],
) -> Result<String, AllocError> {
    let mut text = String::new(texts);
    for judged in judgements {
        add_made(&mut text, ", ", trial_text(texts, judged))?;
    }
    Ok(text)
}

/// Whether so many judgements were reported, and this comes next, as a row has it.
fn is_right<A: Allocator + Copy>(
    play: &Play<A>,
    reported: usize,
    next: &Result<Turn<A>, TurnFault>,
    row: &Row,
) -> bool {
    let memory = Memory::new(play.alloc, play.texts);
    reported == row.1 && is_text(memory.turn_text(next), row.2)
}

/// Reports judgements again, of which so many were reported before. Whether both reports together are as expected.
fn is_reported_again<A: Allocator + Copy>(
    book: &mut Book<A>,
    play: &Play<A>,
    judgements: &[Judged<A>],
    before: usize,
    row: &Row,
) -> bool {
    let report = book.report_batch(SEAT, TICKET, judgements);
    is_right(
        play,
        before.wrapping_add(report.reported),
        &report.next,
        row,
    )
}

/// Reports judgements with a request refused, and again where it was. Whether it was refused. None where the call doesn't
/// fail exactly then, or where it isn't as expected.
fn is_reported<A: Allocator + Copy>(
    book: &mut Book<A>,
    play: &Play<A>,
    judgements: &[Judged<A>],
    row: &Row,
) -> Option<bool> {
    play.memory.refuse(play.n);
    let report = book.report_batch(SEAT, TICKET, judgements);
    let fails = matches!(report.next, Err(TurnFault::NoMemory));
    let is_right = match play.memory.is_refused(fails) {
        Some(true) => is_reported_again(book, play, judgements, report.reported, row),
        Some(false) => is_right(play, report.reported, &report.next, row),
        None => false,
    };
    is_right.then_some(fails)
}

/// Makes both calls of a row with a request of each refused. Whether one was. None where an answer isn't as expected.
fn is_refused<A: Allocator + Copy>(book: &mut Book<A>, play: &Play<A>, row: &Row) -> Option<bool> {
    let mut judgements = Vec::new(play.alloc);
    match judge_batch(book, play, &mut judgements) {
        Some(refused) if is_text(judgements_text(play.texts, &judgements), row.0) => {
            is_reported(book, play, &judgements, row).map(|reported| reported || refused)
        }
        _ => None,
    }
}

/// Claims the ticket of the last goal. Whether it is given.
fn claims<A: Allocator + Copy>(book: &mut Book<A>) -> bool {
    book.claim(SEAT, TICKET).is_ok()
}

/// Makes the calls of all rows with a request of each refused, after the first four goals. Whether one was.
fn play_on<A: Allocator + Copy>(book: &mut Book<A>, play: &Play<A>, posts: &str) -> Option<bool> {
    if !takes_first_goals(play.alloc, book, posts) || !claims(book) {
        return None;
    }
    let mut any = false;
    for row in &ROWS {
        any = is_refused(book, play, row)? || any;
    }
    Some(any)
}

impl Played for Scene {
    fn is_refused<A: Allocator + Copy>(&self, play: &Play<A>) -> Option<bool> {
        let mut book = open(play.alloc, self.opening)?;
        play_on(&mut book, play, self.posts)
    }
}

#[test]
fn each_request_of_a_batch_is_refused(rt: HostRuntime) {
    for scene in &SCENES {
        let (is_right, n) = play_each(rt.alloc(), scene);
        assert!(rt; is_right, "request {n} of {}", scene.posts);
    }
}
