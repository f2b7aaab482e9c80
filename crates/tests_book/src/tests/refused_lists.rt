//! Lists of calls, with a request refused as a seat's own judgement is made.
use crate::tests::lists::{Answers, Calls, Does, Memory, add_made};
use crate::tests::plays::Play;
use crate::tests::script::{Opening, has_lines, lines, open};
use crate::tests::tables::TOKEN;
use chr_book::Book;
use chr_calls::TicketState;
use refusing::Refusing;
use std::alloc::{AllocError, Allocator, Global};

/// What is posted, and a list of what seat 1 does with ticket 1.
#[derive(Clone, Copy)]
struct Scene<'s> {
    posts: &'s str,
    list: &'s [Does],
}

/// The lists, and what each answers with its first request refused, with its second, and so on, as far as the answers
/// differ. The ticket is put down before the call by the seat's own judgement, whose E01 comes before its E13.
static OUTCOMES: [([Does; 3], &str); 3] = [
    (
        [Does::Trial, Does::PutDown, Does::Report],
        "no room\nErr(NoMemory); Ok(()); Err(NotHeld)\n1.2 [1] Part; Ok(()); NoMemory\n1.2 [1] Part; Ok(()); Err(NotHeld)\n",
    ),
    (
        [Does::Trial, Does::PutDown, Does::Fire],
        "no room\nErr(NoMemory); Ok(()); Err(NotHeld)\n1.2 [1] Part; Ok(()); NoMemory\n1.2 [1] Part; Ok(()); Err(NotHeld)\n",
    ),
    (
        [Does::Batch, Does::PutDown, Does::ReportBatch],
        "no room\nErr(NoMemory); Ok(()); 0, Err(NotHeld)\n1.2 [1] Part; Ok(()); NoMemory\n1.2 [1] Part; Ok(()); 0, Err(NotHeld)\n",
    ),
];

/// What is posted: a number, or a compound value, with the same answers.
const POSTS: [&str; 2] = ["n(1), t.", "n(f(1,g(a))), t."];

/// Posts two atoms, and has seat 1 claim ticket 1. Whether there was memory.
fn begins<A: Allocator + Copy>(alloc: A, book: &mut Book<A>, posts: &str) -> bool {
    let mut calls = Calls::new(alloc);
    calls.add_post(alloc, 0, posts).is_ok()
        && calls.add_own(1, Does::Claim, 1).is_ok()
        && calls.are_made(alloc, book)
}

/// What a list was answered, in words.
fn told<A: Allocator + Copy>(
    play: &Play<A>,
    answers: &Result<Answers<A>, AllocError>,
) -> Result<String, AllocError> {
    match answers {
        Ok(answers) => answers.text(&Memory::new(play.alloc, play.texts)),
        Err(_) => "no room".to_string(play.texts),
    }
}

/// Whether the ticket is put down, or, where there was no room for the answers, the book has these lines.
fn is_left_right<A: Allocator + Copy>(
    book: &Book<A>,
    texts: Global,
    has_room: bool,
    before: &[u8],
) -> bool {
    match book.state(1) {
        TicketState::Held(1) => !has_room && has_lines(texts, book, before),
        state => has_room && state == TicketState::Resting,
    }
}

/// Makes a list with a request refused, and adds what it was answered, in words. Whether there was such a request. None where
/// memory ran out, or where the book isn't left as it should.
fn add_answers<A: Allocator + Copy>(
    text: &mut String,
    book: &mut Book<A>,
    play: &Play<A>,
    calls: &Calls<A>,
    before: &[u8],
) -> Option<bool> {
    play.memory.refuse(play.n);
    let answers = calls.answers(play.alloc, book);
    let refused = play.memory.was_refused();
    play.memory.refuse(0);
    let is_right = is_left_right(book, play.texts, answers.is_ok(), before)
        && add_made(text, "", told(play, &answers)).is_ok();
    is_right.then_some(refused)
}

/// The same of a scene, on a book as it is opened.
fn add_outcome_on<A: Allocator + Copy>(
    text: &mut String,
    book: &mut Book<A>,
    play: &Play<A>,
    scene: &Scene,
) -> Option<bool> {
    let mut calls = Calls::new(play.alloc);
    if !begins(play.alloc, book, scene.posts) || calls.add_each(1, scene.list, 1).is_err() {
        return None;
    }
    match lines(play.texts, book) {
        Ok(before) => add_answers(text, book, play, &calls, &before),
        Err(_) => None,
    }
}

/// The same on a book of its own.
fn add_outcome<A: Allocator + Copy>(
    text: &mut String,
    play: &Play<A>,
    scene: &Scene,
) -> Option<bool> {
    let mut book = open(play.alloc, Opening { limit: 10, ..TOKEN })?;
    add_outcome_on(text, &mut book, play, scene)
}

/// The same with request number `n` refused.
fn add_outcome_of(text: &mut String, texts: Global, n: u64, scene: &Scene) -> Option<bool> {
    let memory = Refusing::new(texts, 0);
    let play = Play {
        alloc: &memory,
        memory: &memory,
        texts,
        n,
    };
    add_outcome(text, &play, scene)
}

/// Adds a line, where it isn't the last one.
fn add_line(all: &mut String, last: &str, line: &str) -> Result<(), AllocError> {
    if line != last {
        all.push_str(line)?;
        all.push('\n')?;
    }
    Ok(())
}

/// Adds what the list answers with request number `n` refused, where that isn't what it answered last. Whether there was such
/// a request.
fn add_next(
    all: &mut String,
    last: &mut String,
    texts: Global,
    n: u64,
    scene: &Scene,
) -> Option<bool> {
    let mut text = String::new(texts);
    let refused = add_outcome_of(&mut text, texts, n, scene)?;
    add_line(all, last.as_str(), text.as_str()).ok()?;
    *last = text;
    Some(refused)
}

/// Adds what the list answers with its first request refused, then with its second, and so on, a line for each that differs
/// from the one before. The last one is without a refusal.
fn add_outcomes(all: &mut String, texts: Global, scene: &Scene) -> Option<()> {
    let mut last = String::new(texts);
    for n in 1..100u64 {
        if !add_next(all, &mut last, texts, n, scene)? {
            return Some(());
        }
    }
    None
}

/// Whether these are the outcomes.
fn has_outcomes(texts: Global, scene: &Scene, expected: &str) -> bool {
    let mut all = String::new(texts);
    add_outcomes(&mut all, texts, scene).is_some() && all.as_str() == expected
}

#[test]
fn own_judgements_are_refused(rt: HostRuntime) {
    for posts in POSTS {
        for (list, expected) in &OUTCOMES {
            let scene = Scene { posts, list };
            assert!(rt;
                has_outcomes(rt.alloc(), &scene, expected),
                "{posts} {expected}"
            );
        }
    }
}
