//! A worked run: batches, their judgements, and a firing.
use crate::tests::lists::{Calls, Does, Memory, judged_copy};
use crate::tests::script::{Opening, is_text, open};
use chr_book::Book;
use chr_calls::Batch;
use chr_run_calls::{Answer, Call, Words};
use std::alloc::{AllocError, Allocator, Global};

/// What a book is opened with, and what is posted.
pub struct Scene {
    pub opening: Opening<'static>,
    pub posts: &'static str,
}

/// A token turns each `n` above 20 into an `r`, of numbers and of compound values. The answers are the same.
pub static SCENES: [Scene; 2] = [
    Scene {
        opening: Opening {
            program: "t \\ n(X) <=> X > 20 | r(X).",
            names: "",
            limit: 100,
        },
        posts: "n(1), n(2), n(3), n(21), t.",
    },
    Scene {
        opening: Opening {
            program: "t \\ n(f(X,Y)) <=> X > 20 | r(g(Y,f(X,Y))).",
            names: "",
            limit: 100,
        },
        posts: "n(f(1,g(a))), n(f(2,g(a))), n(f(3,g(a))), n(f(21,g(a))), t.",
    },
];

/// What takes one of the first four goals to its end.
const TO_THE_END: [Does; 4] = [Does::Claim, Does::Trial, Does::Report, Does::DropGoal];

/// What seat 1 does first with ticket 5. Then it asks for a batch of ticket 4.
const FIRST: [Does; 6] = [
    Does::Batch,
    Does::Claim,
    Does::ReportBatch,
    Does::Batch,
    Does::ReportBatch,
    Does::Batch,
];

const FIRST_ANSWERS: &str =
    "Err(NotHeld); Ok(5); 0, 1.1 [5] Part; 1.1 [5] Part; 1, 1.1 [5, 1] Misfit; 1.1 [5, 1] Misfit, 1.1 [5, 2] Misfit, 1.1 [5, 3] Misfit, 1.1 [5, 4] Whole; Err(NotHeld)";

/// What it does after a report of the judgement of the last trial of the second batch.
const SECOND: [Does; 5] = [
    Does::ReportBatch,
    Does::Batch,
    Does::ReportBatch,
    Does::Fire,
    Does::ReportBatch,
];

const SECOND_ANSWERS: &str =
    "0, 1.1 [5, 1] Misfit; 0, 1.1 [5, 1] Misfit; 1.1 [5, 1] Misfit, 1.1 [5, 2] Misfit, 1.1 [5, 3] Misfit, 1.1 [5, 4] Whole; 3, 1.1 [5, 4] Whole; Ok(Fired(Fired { first: 6, count: 1, active_lives: true })); 0, Done";

/// Adds the calls that take the first four goals to their end.
fn add_goals<A: Allocator + Copy>(calls: &mut Calls<A>) -> Result<(), AllocError> {
    for ticket in 1..5u64 {
        calls.add_each(1, &TO_THE_END, ticket)?;
    }
    Ok(())
}

/// Posts five atoms, and takes the first four goals to their end. Whether there was memory.
pub fn takes_first_goals<A: Allocator + Copy>(alloc: A, book: &mut Book<A>, posts: &str) -> bool {
    let mut calls = Calls::new(alloc);
    calls.add_post(alloc, 1, posts).is_ok()
        && add_goals(&mut calls).is_ok()
        && calls.are_made(alloc, book)
}

/// Adds a report of the judgement of the last trial of a batch, which is answer 5 of the first list.
fn add_report(alloc: Global, calls: &mut Calls<Global>, first: &[Answer<Global>]) -> Option<()> {
    let Some(Answer::Batch(Ok(Batch::Trials(trials)))) = first.get(5) else {
        return None;
    };
    let judged = judged_copy(alloc, trials.last()?).ok()?;
    let mut given = Vec::new(alloc);
    given.push(judged).ok()?;
    calls.add(1, Call::ReportBatch(5, Words::Given(given))).ok()
}

/// Whether the second list is answered as expected after the answers to the first.
fn is_second_right(alloc: Global, book: &mut Book<Global>, first: &[Answer<Global>]) -> bool {
    let mut calls = Calls::new(alloc);
    add_report(alloc, &mut calls, first).is_some()
        && calls.add_each(1, &SECOND, 5).is_ok()
        && match calls.answers(alloc, book) {
            Ok(answers) => is_text(answers.text(&Memory::new(alloc, alloc)), SECOND_ANSWERS),
            Err(_) => false,
        }
}

/// Whether these calls, as the first list, and the second list are answered as expected.
fn are_right(alloc: Global, book: &mut Book<Global>, first: &Calls<Global>) -> bool {
    match first.answers(alloc, book) {
        Ok(answers) => {
            is_text(answers.text(&Memory::new(alloc, alloc)), FIRST_ANSWERS)
                && is_second_right(alloc, book, answers.as_slice())
        }
        Err(_) => false,
    }
}

/// Whether both lists are answered as expected after the first four goals.
fn is_run_right(alloc: Global, book: &mut Book<Global>, posts: &str) -> bool {
    let mut first = Calls::new(alloc);
    takes_first_goals(alloc, book, posts)
        && first.add_each(1, &FIRST, 5).is_ok()
        && first.add_own(1, Does::Batch, 4).is_ok()
        && are_right(alloc, book, &first)
}

/// The same on a book of its own.
fn is_right(alloc: Global, scene: &Scene) -> bool {
    match open(alloc, scene.opening) {
        Some(mut book) => is_run_right(alloc, &mut book, scene.posts),
        None => false,
    }
}

#[test]
fn batches_of_a_worked_run(rt: HostRuntime) {
    for scene in &SCENES {
        assert!(rt; is_right(rt.alloc(), scene), "{}", scene.posts);
    }
}
