//! Lists of calls.
ghost use Rattle.std.specs.Prelude.{◌≡◌, ◌≤◌, length, map, if◌then◌else◌, IfOk, OnErr};
ghost use Rattle.chr_model.specs.Logs.{posted_by};
ghost use Rattle.chr_calls.specs.Batches.{AreRight};
ghost use Rattle.chr_calls.specs.Books.{events};
ghost use Rattle.chr_calls.specs.Headline.{Headline};
ghost use Rattle.chr_run_calls.specs.Lists.{Own};
ghost use Rattle.chr_run_calls.specs.CallLists.{IsNoneTold, not_held, stale, Acts, ActsByWord, ReportsByWords, Answers, AnswersAre};
ghost use Rattle.chr_run_calls.specs.Code.{word_of, words_of, call_of, seat_call_of, answer_of, said_by};

use crate::calls::{Answer, Call, SeatCall, Word, Words};
use crate::own::{own_judgement, own_judgements};
use chr_book::Book;
use chr_calls::{FireFault, ReportFault, TicketState};
use chr_search::Judged;
use std::alloc::{AllocError, Allocator};

/// What is done by a judgement.
#[derive(Clone, Copy, Debug, PartialEq, Eq)]
pub(crate) enum Act {
    Report,
    Fire,
}

/// Reports a judgement, or fires its trial.
fn go_by<A: Allocator + Copy>(
    book: &mut Book<A>,
    seat: u32,
    ticket: u64,
    judged: &Judged<A>,
    does: Act,
) -> Answer<A>
    ensures { Acts does book.old seat ticket judged.now (answer_of result) book.new }
{
    match does {
        Act::Report => Answer::Report(book.report(seat, ticket, judged)),
        Act::Fire => Answer::Fire(book.fire(seat, ticket, judged)),
    }
}

/// What a report or a firing without a judgement is answered, by whether the seat holds the ticket.
fn refused<A: Allocator>(holds: bool, does: Act) -> Answer<A>
    ensures { answer_of result ≡ (if holds then stale does else not_held does) }
{
    match (does, holds) {
        (Act::Report, false) => Answer::Report(Err(ReportFault::NotHeld)),
        (Act::Report, true) => Answer::Report(Err(ReportFault::Stale)),
        (Act::Fire, false) => Answer::Fire(Err(FireFault::NotHeld)),
        (Act::Fire, true) => Answer::Fire(Err(FireFault::Stale)),
    }
}

/// What a report or a firing is answered by a seat that was told no trial for the ticket.
fn none_told<A: Allocator + Copy>(book: &Book<A>, seat: u32, ticket: u64, does: Act) -> Answer<A>
    ensures { IsNoneTold does book.now seat ticket (answer_of result) }
{
    let TicketState::Held(holder) = book.state(ticket) else {
        return refused(false, does);
    };
    if holder != seat {
        return refused(false, does);
    }
    refused(true, does)
}

/// Reports or fires by the seat's own judgement, after these calls and answers.
fn act_by_own<A: Allocator + Copy>(
    alloc: A,
    book: &mut Book<A>,
    calls: &[SeatCall<A>],
    answers: &[Answer<A>],
    seat: u32,
    ticket: u64,
    does: Act,
) -> Answer<A>
    requires { length answers.now ≤ length calls.now }
    ensures { ActsByWord does book.old (said_by calls.now answers.now) seat ticket Own (answer_of result) book.new }
{
    match own_judgement(alloc, calls, answers, seat, ticket) {
        Err(_) => Answer::NoMemory,
        Ok(Some(judged)) => go_by(book, seat, ticket, &judged, does),
        Ok(None) => none_told(book, seat, ticket, does),
    }
}

/// Reports or fires by a word, after these calls and answers.
fn act_by_word<A: Allocator + Copy>(
    alloc: A,
    book: &mut Book<A>,
    calls: &[SeatCall<A>],
    answers: &[Answer<A>],
    seat: u32,
    ticket: u64,
    word: &Word<A>,
    does: Act,
) -> Answer<A>
    requires { length answers.now ≤ length calls.now }
    ensures { ActsByWord does book.old (said_by calls.now answers.now) seat ticket (word_of word.now) (answer_of result) book.new }
{
    match word {
        Word::Given(judged) => {
            // What `verdict` ensures is that the verdict is right.
            let _right = judged.verdict();
            go_by(book, seat, ticket, judged, does)
        }
        Word::Own => act_by_own(alloc, book, calls, answers, seat, ticket, does),
    }
}

/// That each verdict is the right one.
fn are_right<A: Allocator + Copy>(judgements: &[Judged<A>])
    ensures { AreRight judgements.now }
{
    for judged in judgements {
        let _right = judged.verdict();
    }
}

/// Reports a batch by words, after these calls and answers.
fn report_by_words<A: Allocator + Copy>(
    alloc: A,
    book: &mut Book<A>,
    calls: &[SeatCall<A>],
    answers: &[Answer<A>],
    seat: u32,
    ticket: u64,
    words: &Words<A>,
) -> Answer<A>
    requires { length answers.now ≤ length calls.now }
    ensures { ReportsByWords book.old (said_by calls.now answers.now) seat ticket (words_of words.now) (answer_of result) book.new }
{
    match words {
        Words::Given(judgements) => {
            are_right(judgements);
            Answer::ReportBatch(book.report_batch(seat, ticket, judgements))
        }
        Words::Own => match own_judgements(alloc, calls, answers, seat, ticket) {
            Err(_) => Answer::NoMemory,
            Ok(judgements) => Answer::ReportBatch(book.report_batch(seat, ticket, &judgements)),
        },
    }
}

/// Makes a call by a seat, after these calls and answers.
fn make_call<A: Allocator + Copy>(
    alloc: A,
    book: &mut Book<A>,
    calls: &[SeatCall<A>],
    answers: &[Answer<A>],
    seat: u32,
    call: &Call<A>,
) -> Answer<A>
    requires { length answers.now ≤ length calls.now }
    ensures { Answers book.old (said_by calls.now answers.now) seat (call_of call.now) (answer_of result) book.new }
{
    match call {
        Call::Post(atoms) => Answer::Post(book.post(seat, atoms)),
        Call::PostText(bytes) => Answer::PostText(book.post_text(seat, bytes)),
        Call::Claim(ticket) => Answer::Claim(book.claim(seat, *ticket)),
        Call::Trial(ticket) => Answer::Trial(book.trial(seat, *ticket)),
        Call::Report(ticket, word) => {
            act_by_word(
                alloc,
                book,
                calls,
                answers,
                seat,
                *ticket,
                word,
                Act::Report,
            )
        }
        Call::Fire(ticket, word) => {
            act_by_word(alloc, book, calls, answers, seat, *ticket, word, Act::Fire)
        }
        Call::DropGoal(ticket) => Answer::DropGoal(book.drop_goal(seat, *ticket)),
        Call::PutDown(ticket) => Answer::PutDown(book.put_down(seat, *ticket)),
        Call::MarkStray(ticket) => Answer::MarkStray(book.mark_stray(*ticket)),
        Call::TakeStray => Answer::TakeStray(book.take_stray()),
        Call::Batch(ticket) => Answer::Batch(book.batch(seat, *ticket)),
        Call::ReportBatch(ticket, words) => {
            report_by_words(alloc, book, calls, answers, seat, *ticket, words)
        }
    }
}

/// The calls of [`run_calls`]. An `Err` is E01, for the room of the answers: then no call was made.
fn make_calls<A: Allocator + Copy>(
    alloc: A,
    book: &mut Book<A>,
    calls: &[SeatCall<A>],
) -> Result<Vec<Answer<A>, A>, AllocError>
    ensures ok { IfOk result (λ answers. AnswersAre book.old (map seat_call_of calls.now) (map answer_of answers.items) book.new) }
    ensures err { OnErr result (book.new ≡ book.old) }
{
    let mut answers = Vec::with_capacity(alloc, calls.len())?;
    for by in calls {
        let answer = make_call(alloc, book, calls, &answers, by.seat, &by.call);
        answers.push_reserved(answer);
    }
    Ok(answers)
}

/// Makes these calls on a book, one after another, and returns the answer to each, in order. A call that is refused changes
/// nothing, and the calls after it are made all the same. Where a report or a firing goes by the seat's own judgement and
/// the seat was told no trial for the ticket, it is E13 unless the seat holds the ticket, and else E14. An `Err` is E01,
/// for the room of the answers: then no call was made. However it ends, the book has the headline of `chr_calls`.
///
/// Looking for the seat's own judgement goes back over the answers to the one that told the trial, and takes memory for a
/// copy of it; the other calls take what the book's own take.
pub fn run_calls<A: Allocator + Copy>(
    alloc: A,
    book: &mut Book<A>,
    calls: &[SeatCall<A>],
) -> Result<Vec<Answer<A>, A>, AllocError>
    ensures ok { IfOk result (λ answers. AnswersAre book.old (map seat_call_of calls.now) (map answer_of answers.items) book.new) }
    ensures err { OnErr result (book.new ≡ book.old) }
    ensures headline { Headline book.new (posted_by (events book.new)) }
{
    let made = make_calls(alloc, book, calls);
    // For its clause: the book has the headline.
    let _quiet = book.quiet();
    made
}
