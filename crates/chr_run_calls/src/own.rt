//! The judgements of what a seat was told last.
ghost use Rattle.std.specs.Prelude.{◌≡◌, ◌≤◌, length, true, false, Some, is_some, option_map, MatchOption, IfOk, OnErr};
ghost use Rattle.chr_search.specs.Verdicts.{Trial as PlainTrial};
ghost use Rattle.chr_calls.specs.Turns.{turn_of};
ghost use Rattle.chr_run_calls.specs.Lists.{said, Own as IsOwn, OwnBatch};
ghost use Rattle.chr_run_calls.specs.Told.{trials_of_turn, trials_in, asks_for as is_asked_for, tells as is_told, last_answer as told_last, first_of, last_trial, last_batch, AreJudged, StandsFor, StandsForNone, StandFor};
ghost use Rattle.chr_run_calls.specs.Code.{call_of, seat_call_of, answer_of, said_by};

use crate::calls::{Answer, Call, SeatCall};
use chr_calls::{Batch, Turn, TurnFault};
use chr_search::{Judged, Trial, judge};
use std::alloc::{AllocError, Allocator};

/// The next trial, where there is one.
fn next_trial<A: Allocator>(turn: &Result<Turn<A>, TurnFault>) -> Option<&Trial<A>>
    ensures { option_map (λ r. r.now) result ≡ first_of (trials_of_turn (turn_of turn.now)) }
{
    match turn {
        Ok(Turn::Trial(trial)) => Some(trial),
        _ => None,
    }
}

/// The trial that an answer tells: the next one, or the first of a batch.
fn first_trial<A: Allocator>(answer: &Answer<A>) -> Option<&Trial<A>>
    ensures { option_map (λ r. r.now) result ≡ first_of (trials_in false (answer_of answer.now)) }
{
    match answer {
        Answer::Trial(turn) => next_trial(turn),
        Answer::Batch(Ok(Batch::Trials(trials))) => trials.first(),
        Answer::ReportBatch(report) => next_trial(&report.next),
        _ => None,
    }
}

/// Whether an answer tells trials, or, where batches alone count, a batch.
fn has_trials<A: Allocator>(answer: &Answer<A>, batches: bool) -> bool
    ensures { result ≡ is_some (trials_in batches (answer_of answer.now)) }
{
    match answer {
        Answer::Batch(Ok(Batch::Trials(_))) => true,
        Answer::Trial(turn) => !batches && next_trial(turn).is_some(),
        Answer::ReportBatch(report) => !batches && next_trial(&report.next).is_some(),
        _ => false,
    }
}

/// Whether a call is for the ticket, and such calls are told trials.
fn asks_for<A: Allocator>(call: &Call<A>, ticket: u64) -> bool
    ensures { result ≡ is_asked_for ticket (call_of call.now) }
{
    match call {
        Call::Trial(asked) | Call::Batch(asked) | Call::ReportBatch(asked, _) => *asked == ticket,
        _ => false,
    }
}

/// Whether a call by the seat for the ticket was told trials, or, where batches alone count, a batch.
fn tells<A: Allocator>(
    by: &SeatCall<A>,
    answer: &Answer<A>,
    seat: u32,
    ticket: u64,
    batches: bool,
) -> bool
    ensures { result ≡ is_told batches seat ticket (said (seat_call_of by.now) (answer_of answer.now)) }
{
    by.seat == seat && asks_for(&by.call, ticket) && has_trials(answer, batches)
}

/// The last of these answers that tells the seat trials for the ticket, or, where batches alone count, a batch.
fn last_answer<'a, A: Allocator>(
    calls: &[SeatCall<A>],
    answers: &'a [Answer<A>],
    seat: u32,
    ticket: u64,
    batches: bool,
) -> Option<&'a Answer<A>>
    requires { length answers.now ≤ length calls.now }
    ensures { option_map (λ r. answer_of r.now) result ≡ told_last batches seat ticket (said_by calls.now answers.now) }
{
    let mut left = answers.len();
    while 0 < left {
        left -= 1;
        if tells(&calls[left], &answers[left], seat, ticket, batches) {
            return Some(&answers[left]);
        }
    }
    None
}

/// The judgement of the last trial that these answers tell a seat for a ticket. None where there is none. An `Err` is E01,
/// which comes only where there is one.
pub(crate) fn own_judgement<A: Allocator + Copy>(
    alloc: A,
    calls: &[SeatCall<A>],
    answers: &[Answer<A>],
    seat: u32,
    ticket: u64,
) -> Result<Option<Judged<A>>, AllocError>
    requires { length answers.now ≤ length calls.now }
    ensures ok { let so_far = said_by calls.now answers.now in IfOk result (λ own. MatchOption own (StandsForNone so_far seat ticket IsOwn) (StandsFor so_far seat ticket IsOwn)) }
    ensures err { OnErr result ((trial : PlainTrial) × (last_trial (said_by calls.now answers.now) seat ticket ≡ Some trial)) }
{
    let Some(answer) = last_answer(calls, answers, seat, ticket, false) else {
        return Ok(None);
    };
    let Some(trial) = first_trial(answer) else {
        return Ok(None);
    };
    let judged = judge(trial.copy(alloc)?);
    // What `verdict` ensures is that the verdict is right.
    let _right = judged.verdict();
    Ok(Some(judged))
}

/// Judges these trials, in order. An `Err` is E01.
fn judge_all<A: Allocator + Copy>(
    alloc: A,
    trials: &[Trial<A>],
) -> Result<Vec<Judged<A>, A>, AllocError>
    ensures { IfOk result (λ judgements. AreJudged trials.now judgements.items) }
{
    let mut judgements = Vec::with_capacity(alloc, trials.len())?;
    for trial in trials {
        let judged = judge(trial.copy(alloc)?);
        let _right = judged.verdict();
        judgements.push_reserved(judged);
    }
    Ok(judgements)
}

/// The batch that an answer tells.
fn batch_in<A: Allocator>(answer: &Answer<A>) -> Option<&[Trial<A>]>
    ensures { option_map (λ r. r.now) result ≡ trials_in true (answer_of answer.now) }
{
    match answer {
        Answer::Batch(Ok(Batch::Trials(trials))) => Some(trials.as_slice()),
        _ => None,
    }
}

/// The judgements of the last batch that these answers tell a seat for a ticket, in order; none where there is none. An
/// `Err` is E01, which comes only where there is one.
pub(crate) fn own_judgements<A: Allocator + Copy>(
    alloc: A,
    calls: &[SeatCall<A>],
    answers: &[Answer<A>],
    seat: u32,
    ticket: u64,
) -> Result<Vec<Judged<A>, A>, AllocError>
    requires { length answers.now ≤ length calls.now }
    ensures ok { IfOk result (λ judgements. StandFor (said_by calls.now answers.now) seat ticket OwnBatch judgements.items) }
    ensures err { OnErr result ((trials : _) × (last_batch (said_by calls.now answers.now) seat ticket ≡ Some trials)) }
{
    let Some(answer) = last_answer(calls, answers, seat, ticket, true) else {
        return Ok(Vec::new(alloc));
    };
    let Some(trials) = batch_in(answer) else {
        return Ok(Vec::new(alloc));
    };
    judge_all(alloc, trials)
}
