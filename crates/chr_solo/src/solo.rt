//! Runs of one seat.
ghost use Rattle.std.specs.Prelude.{◌≡◌, ◌≤◌, ◌+◌, ◌-◌, ◌/◌, ◌⊎◌, ℕ, ◌↔◌, Err, OnOk, OnErr, IfOk, MatchOption};
ghost use Rattle.std.specs.List.{AllByRecursion};
ghost use Rattle.chr_rule.specs.Scope.{IsRule};
ghost use Rattle.chr_model.specs.Logs.{posted_by};
ghost use Rattle.chr_calls.specs.Books.{BookState, events};
ghost use Rattle.chr_calls.specs.Calls.{Claims, HoldsCandidate};
ghost use Rattle.chr_calls.specs.Headline.{Headline};
ghost use Rattle.chr_book.specs.Passed.{MakesFewer, StartsFewer};
ghost use Rattle.chr_calls.specs.Tickets.{AreQuiet, IsOpenFor, IsLeastFor, state_of};
ghost use Rattle.chr_calls.specs.declared.answers.ClaimFault.TheVariants as claim;
ghost use Rattle.chr_calls.specs.declared.answers.TicketState.TheVariants as states;
ghost use Rattle.chr_solo.specs.Solo.{IsSolo, IsCutShort, SoloCall, SoloRun, Known as KnownState, Nothing, Judged as IsJudged};
ghost use Rattle.chr_solo.specs.SoloCode.{known_of, IsAware, SoloSoFar};
ghost use Rattle.chr_solo.specs.declared.solo.End.TheVariants as ends;

use chr_book::Book;
use chr_calls::{ClaimFault, DropFault, FireFault, TicketState, Turn, TurnFault};
use chr_search::{Judged, Verdict, judge};
use chr_watch::{Unwatched, Watch};
use std::alloc::{AllocError, Allocator};

/// Whether a ticket is left open.
#[derive(Clone, Copy, Debug, PartialEq, Eq)]
pub enum End {
    /// No ticket is open.
    Quiet,
    /// A ticket is open.
    Open,
}

/// How a run of one seat ended.
#[derive(Clone, Copy, Debug, PartialEq, Eq)]
pub struct Solo {
    /// How many calls were made, with a claim that was refused for want of labels.
    pub calls: u64,
    /// Whether a ticket is left open.
    pub end: End,
}

/// What a run knows of the search of its ticket.
#[derive(Drop)]
enum Known<A: Allocator> {
    /// Nothing: its next trial is to be asked for.
    Nothing,
    /// The judgement of its last trial.
    Judged(Judged<A>),
    /// No trial is left.
    NoneLeft,
}

/// Asks for the next trial of a ticket, and judges it. An `Err` is E01, and nothing has changed.
fn ask<A: Allocator + Copy>(
    book: &mut Book<A>,
    seat: u32,
    ticket: u64,
) -> Result<Known<A>, AllocError>
    requires { state_of book.old.tickets ticket ≡ states.Held seat }
    ensures ok { IfOk result (λ known. SoloCall seat ticket book.old Nothing book.new (known_of known)) }
    ensures err { OnErr result (book.new ≡ book.old) }
{
    match book.trial(seat, ticket) {
        Ok(Turn::Trial(trial)) => {
            let judged = judge(trial);
            // What `verdict` ensures is that the verdict is right.
            let _right = judged.verdict();
            Ok(Known::Judged(judged))
        }
        Ok(Turn::Done) => Ok(Known::NoneLeft),
        Ok(Turn::Gone) => Ok(Known::NoneLeft),
        Err(TurnFault::NoMemory) => Err(AllocError),
        Err(TurnFault::NotHeld) => unreachable!(),
    }
}

/// Fires a trial that is whole, and reports another. An `Err` is E01, and nothing has changed.
fn answer<A: Allocator + Copy>(
    book: &mut Book<A>,
    seat: u32,
    ticket: u64,
    judged: &Judged<A>,
) -> Result<(), AllocError>
    requires { HoldsCandidate book.old seat ticket judged.now.trial }
    ensures ok { OnOk result (SoloCall seat ticket book.old (IsJudged judged.now) book.new Nothing) }
    ensures err { OnErr result (book.new ≡ book.old) }
{
    if judged.verdict() != Verdict::Whole {
        let Ok(()) = book.report(seat, ticket, judged) else {
            unreachable!();
        };
        return Ok(());
    }
    match book.fire(seat, ticket, judged) {
        Ok(_) => Ok(()),
        Err(FireFault::NoMemory) => Err(AllocError),
        Err(_) => unreachable!(),
    }
}

/// Makes the next call for a ticket that the seat holds. An `Err` is E01, and nothing has changed.
fn go_on<A: Allocator + Copy>(
    book: &mut Book<A>,
    seat: u32,
    ticket: u64,
    known: Known<A>,
) -> Result<Known<A>, AllocError>
    requires held { state_of book.old.tickets ticket ≡ states.Held seat }
    requires aware { IsAware book.old seat ticket (known_of known) }
    ensures ok { IfOk result (λ after. SoloCall seat ticket book.old (known_of known) book.new (known_of after)) }
    ensures err { OnErr result (book.new ≡ book.old) }
{
    match known {
        Known::Nothing => ask(book, seat, ticket),
        Known::Judged(judged) => {
            answer(book, seat, ticket, &judged)?;
            Ok(Known::Nothing)
        }
        Known::NoneLeft => match book.drop_goal(seat, ticket) {
            Ok(_) => Ok(Known::Nothing),
            Err(DropFault::NoMemory) => Err(AllocError),
            Err(DropFault::NotHeld) => unreachable!(),
        },
    }
}

/// Makes the next call for a ticket. None where it waits and the labels are spent. An `Err` is E01, and nothing has
/// changed.
fn call_for<A: Allocator + Copy>(
    book: &mut Book<A>,
    seat: u32,
    ticket: u64,
    known: Known<A>,
) -> Result<Option<Known<A>>, AllocError>
    requires free { IsOpenFor seat (state_of book.old.tickets ticket) }
    requires aware { IsAware book.old seat ticket (known_of known) }
    ensures ok { IfOk result (λ next. MatchOption next (Claims book.old seat ticket (Err claim.LabelsSpent) book.new) (λ after. SoloCall seat ticket book.old (known_of known) book.new (known_of after))) }
    ensures err { OnErr result (book.new ≡ book.old) }
{
    if let TicketState::Held(_) = book.state(ticket) {
        return Ok(Some(go_on(book, seat, ticket, known)?));
    }
    match book.claim(seat, ticket) {
        Ok(_) => Ok(Some(Known::Nothing)),
        Err(ClaimFault::LabelsSpent) => Ok(None),
        Err(ClaimFault::NoMemory) => Err(AllocError),
        Err(ClaimFault::NotWaiting(_)) => unreachable!(),
    }
}

/// Where nothing is known of the search of the next ticket, claims it if it waits, and makes rounds of two calls for it, at
/// most so many calls and at most 2,049. Returns how many calls; none are made where the ticket rests, or waits and the labels
/// are spent. An `Err` is E01: nothing has changed, or some of the calls before the last round were made.
fn make_rounds<A: Allocator + Copy>(
    book: &mut Book<A>,
    seat: u32,
    ticket: u64,
    known: &Known<A>,
    most: u64,
) -> Result<u64, AllocError>
    requires least { IsLeastFor book.old.tickets seat ticket }
    requires some { 1 ≤ most }
    ensures few { IfOk result (λ made. made ≤ most) }
    ensures none { IfOk result (λ made. made ≡ 0 → book.new ≡ book.old) }
    ensures so_far { IfOk result (λ made. (first : BookState) (calls : ℕ) → SoloSoFar seat first calls book.old (known_of known.now) → SoloSoFar seat first (calls + made) book.new (known_of known.now)) }
    ensures nothing { OnErr result (known_of known.now ≡ Nothing) }
    ensures err { OnErr result (StartsFewer seat ticket ((most - 1) / 2) book.old book.new ⊎ MakesFewer seat ticket (most / 2) book.old book.new) }
{
    let Known::Nothing = known else {
        return Ok(0);
    };
    if let Some(rounds) = book.start(seat, ticket, ((most - 1) / 2).min(1024))? {
        return Ok(1 + 2 * rounds.count());
    }
    let rounds = book.go_on(seat, ticket, (most / 2).min(1024))?;
    Ok(2 * rounds.count())
}

/// The calls of [`watched_steps`], whose number is returned.
fn make_calls<A: Allocator + Copy, W: Watch>(
    book: &mut Book<A>,
    seat: u32,
    most: u64,
    watch: &mut W,
) -> Result<u64, AllocError>
    ensures solo { IfOk result (λ calls. IsSolo seat most book.old calls book.new) }
    ensures cut_short { OnErr result (IsCutShort seat most book.old book.new) }
{
    let mut calls = 0;
    let mut known = Known::Nothing;
    while calls < most {
        let Some(ticket) = book.next_for(seat) else {
            break;
        };
        let made = make_rounds(book, seat, ticket, &known, most - calls)?;
        if made > 0 {
            calls += made;
            watch.done(calls - 1);
            continue;
        }
        watch.done(calls);
        calls += 1;
        let Some(next) = call_for(book, seat, ticket, known)? else {
            break;
        };
        known = next;
    }
    Ok(calls)
}

/// Makes at most `most` calls by one seat, each for the least open ticket that no other seat holds, to that ticket's end: it
/// claims a ticket that waits or rests, asks for its next trial, fires it where it is whole and else reports it, and drops
/// the goal once no trial is left. It ends where no such ticket is left, or at a claim for which the labels are spent (E10),
/// which counts as a call. An `Err` is E01: the book is that of the calls made so far. However it ends, the book has the
/// headline of `chr_calls`.
pub fn solo_steps<A: Allocator + Copy>(
    book: &mut Book<A>,
    seat: u32,
    most: u64,
) -> Result<Solo, AllocError>
    ensures solo { IfOk result (λ solo. IsSolo seat most book.old solo.calls book.new) }
    ensures end { IfOk result (λ solo. (solo.end ≡ ends.Quiet) ↔ AreQuiet book.new.tickets) }
    ensures cut_short { OnErr result (IsCutShort seat most book.old book.new) }
    ensures headline { Headline book.new (posted_by (events book.new)) }
{
    watched_steps(book, seat, most, &mut Unwatched)
}

/// The same, and `watch` is told before each call how many were made before it. Of up to 2,049 calls that [`Book::start`] or
/// [`Book::go_on`] makes at once it is told after them, and only how many were made before the last one.
pub fn watched_steps<A: Allocator + Copy, W: Watch>(
    book: &mut Book<A>,
    seat: u32,
    most: u64,
    watch: &mut W,
) -> Result<Solo, AllocError>
    ensures solo { IfOk result (λ solo. IsSolo seat most book.old solo.calls book.new) }
    ensures end { IfOk result (λ solo. (solo.end ≡ ends.Quiet) ↔ AreQuiet book.new.tickets) }
    ensures cut_short { OnErr result (IsCutShort seat most book.old book.new) }
    ensures headline { Headline book.new (posted_by (events book.new)) }
{
    let made = make_calls(book, seat, most, watch);
    let end = if book.quiet() { End::Quiet } else { End::Open };
    Ok(Solo { calls: made?, end })
}

/// Where each rule is in scope, as many calls of one seat, from one book, lead to one book and one judgement; a run of at most
/// so many calls has one end; and what is made of it until memory is refused is a beginning of it.
pub fn solo_runs_are_fixed()
    ensures runs { (seat calls : ℕ) (b m n : BookState) (known other : KnownState)
        → AllByRecursion IsRule b.rules → SoloRun seat calls b Nothing m known → SoloRun seat calls b Nothing n other → (m ≡ n) × (known ≡ other) }
    ensures solos { (seat most : ℕ) (b : BookState) (calls other : ℕ) (m n : BookState)
        → AllByRecursion IsRule b.rules → IsSolo seat most b calls m → IsSolo seat most b other n → (calls ≡ other) × (m ≡ n) }
    ensures beginnings { (seat most : ℕ) (b : BookState) (calls : ℕ) (m n : BookState)
        → AllByRecursion IsRule b.rules → (cut : IsCutShort seat most b m) → (whole : IsSolo seat most b calls n) → (more : ℕ) × SoloRun seat more m cut.known n whole.known }
{}
