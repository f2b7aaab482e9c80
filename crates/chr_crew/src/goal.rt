//! The work on one ticket, a call of the book in each hold.
ghost use Rattle.std.specs.Prelude.{◌≡◌, IfOk, IfSome};
ghost use Rattle.chr_calls.specs.Batches.{claimed_of, following_of, sheet_of};
ghost use Rattle.chr_pool.specs.Hands.{hand_id};
ghost use Rattle.chr_seats.specs.Versions.{IsKnownAfter, IsKnownOf};
ghost use Rattle.chr_crew.specs.Pools.{HasPushedOn};

use crate::gate::{Gate, Stop};
use crate::record::Record;
use chr_calls::{
    BatchReport, ClaimFault, DropFault, Dropping, FireFault, Fired, Firing, Following,
    PutDownFault, Sheet, SheetReport, Turn, TurnFault,
};
use chr_pool::Hand;
use chr_search::Judged;
use chr_seats::{HoldFault, Known, KnownJudgements, KnownTrials, PostLedger, Seat};
use chr_shared::Shared;
use chr_sheet::Watch;
use chr_store::Label;
use std::alloc::Allocator;
use std::sync::Wait;
use std::sync::ledger::Ledger;

/// How a worker left a ticket.
#[derive(Clone, Copy, PartialEq, Eq)]
pub enum Left {
    /// Its goal has ended, or another seat has it: the worker is free to take another.
    Free,
    /// No turn was left, or the crew is closed.
    Spent,
    /// E01 or E10.
    Want,
    /// E26.
    WrongSeat,
}

/// The gate of the work on one ticket.
#[derive(Drop)]
struct AtTicket<'g, G> {
    gate: &'g G,
    ticket: u64,
}

impl<'g, G: Gate> Watch for AtTicket<'g, G> {
    fn before_judging(&self) {
        self.gate.before_judging(self.ticket);
    }
}

/// A call that comes next for a ticket.
enum Call<L1: PostLedger, A: Allocator> {
    /// Claims the ticket, and asks for its first trials.
    Claim,
    /// Asks for the next trials.
    Sheet,
    /// Reports judgements of these, and fires the last one, drops the goal, or asks for the next trials.
    Report(KnownJudgements<L1, A>),
    /// Fires one that is whole.
    Fire(Judged<A>),
    /// Drops a goal that has no trial left.
    Drop,
}

// Not derived: letting a call go is then one call, which is proved here once.
impl<L1: PostLedger, A: Allocator> Drop for Call<L1, A> {
    fn drop(self) {
        match self {
            Call::Report(_) | Call::Fire(_) | Call::Claim | Call::Sheet | Call::Drop => {}
        }
    }
}

impl<L1: PostLedger, A: Allocator> Call<L1, A> {
    /// How many turns it takes at most.
    fn turns(&self) -> u64 {
        match self {
            Call::Claim | Call::Report(_) => 2,
            Call::Sheet | Call::Fire(_) | Call::Drop => 1,
        }
    }
}

/// What comes after a call.
enum After {
    /// Another call, which is set.
    Call,
    /// The tickets of a firing are dealt with. Where its goal goes on, its next trials are asked for.
    Fired(Fired),
    /// The ticket is left so.
    Left(Left),
}

/// How a worker leaves a ticket where a hold made no call.
fn left_by(fault: HoldFault) -> Left {
    match fault {
        HoldFault::WrongSeat => Left::WrongSeat,
        HoldFault::NoBook => Left::Free,
    }
}

/// How it leaves a ticket that has no next trial for it.
fn left_without_turn(fault: TurnFault) -> Left {
    match fault {
        TurnFault::NoMemory => Left::Want,
        TurnFault::NotHeld => Left::Free,
    }
}

/// Fires the one judgement of a sheet where it is whole, since its trial is the candidate then; else reports them all.
fn fire_or_report<L1: PostLedger, A: Allocator + Copy>(
    judged: KnownJudgements<L1, A>,
) -> Call<L1, A> {
    let judgements = judged.judgements();
    if judgements.others().is_empty() && judgements.whole().is_some() {
        match judged.into_whole() {
            Some(judged) => Call::Fire(judged),
            None => Call::Sheet,
        }
    } else {
        Call::Report(judged)
    }
}

/// Judges the trials that were given, in order, up to the first that is whole. The gate comes before each.
fn judge_sheet<L1: PostLedger, A: Allocator + Copy, G: Gate>(
    gate: &G,
    ticket: u64,
    given: Result<Sheet<A>, TurnFault>,
    known: Option<Known<L1, A>>,
    call: &mut Call<L1, A>,
    record: &mut Record,
) -> After
    requires { IfSome known (λ k. IsKnownOf k.version k.search (sheet_of given)) }
{
    match given {
        Err(fault) => After::Left(left_without_turn(fault)),
        Ok(Sheet::Trials(trials)) => {
            let alloc = *trials.allocator();
            let trials = KnownTrials::of(trials, known);
            match trials.judge(alloc, &AtTicket { gate, ticket }) {
                Ok(judgements) => {
                    record.count_judged(judgements.judgements().len());
                    *call = fire_or_report(judgements);
                    After::Call
                }
                Err(_) => After::Left(Left::Want),
            }
        }
        Ok(Sheet::Done | Sheet::Gone) => {
            *call = Call::Drop;
            After::Call
        }
    }
}

/// How a worker leaves a ticket that it couldn't claim.
fn left_unclaimed(fault: ClaimFault) -> Left {
    match fault {
        ClaimFault::NotWaiting(_) => Left::Free,
        ClaimFault::LabelsSpent | ClaimFault::NoMemory => Left::Want,
    }
}

/// What comes after a claim.
fn after_claim<L1: PostLedger, A: Allocator>(
    answer: Result<Result<Label, ClaimFault>, HoldFault>,
    call: &mut Call<L1, A>,
) -> After {
    match answer {
        Ok(Ok(_)) => {
            *call = Call::Sheet;
            After::Call
        }
        Ok(Err(fault)) => After::Left(left_unclaimed(fault)),
        Err(fault) => After::Left(left_by(fault)),
    }
}

/// What comes after a claim that gives the first trials, which are judged here.
fn after_claim_sheet<L1: PostLedger, A: Allocator + Copy, G: Gate>(
    gate: &G,
    ticket: u64,
    answer: Result<
        (
            Result<Result<Sheet<A>, TurnFault>, ClaimFault>,
            Option<Known<L1, A>>,
        ),
        HoldFault,
    >,
    call: &mut Call<L1, A>,
    record: &mut Record,
) -> After
    requires { IfOk answer (λ r. IfSome r.1 (λ k. IfOk (claimed_of r.0) (IsKnownOf k.version k.search))) }
{
    match answer {
        Ok((claimed, known)) => match claimed {
            Ok(given) => judge_sheet(gate, ticket, given, known, call, record),
            Err(fault) => After::Left(left_unclaimed(fault)),
        },
        Err(fault) => After::Left(left_by(fault)),
    }
}

/// What comes after the next trials were asked for, which are judged here.
fn after_sheet<L1: PostLedger, A: Allocator + Copy, G: Gate>(
    gate: &G,
    ticket: u64,
    answer: Result<(Result<Sheet<A>, TurnFault>, Option<Known<L1, A>>), HoldFault>,
    call: &mut Call<L1, A>,
    record: &mut Record,
) -> After
    requires { IfOk answer (λ r. IfSome r.1 (λ k. IsKnownOf k.version k.search (sheet_of r.0))) }
{
    match answer {
        Ok((given, known)) => judge_sheet(gate, ticket, given, known, call, record),
        Err(fault) => After::Left(left_by(fault)),
    }
}

/// What comes after a report alone.
fn after_report<L1: PostLedger, A: Allocator>(
    answer: Result<BatchReport<A>, HoldFault>,
    call: &mut Call<L1, A>,
) -> After {
    match answer {
        Ok(report) => match report.next {
            Ok(Turn::Trial(_)) => {
                *call = Call::Sheet;
                After::Call
            }
            Ok(Turn::Done | Turn::Gone) => {
                *call = Call::Drop;
                After::Call
            }
            Err(fault) => After::Left(left_without_turn(fault)),
        },
        Err(fault) => After::Left(left_by(fault)),
    }
}

/// What comes after a firing.
fn after_firing<L1: PostLedger, A: Allocator>(
    answer: Result<Firing, FireFault>,
    call: &mut Call<L1, A>,
) -> After {
    *call = Call::Sheet;
    match answer {
        Ok(Firing::Fired(fired)) => After::Fired(fired),
        Ok(Firing::Missed) | Err(FireFault::Stale | FireFault::NotWhole) => After::Call,
        Err(FireFault::NoMemory) => After::Left(Left::Want),
        Err(FireFault::NotHeld) => After::Left(Left::Free),
    }
}

/// What comes after a goal was to be dropped.
fn after_dropping<L1: PostLedger, A: Allocator>(
    answer: Result<Dropping, DropFault>,
    call: &mut Call<L1, A>,
) -> After {
    match answer {
        Ok(Dropping::Unfinished) => {
            *call = Call::Sheet;
            After::Call
        }
        Ok(Dropping::Dropped) | Err(DropFault::NotHeld) => After::Left(Left::Free),
        Err(DropFault::NoMemory) => After::Left(Left::Want),
    }
}

/// What comes after a report with the call that follows. Trials that it gives are judged here.
fn after_report_sheet<L1: PostLedger, A: Allocator + Copy, G: Gate>(
    gate: &G,
    ticket: u64,
    answer: Result<(SheetReport<A>, Option<Known<L1, A>>), HoldFault>,
    call: &mut Call<L1, A>,
    record: &mut Record,
) -> After
    requires { IfOk answer (λ r. IfSome r.1 (λ k. IsKnownAfter k.version k.search (following_of r.0.following))) }
{
    match answer {
        Ok((report, known)) => match report.following {
            Following::Fire(answer) => after_firing(answer, call),
            Following::Drop(answer) => after_dropping(answer, call),
            Following::Sheet(given) => judge_sheet(gate, ticket, given, known, call, record),
            Following::Nothing(fault) => After::Left(left_without_turn(fault)),
        },
        Err(fault) => After::Left(left_by(fault)),
    }
}

/// Makes a call that may take so many turns, and sets the one that comes next. What it gives is judged when the lock is given back.
fn make<L1: PostLedger, L2: Ledger, A: Allocator + Copy, R: Wait, G: Gate>(
    rt: &R,
    shared: &Shared<L1, L2, A>,
    seat: &mut Seat<L1, L2>,
    gate: &G,
    ticket: u64,
    call: &mut Call<L1, A>,
    turns: u64,
    record: &mut Record,
) -> After
    ensures number { seat.new.number ≡ seat.old.number }
    ensures posts { seat.new.counts.posts ≡ seat.old.counts.posts }
{
    let most = record.next_sheet();
    match call {
        _ if turns == 0 => After::Left(Left::Spent),
        Call::Claim if turns == 1 => after_claim(shared.claim(rt, seat, ticket), call),
        Call::Claim => {
            let answer = shared.claim_sheet(rt, seat, ticket, most);
            after_claim_sheet(gate, ticket, answer, call, record)
        }
        Call::Sheet => {
            let answer = shared.sheet(rt, seat, ticket, most);
            after_sheet(gate, ticket, answer, call, record)
        }
        Call::Report(judgements) if turns == 1 => {
            let answer = shared.report_all(rt, seat, ticket, judgements.judgements());
            after_report(answer, call)
        }
        Call::Report(judgements) => {
            let answer = shared.report_sheet(rt, seat, ticket, judgements, most);
            after_report_sheet(gate, ticket, answer, call, record)
        }
        Call::Fire(whole) => match shared.fire(rt, seat, ticket, whole) {
            Ok(answer) => after_firing(answer, call),
            Err(fault) => After::Left(left_by(fault)),
        },
        Call::Drop => match shared.drop_goal(rt, seat, ticket) {
            Ok(answer) => after_dropping(answer, call),
            Err(fault) => After::Left(left_by(fault)),
        },
    }
}

/// Tells as many of the workers that rest that there is a ticket for each.
pub(crate) fn tell<L1: PostLedger, L2: Ledger, A: Allocator + Copy, R: Wait>(
    rt: &R,
    shared: &Shared<L1, L2, A>,
    tickets: usize,
) {
    if tickets > 0 {
        shared.announce_some(rt, tickets);
    }
}

/// Pushes the tickets of a firing on the hand, which leaves some for others. A ticket that the hand refuses is marked stray.
fn push_new<L1: PostLedger, L2: Ledger, A: Allocator + Copy, R: Wait>(
    rt: &R,
    shared: &Shared<L1, L2, A>,
    hand: &mut Hand<u64>,
    record: &mut Record,
    fired: Fired,
)
    ensures hand { hand_id hand.new ≡ hand_id hand.old }
    ensures pushed { HasPushedOn hand.old hand.new }
{
    for k in 0..fired.count {
        let ticket = fired.first.wrapping_add(k as u64);
        if hand.push(ticket).is_err() {
            let _ = shared.mark_stray(rt, ticket);
        }
    }
    // Where its own goal has ended, the worker takes the next of these itself.
    let taken = usize::from(!fired.active_lives);
    record.count_left(fired.count.saturating_sub(taken));
}

/// Leaves a ticket. One whose goal hasn't ended is put down, or marked where it isn't claimed. It is stray then.
fn leave<L1: PostLedger, L2: Ledger, A: Allocator + Copy, R: Wait>(
    rt: &R,
    shared: &Shared<L1, L2, A>,
    seat: &mut Seat<L1, L2>,
    ticket: u64,
    left: Left,
) -> Left
    ensures number { seat.new.number ≡ seat.old.number }
    ensures posts { seat.new.counts.posts ≡ seat.old.counts.posts }
{
    if left == Left::Free || left == Left::WrongSeat {
        return left;
    }
    match shared.put_down(rt, seat, ticket) {
        Err(HoldFault::WrongSeat) => Left::WrongSeat,
        Ok(Err(PutDownFault::NotHeld)) => {
            let _ = shared.mark_stray(rt, ticket);
            left
        }
        _ => left,
    }
}

/// Claims a ticket and works on its goal until it ends, or no turn is left, or the crew is closed, or memory or labels run
/// out: then it is put down or marked stray. A ticket that another seat has, or that has ended, is left alone.
pub fn work_on_ticket<L1: PostLedger, L2: Ledger, A: Allocator + Copy, R: Wait, G: Gate>(
    rt: &R,
    shared: &Shared<L1, L2, A>,
    hand: &mut Hand<u64>,
    seat: &mut Seat<L1, L2>,
    gate: &G,
    stop: &mut Stop,
    record: &mut Record,
    ticket: u64,
) -> Left
    ensures hand { hand_id hand.new ≡ hand_id hand.old }
    ensures pushed { HasPushedOn hand.old hand.new }
    ensures number { seat.new.number ≡ seat.old.number }
    ensures posts { seat.new.counts.posts ≡ seat.old.counts.posts }
{
    let mut call = Call::Claim;
    for _ in rt.forever() {
        let turns = stop.spend(call.turns(), shared.is_closed());
        let left = match make(rt, shared, seat, gate, ticket, &mut call, turns, record) {
            After::Call => None,
            After::Fired(fired) => {
                push_new(rt, shared, hand, record, fired);
                if fired.active_lives {
                    None
                } else {
                    Some(Left::Free)
                }
            }
            After::Left(left) => Some(left),
        };
        tell(rt, shared, record.tell_many());
        if let Some(left) = left {
            return leave(rt, shared, seat, ticket, left);
        }
    }
    unreachable!()
}
