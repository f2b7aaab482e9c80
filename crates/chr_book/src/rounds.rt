//! Rounds of calls for a ticket: one that asks for its next trial, and one that answers.
ghost use Rattle.std.specs.Prelude.{◌↔◌, ◌+◌, ◌≤◌, ◌≡◌, ◌≢◌, take, slice_set, IsTrue, IfOk, IfSome, IsSome, MatchOption, OnErr};
ghost use Rattle.chr_calls.specs.declared.answers.TicketState.TheVariants as states;
ghost use Rattle.chr_calls.specs.Tickets.{state_of, ticket_at};
ghost use Rattle.chr_tickets.specs.Open.{with_atom};
ghost use Rattle.chr_book.specs.declared.rounds.Last.TheVariants as lasts;
ghost use Rattle.chr_book.specs.Passed.{IsHeldLive, rounds_in, MakesRounds, MakesFewer, StartsRounds, StartsFewer};

use crate::book::Book;
use crate::firing::{end_rounds, end_start};
use crate::passing::{pass_over, pass_over_before};
use chr_tickets::Tickets;
use chr_value::Atom;
use std::alloc::{AllocError, Allocator};

/// What the last of several rounds was.
#[derive(Clone, Copy, Debug, PartialEq, Eq)]
pub enum Last {
    /// One that passed over a trial that isn't whole, or there was no round.
    Passed,
    /// The trial was whole, and fired.
    Fired,
    /// No trial was left, and the goal was dropped.
    Dropped,
}

/// How many trials were passed over, one in each round, and what the last round was.
#[derive(Clone, Copy, Debug, PartialEq, Eq)]
pub struct Rounds {
    pub passed: u64,
    pub last: Last,
}

impl Rounds {
    /// How many rounds there were.
    pub fn count(&self) -> u64
        requires { rounds_in self.now ≤ 18446744073709551615 }
        ensures { result ≡ rounds_in self.now }
    {
        match self.last {
            Last::Passed => self.passed,
            Last::Fired | Last::Dropped => self.passed + 1,
        }
    }
}

/// Takes the tickets from `first` on back, and swaps the atom of a ticket that waits then with another.
fn take_back<A: Allocator + Copy>(
    tickets: &mut Tickets<A>,
    first: u64,
    ticket: u64,
    atom: &mut Atom<A>,
)
    requires { 1 ≤ first }
    ensures waits { let kept = take first tickets.old in state_of kept ticket ≡ states.Waiting → tickets.new ≡ slice_set kept ticket (with_atom atom.old (ticket_at kept ticket)) }
    ensures other { let kept = take first tickets.old in state_of kept ticket ≢ states.Waiting → tickets.new ≡ kept }
{
    tickets.truncate(first);
    tickets.take_waiting(ticket, atom);
}

/// No round.
const NO_ROUNDS: Rounds = Rounds {
    passed: 0,
    last: Last::Passed,
};

impl<A: Allocator + Copy> Book<A> {
    /// Whether the seat holds a ticket whose goal's label is live.
    fn is_held_live(&self, seat: u32, ticket: u64) -> bool
        ensures { IsTrue result ↔ IsHeldLive self.now seat ticket }
    {
        match self.held(seat, ticket) {
            None => false,
            Some(search) => self.store.get(search.label()).is_some(),
        }
    }

    /// The rounds of [`go_on`](Book::go_on), where there is one.
    fn make_rounds(&mut self, seat: u32, ticket: u64, most: u64) -> Result<Rounds, AllocError>
        requires held { IsHeldLive self.old seat ticket }
        requires some { 1 ≤ most }
        ensures few { IfOk result (λ rounds. rounds_in rounds ≤ most) }
        ensures all { IfOk result (λ rounds. rounds.last ≡ lasts.Passed → most ≤ rounds.passed + 1) }
        ensures ok { IfOk result (λ rounds. MakesRounds seat ticket rounds self.old self.new) }
        ensures err { OnErr result (MakesFewer seat ticket most self.old self.new) }
    {
        let first = self.tickets.next();
        let come = pass_over(
            &mut self.tickets,
            ticket,
            &self.program,
            &self.plans,
            &self.store,
            most - 1,
            &mut self.instance,
        )?;
        let Ok(last) = end_rounds(
            &mut self.tickets,
            &mut self.log,
            &mut self.store,
            seat,
            ticket,
            come.then,
            self.instance.whole(),
        ) else {
            self.tickets.truncate(first);
            return Err(AllocError);
        };
        Ok(Rounds {
            passed: come.count,
            last,
        })
    }

    /// Makes rounds of calls for a ticket that the seat holds, at most so many. In each, [`trial`](Book::trial) gives the next
    /// trial, and with the right verdict [`report`](Book::report) passes over it, up to one that is whole: that one
    /// [`fire`](Book::fire) fires, which is the last round; where no trial is left, [`drop_goal`](Book::drop_goal) drops the
    /// goal in the last round. Where none fires or drops, they are at most one fewer than asked for. No round where the seat
    /// doesn't hold the ticket or the goal's label has left the store. An `Err` is E01: rounds that pass over trials may have
    /// been made, fewer than asked for, and no other.
    pub fn go_on(&mut self, seat: u32, ticket: u64, most: u64) -> Result<Rounds, AllocError>
        ensures few { IfOk result (λ rounds. rounds_in rounds ≤ most) }
        ensures all { IsHeldLive self.old seat ticket → IfOk result (λ rounds. rounds.last ≡ lasts.Passed → most ≤ rounds.passed + 1) }
        ensures ok { IfOk result (λ rounds. MakesRounds seat ticket rounds self.old self.new) }
        ensures err { OnErr result (MakesFewer seat ticket most self.old self.new) }
    {
        if most == 0 {
            return Ok(NO_ROUNDS);
        }
        if !self.is_held_live(seat, ticket) {
            return Ok(NO_ROUNDS);
        }
        self.make_rounds(seat, ticket, most)
    }

    /// The claim and the rounds of [`start`](Book::start), where a label can be given and a round was asked for.
    fn start_rounds(
        &mut self,
        seat: u32,
        ticket: u64,
        most: u64,
    ) -> Result<Option<Rounds>, AllocError>
        requires room { self.old.next ≤ self.old.limit }
        requires some { 1 ≤ most }
        ensures few { IfOk result (λ started. IfSome started (λ rounds. rounds_in rounds ≤ most)) }
        ensures all { IfOk result (λ started. IfSome started (λ rounds. rounds.last ≡ lasts.Passed → most ≤ rounds.passed + 1)) }
        ensures some { state_of self.old.tickets ticket ≡ states.Waiting → IfOk result (λ started. IsSome started) }
        ensures ok { IfOk result (λ started. MatchOption started (self.new ≡ self.old) (λ rounds. StartsRounds seat ticket rounds self.old self.new)) }
        ensures err { OnErr result (StartsFewer seat ticket most self.old self.new) }
    {
        if !self.tickets.take_waiting(ticket, &mut self.started) {
            return Ok(None);
        }
        self.search.restart(self.store.next_label());
        let first = self.tickets.next();
        let Ok(come) = pass_over_before(
            &mut self.tickets,
            &mut self.search,
            &self.program,
            &self.plans,
            &self.store,
            &self.started,
            most - 1,
            &mut self.instance,
        ) else {
            take_back(&mut self.tickets, first, ticket, &mut self.started);
            return Err(AllocError);
        };
        let Ok(last) = end_start(
            &mut self.tickets,
            &mut self.log,
            &mut self.store,
            seat,
            ticket,
            &self.started,
            &self.search,
            come.then,
            self.instance.whole(),
        ) else {
            take_back(&mut self.tickets, first, ticket, &mut self.started);
            return Err(AllocError);
        };
        Ok(Some(Rounds {
            passed: come.count,
            last,
        }))
    }

    /// Claims a ticket that waits, and makes rounds for it as [`go_on`](Book::go_on) does, at most so many. None only where
    /// it doesn't wait, the labels are spent, or no round was asked for: then nothing has changed. An `Err` is E01: nothing
    /// has changed, or the ticket was claimed, and such rounds may have been made as after an `Err` of [`go_on`](Book::go_on).
    pub fn start(&mut self, seat: u32, ticket: u64, most: u64) -> Result<Option<Rounds>, AllocError>
        ensures few { IfOk result (λ started. IfSome started (λ rounds. rounds_in rounds ≤ most)) }
        ensures all { IfOk result (λ started. IfSome started (λ rounds. rounds.last ≡ lasts.Passed → most ≤ rounds.passed + 1)) }
        ensures some { state_of self.old.tickets ticket ≡ states.Waiting → self.old.next ≤ self.old.limit → 1 ≤ most → IfOk result (λ started. IsSome started) }
        ensures ok { IfOk result (λ started. MatchOption started (self.new ≡ self.old) (λ rounds. StartsRounds seat ticket rounds self.old self.new)) }
        ensures err { OnErr result (StartsFewer seat ticket most self.old self.new) }
    {
        if most == 0 || self.limit < self.store.next_label() {
            return Ok(None);
        }
        self.start_rounds(seat, ticket, most)
    }
}
