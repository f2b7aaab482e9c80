//! The tickets of a book.
ghost use Rattle.std.specs.Prelude.{◌≡◌, ◌↔◌, ◌≤◌, ◌++◌, ◌∷◌, [], true, Some, length, take, slice_set, IsSome, IsTrue, OnOk, OnErr, MatchBool, MatchOption};
ghost use Rattle.std.specs.Option.{option_copied};
ghost use Rattle.chr_plan.specs.Plans.{ArePlans};
ghost use Rattle.chr_calls.specs.declared.answers.TicketState.TheVariants.{Waiting, Resting};
ghost use Rattle.chr_calls.specs.Tickets.{ended, waiting, activated_by, held_by, put_down, marked, with_candidate, going_on, ticket_at, state_of, IsClaimable, IsActive, Holds, IsNotHeld, AreQuiet, atom_in, search_in, LosesStray, IsLeastFor, NoneFor};
ghost use Rattle.chr_tickets.specs.Open.{shown_ticket, with_atom};
ghost use Rattle.chr_tickets.specs.Made.{atom_under};
ghost use Rattle.chr_tickets.specs.Passed.{advanced, IsCutAt, IsSearchFor, PassesOlder};
ghost use Rattle.chr_tickets.specs.Stray.{IsFirstStray, NoneStray};

use crate::slots::{Slots, make_room, next_open, open_at, open_last, place_of};
use crate::ticket::Ticket;
use chr_calls::TicketState;
use chr_guard::Binding;
use chr_plan::Plans;
use chr_rule::{Program, RuleAtom};
use chr_search::{Instance, Judged, Passed, Search, Trial};
use chr_store::{Label, Store};
use chr_value::Atom;
use std::alloc::{AllocError, Allocator};
use std::marker::Model;

/// Tickets, numbered from 1. Contracts see the list of them, ended ones too, from place 1 on.
///
/// Tickets end nearly in the order in which they were given, so few slots come from the first open one on. Those before it
/// are let go together where there is no room and they are at least 32 and at least half of all. So there are never more
/// slots than twice as many as came from the first open one on at some time, or 32 more.
#[derive(Drop)]
pub struct Tickets<A: Allocator> {
    /// The slots up to that of the last ticket.
    slots: Slots<A>,
    /// The number of the first slot, or of the next ticket where there is no slot.
    first: u64,
    /// How many slots come before that of the first open ticket, or how many there are where none is open. Their tickets
    /// have ended, whatever the slots hold.
    gone: usize,
    /// No ticket below this number is marked: a walk for the least mark begins here.
    unmarked: u64,
}

impl<A: Allocator> Model for Tickets<A> {
    ghost use Rattle.std.specs.Prelude.{List, drop, ◌+◌};
    ghost use Rattle.chr_rule.specs.Codes.{rule_codes};
    ghost use Rattle.chr_calls.specs.Tickets.{Ticket};
    ghost use Rattle.chr_tickets.specs.Listed.{listed, AreSlots};

    ghost Value = { List Ticket };

    ghost coded = { Prim.hlevel rule_codes };

    ghost view = { λ s. listed (s.first + s.gone) (drop s.gone s.slots.items) };

    ghost invariant = { λ s. AreSlots s.first s.gone s.slots.items s.unmarked };
}

impl<A: Allocator + Copy> Tickets<A> {
    /// No ticket is given.
    pub fn new(alloc: A) -> Tickets<A>
        ensures { result ≡ ended ∷ [] }
    {
        Tickets {
            slots: Vec::new(alloc),
            first: 1,
            gone: 0,
            unmarked: u64::MAX,
        }
    }

    /// The ticket that is given next.
    pub fn next(&self) -> u64
        ensures value { result ≡ length self.now }
        ensures some { 1 ≤ length self.now }
    {
        self.first + self.slots.len() as u64
    }

    /// The allocator that tickets are given memory by.
    pub fn allocator(&self) -> A {
        *self.slots.allocator()
    }

    /// An open ticket.
    fn found(&self, ticket: u64) -> Option<&Ticket<A>>
        ensures ticket { MatchOption result (ticket_at self.now ticket ≡ ended) (λ x. shown_ticket x.now ≡ ticket_at self.now ticket) }
        ensures given { IsSome result → 1 ≤ ticket }
    {
        let at = place_of(self.first, ticket);
        if at < self.gone {
            return None;
        }
        match self.slots.get(at)? {
            Some(found) => Some(found),
            None => None,
        }
    }

    /// What a seat is told of a ticket.
    pub fn state(&self, ticket: u64) -> TicketState
        ensures { result ≡ state_of self.now ticket }
    {
        match self.found(ticket) {
            Some(found) => found.state(),
            None if ticket == 0 || ticket >= self.next() => TicketState::Unknown,
            None => TicketState::Ended,
        }
    }

    /// Whether no ticket is open.
    pub fn is_quiet(&self) -> bool
        ensures { IsTrue result ↔ AreQuiet self.now }
    {
        self.gone == self.slots.len()
    }

    /// The atom of a ticket that waits.
    pub fn atom(&self, ticket: u64) -> Option<&Atom<A>>
        ensures { option_copied result ≡ atom_in (ticket_at self.now ticket).goal }
    {
        self.found(ticket)?.atom()
    }

    /// Swaps the atom of a ticket that waits with another. False where the ticket doesn't wait: then nothing has changed.
    #[inline(always)]
    pub fn take_waiting(&mut self, ticket: u64, other: &mut Atom<A>) -> bool
        ensures waits { IsTrue result ↔ state_of self.old ticket ≡ Waiting }
        ensures atom { MatchBool result (Some other.new ≡ atom_in (ticket_at self.old ticket).goal) (other.new ≡ other.old) }
        ensures tickets { MatchBool result (self.new ≡ slice_set self.old ticket (with_atom other.old (ticket_at self.old ticket))) (self.new ≡ self.old) }
    {
        let at = place_of(self.first, ticket);
        if at >= self.slots.len() || at < self.gone {
            return false;
        }
        let Some(found) = &mut self.slots[at] else {
            return false;
        };
        found.take_waiting(other)
    }

    /// The search of an active goal.
    pub fn search(&self, ticket: u64) -> Option<&Search>
        ensures { option_copied result ≡ search_in (ticket_at self.now ticket) }
    {
        self.found(ticket)?.search()
    }

    /// The search of an active goal that the seat holds.
    pub fn held(&self, seat: u32, ticket: u64) -> Option<&Search>
        ensures { MatchOption result (IsNotHeld self.now seat ticket) (λ search. Holds self.now seat ticket search.now.label × (search.now.place ≡ (ticket_at self.now ticket).position)) }
    {
        self.found(ticket)?.held(seat)
    }

    /// The candidate of an active goal, where it has one.
    pub fn candidate(&self, ticket: u64) -> Option<&Trial<A>>
        ensures { option_copied result ≡ (ticket_at self.now ticket).candidate }
    {
        self.found(ticket)?.candidate()
    }

    /// Gives an atom the next ticket, which waits. E01 where memory ran out, or where the next ticket is the greatest
    /// number; nothing has changed then.
    #[inline(always)]
    pub fn push(&mut self, atom: Atom<A>) -> Result<(), AllocError>
        ensures ok { OnOk result (self.new ≡ self.old ++ waiting atom ∷ []) }
        ensures err { OnErr result (self.new ≡ self.old) }
    {
        if self.next() == u64::MAX {
            return Err(AllocError);
        }
        if self.slots.len() == self.slots.capacity() {
            let went = make_room(&mut self.slots, self.gone)?;
            self.first += went as u64;
            self.gone -= went;
        }
        self.slots.push_reserved(Some(Ticket::waiting(atom)));
        Ok(())
    }

    /// Gives the atom that a constraint of a body stands for under a binding the next ticket, which waits. Nothing where
    /// an argument has no value within the limits. E01 where memory ran out, or where the next ticket is the greatest
    /// number; nothing has changed then.
    #[inline(always)]
    pub fn push_made(
        &mut self,
        pattern: &RuleAtom<A>,
        binding: &Binding<'_, A>,
    ) -> Result<(), AllocError>
        ensures ok { OnOk result (MatchOption (atom_under pattern.now binding.now) (self.new ≡ self.old) (λ atom. self.new ≡ self.old ++ waiting atom ∷ [])) }
        ensures err { OnErr result (self.new ≡ self.old) }
    {
        let alloc = self.allocator();
        let ticket = self.next();
        // The atom is made in its place, which spares copies.
        self.push(Atom::new(alloc, pattern.name))?;
        let found = open_last(&mut self.slots);
        match found.add_arguments(alloc, pattern, binding) {
            Ok(true) => Ok(()),
            Ok(false) => {
                self.truncate(ticket);
                Ok(())
            }
            Err(_) => {
                self.truncate(ticket);
                Err(AllocError)
            }
        }
    }

    /// Takes back every ticket from the number `next` on.
    pub fn truncate(&mut self, next: u64)
        requires { 1 ≤ next }
        ensures { self.new ≡ take next self.old }
    {
        let kept = next.saturating_sub(self.first) as usize;
        self.slots.truncate(kept);
        self.gone = self.gone.min(kept);
        self.first = self.first.min(next);
    }

    /// Makes a waiting ticket active under a label, held by a seat. Its search begins.
    pub fn activate(&mut self, ticket: u64, seat: u32, label: Label)
        requires { state_of self.old ticket ≡ Waiting }
        ensures { self.new ≡ slice_set self.old ticket (activated_by seat label) }
    {
        let found = open_at(&mut self.slots, self.first, ticket);
        found.activate(seat, label);
    }

    /// Gives a resting ticket to a seat, and takes its mark off.
    pub fn hold(&mut self, ticket: u64, seat: u32)
        requires { state_of self.old ticket ≡ Resting }
        ensures { self.new ≡ slice_set self.old ticket (held_by seat (ticket_at self.old ticket)) }
    {
        let found = open_at(&mut self.slots, self.first, ticket);
        found.hold(seat);
    }

    /// Takes an active ticket from its seat, without its candidate, and marks it.
    pub fn put_down(&mut self, ticket: u64)
        requires { IsActive self.old ticket }
        ensures { self.new ≡ slice_set self.old ticket (put_down (ticket_at self.old ticket)) }
    {
        let found = open_at(&mut self.slots, self.first, ticket);
        found.put_down();
        self.unmarked = self.unmarked.min(ticket);
    }

    /// Makes a trial the candidate of an active goal, or takes it away.
    pub fn set_candidate(&mut self, ticket: u64, candidate: Option<Trial<A>>)
        requires { IsActive self.old ticket }
        ensures { self.new ≡ slice_set self.old ticket (with_candidate candidate (ticket_at self.old ticket)) }
    {
        let found = open_at(&mut self.slots, self.first, ticket);
        found.set_candidate(candidate);
    }

    /// Moves the search of an active goal on after a judged trial, and takes its candidate away.
    pub fn advance(&mut self, ticket: u64, judged: &Judged<A>)
        requires { IsActive self.old ticket }
        ensures { self.new ≡ slice_set self.old ticket (advanced judged.now (ticket_at self.old ticket)) }
    {
        let found = open_at(&mut self.slots, self.first, ticket);
        found.advance(judged);
    }

    /// Lets the search of an active goal pass over trials, as [`Search::pass_over`] does, and gives its answer. Where there
    /// were any, and perhaps more come, the candidate is taken away; else the tickets stay as they are. It takes no memory.
    pub fn pass_over<'s>(
        &mut self,
        ticket: u64,
        program: &'s Program<A>,
        plans: &'s Plans<A>,
        store: &'s Store<A>,
        most: u64,
        instance: &mut Instance,
        bound: &mut Binding<'s, A>,
    ) -> Passed
        requires active { IsActive self.old ticket }
        requires plans { ArePlans program.now plans.now }
        ensures few { result.count ≤ most }
        ensures more { IsCutAt most result }
        ensures passed { PassesOlder program.now plans.now store.now.entries result instance.new bound.new (ticket_at self.old ticket) (ticket_at self.new ticket) }
        ensures others { self.new ≡ slice_set self.old ticket (ticket_at self.new ticket) }
    {
        let found = open_at(&mut self.slots, self.first, ticket);
        found.pass_over(program, plans, store, most, instance, bound)
    }

    /// Puts the search of an active goal at the place of another one of its label, and takes its candidate away.
    pub fn go_to(&mut self, ticket: u64, place: Search)
        requires { IsSearchFor place (ticket_at self.old ticket) }
        ensures { self.new ≡ slice_set self.old ticket (going_on place.place (ticket_at self.old ticket)) }
    {
        let found = open_at(&mut self.slots, self.first, ticket);
        found.go_to(place);
    }

    /// Ends the goal of a ticket.
    #[inline(always)]
    pub fn end(&mut self, ticket: u64)
        ensures { self.new ≡ slice_set self.old ticket ended }
    {
        let at = place_of(self.first, ticket);
        if at >= self.slots.len() || at < self.gone {
            return;
        }
        if at > self.gone {
            self.slots[at] = None;
            return;
        }
        // What the slot holds stays until the slot is let go.
        self.gone = next_open(&self.slots, at + 1);
    }

    /// Marks a ticket that waits or rests.
    pub fn mark(&mut self, ticket: u64)
        requires { IsClaimable (state_of self.old ticket) }
        ensures { self.new ≡ slice_set self.old ticket (marked true (ticket_at self.old ticket)) }
    {
        let found = open_at(&mut self.slots, self.first, ticket);
        found.stray = true;
        self.unmarked = self.unmarked.min(ticket);
    }

    /// The least ticket that is marked.
    fn first_stray(&self) -> Option<u64>
        ensures { MatchOption result (NoneStray self.now) (IsFirstStray self.now) }
    {
        let first = self.first;
        let slots = &self.slots;
        let start = (self.unmarked.saturating_sub(first) as usize).max(self.gone);
        for at in start..slots.len() {
            if let Some(found) = &slots[at] {
                if found.stray {
                    return Some(first + at as u64);
                }
            }
        }
        None
    }

    /// Takes the mark off the least ticket that has one.
    pub fn take_stray(&mut self) -> Option<u64>
        ensures { LosesStray self.old result self.new }
    {
        let Some(ticket) = self.first_stray() else {
            self.unmarked = u64::MAX;
            return None;
        };
        let found = open_at(&mut self.slots, self.first, ticket);
        found.stray = false;
        self.unmarked = ticket;
        Some(ticket)
    }

    /// The least open ticket that no other seat holds.
    pub fn next_for(&self, seat: u32) -> Option<u64>
        ensures { MatchOption result (NoneFor self.now seat) (IsLeastFor self.now seat) }
    {
        let first = self.first;
        let slots = &self.slots;
        for at in self.gone..slots.len() {
            if let Some(found) = &slots[at] {
                if found.is_free_for(seat) {
                    return Some(first + at as u64);
                }
            }
        }
        None
    }
}
