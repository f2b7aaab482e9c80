//! A ticket that is open.
ghost use Rattle.std.specs.Prelude.{◌≡◌, ◌↔◌, ◌≤◌, false, Some, None, IsTrue, IfOk, MatchBool, MatchOption};
ghost use Rattle.std.specs.Option.{option_copied};
ghost use Rattle.chr_plan.specs.Plans.{ArePlans};
ghost use Rattle.chr_calls.specs.declared.answers.TicketState.TheVariants.{Held, Waiting};
ghost use Rattle.chr_calls.specs.Tickets.{waiting, activated_by, held_by, put_down, with_candidate, going_on, atom_in, search_in};
ghost use Rattle.chr_tickets.specs.Open.{shown_ticket, state_in, is_open_for, with_atom, IsActiveGoal};
ghost use Rattle.chr_tickets.specs.Made.{atom_under, waiting_bare, WaitsMade};
ghost use Rattle.chr_tickets.specs.Passed.{advanced, IsCutAt, IsSearchFor, PassesOlder};

use chr_calls::TicketState;
use chr_guard::{Binding, body};
use chr_plan::Plans;
use chr_rule::{Program, RuleAtom};
use chr_search::{Instance, Judged, Passed, Search, Then, Trial};
use chr_store::{Label, Store};
use chr_value::Atom;
use std::alloc::{AllocError, Allocator};
use std::mem;

/// What an open ticket stands for.
#[derive(Drop)]
pub(crate) enum Goal<A: Allocator> {
    /// An atom that waits outside the store.
    Waiting(Atom<A>),
    /// The search of an atom in the store, and the seat that holds it.
    Active {
        search: Search,
        candidate: Option<Trial<A>>,
        holder: Option<u32>,
    },
}

/// An open ticket's goal, and whether it is marked stray.
#[derive(Drop)]
pub(crate) struct Ticket<A: Allocator> {
    pub(crate) goal: Goal<A>,
    pub(crate) stray: bool,
}

impl<A: Allocator + Copy> Ticket<A> {
    /// A ticket of an atom that waits.
    pub(crate) fn waiting(atom: Atom<A>) -> Ticket<A>
        ensures { shown_ticket result ≡ waiting atom }
    {
        Ticket {
            goal: Goal::Waiting(atom),
            stray: false,
        }
    }

    /// What a seat is told of it.
    pub(crate) fn state(&self) -> TicketState
        ensures { result ≡ state_in (shown_ticket self.now) }
    {
        match &self.goal {
            Goal::Waiting(_) => TicketState::Waiting,
            Goal::Active {
                holder: Some(seat),
                ..
            } => TicketState::Held(*seat),
            Goal::Active { holder: None, .. } => TicketState::Resting,
        }
    }

    /// Whether no other seat holds it.
    pub(crate) fn is_free_for(&self, seat: u32) -> bool
        ensures { result ≡ is_open_for seat (state_in (shown_ticket self.now)) }
    {
        match self.state() {
            TicketState::Held(holder) => holder == seat,
            TicketState::Waiting | TicketState::Resting => true,
            TicketState::Unknown | TicketState::Ended => false,
        }
    }

    /// The atom that waits.
    pub(crate) fn atom(&self) -> Option<&Atom<A>>
        ensures { option_copied result ≡ atom_in (shown_ticket self.now).goal }
    {
        match &self.goal {
            Goal::Waiting(atom) => Some(atom),
            Goal::Active { .. } => None,
        }
    }

    /// Adds the arguments of a constraint of a body to the atom that waits, as [`body::add_arguments`] does.
    #[inline(always)]
    pub(crate) fn add_arguments(
        &mut self,
        alloc: A,
        pattern: &RuleAtom<A>,
        binding: &Binding<'_, A>,
    ) -> Result<bool, AllocError>
        requires { shown_ticket self.old ≡ waiting_bare pattern.now }
        ensures mark { (shown_ticket self.new).stray ≡ (shown_ticket self.old).stray }
        ensures made { IfOk result (λ all. IsTrue all → WaitsMade pattern.now binding.now (shown_ticket self.new)) }
        ensures none { IfOk result (λ all. all ≡ false → atom_under pattern.now binding.now ≡ None) }
    {
        let Goal::Waiting(atom) = &mut self.goal else {
            unreachable!();
        };
        body::add_arguments(alloc, atom, pattern, binding)
    }

    /// Swaps the atom that waits with another. False where none waits: then nothing has changed.
    #[inline(always)]
    pub(crate) fn take_waiting(&mut self, other: &mut Atom<A>) -> bool
        ensures waits { IsTrue result ↔ state_in (shown_ticket self.old) ≡ Waiting }
        ensures atom { MatchBool result (Some other.new ≡ atom_in (shown_ticket self.old).goal) (other.new ≡ other.old) }
        ensures mark { (shown_ticket self.new).stray ≡ (shown_ticket self.old).stray }
        ensures ticket { MatchBool result (shown_ticket self.new ≡ with_atom other.old (shown_ticket self.old)) (shown_ticket self.new ≡ shown_ticket self.old) }
    {
        let Goal::Waiting(atom) = &mut self.goal else {
            return false;
        };
        mem::swap(atom, other);
        true
    }

    /// The search.
    pub(crate) fn search(&self) -> Option<&Search>
        ensures { option_copied result ≡ search_in (shown_ticket self.now) }
    {
        match &self.goal {
            Goal::Waiting(_) => None,
            Goal::Active { search, .. } => Some(search),
        }
    }

    /// The search, where this seat holds the ticket.
    pub(crate) fn held(&self, seat: u32) -> Option<&Search>
        ensures { MatchOption result (state_in (shown_ticket self.now) ≡ Held seat → ⊥) (λ search. (state_in (shown_ticket self.now) ≡ Held seat) × (Some search.now ≡ search_in (shown_ticket self.now))) }
    {
        match &self.goal {
            Goal::Active {
                search,
                holder: Some(holder),
                ..
            } => {
                if *holder != seat {
                    return None;
                }
                Some(search)
            }
            Goal::Active { holder: None, .. } => None,
            Goal::Waiting(_) => None,
        }
    }

    /// The candidate.
    pub(crate) fn candidate(&self) -> Option<&Trial<A>>
        ensures { option_copied result ≡ (shown_ticket self.now).candidate }
    {
        match &self.goal {
            Goal::Waiting(_) => None,
            Goal::Active { candidate, .. } => candidate.as_ref(),
        }
    }

    /// Makes it active under a label, held by a seat, without a mark. Its search begins.
    pub(crate) fn activate(&mut self, seat: u32, label: Label)
        ensures { shown_ticket self.new ≡ activated_by seat label }
    {
        self.goal = Goal::Active {
            search: Search::begin(label),
            candidate: None,
            holder: Some(seat),
        };
        self.stray = false;
    }

    /// Gives an active ticket to a seat, without its candidate, and takes its mark off.
    pub(crate) fn hold(&mut self, seat: u32)
        ensures { IsActiveGoal (shown_ticket self.old).goal → shown_ticket self.new ≡ held_by seat (shown_ticket self.old) }
    {
        if let Goal::Active {
            candidate,
            holder,
            ..
        } = &mut self.goal
        {
            *candidate = None;
            *holder = Some(seat);
        }
        self.stray = false;
    }

    /// Takes an active ticket from its seat, without its candidate, and marks it.
    pub(crate) fn put_down(&mut self)
        ensures { IsActiveGoal (shown_ticket self.old).goal → shown_ticket self.new ≡ put_down (shown_ticket self.old) }
    {
        if let Goal::Active {
            candidate,
            holder,
            ..
        } = &mut self.goal
        {
            *candidate = None;
            *holder = None;
        }
        self.stray = true;
    }

    /// Replaces the candidate of an active ticket.
    pub(crate) fn set_candidate(&mut self, new: Option<Trial<A>>)
        ensures { IsActiveGoal (shown_ticket self.old).goal → shown_ticket self.new ≡ with_candidate new (shown_ticket self.old) }
    {
        if let Goal::Active { candidate, .. } = &mut self.goal {
            *candidate = new;
        }
    }

    /// Moves the search of an active ticket on after a judged trial, and takes its candidate away.
    pub(crate) fn advance(&mut self, judged: &Judged<A>)
        ensures { IsActiveGoal (shown_ticket self.old).goal → shown_ticket self.new ≡ advanced judged.now (shown_ticket self.old) }
    {
        if let Goal::Active {
            search,
            candidate,
            ..
        } = &mut self.goal
        {
            search.advance(judged);
            *candidate = None;
        }
    }

    /// Lets the search of an active ticket pass over trials, as [`Search::pass_over`] does. Where there were any, and perhaps
    /// more come, the candidate is taken away; else the ticket stays as it is.
    pub(crate) fn pass_over<'s>(
        &mut self,
        program: &'s Program<A>,
        plans: &'s Plans<A>,
        store: &'s Store<A>,
        most: u64,
        instance: &mut Instance,
        bound: &mut Binding<'s, A>,
    ) -> Passed
        requires active { IsActiveGoal (shown_ticket self.old).goal }
        requires plans { ArePlans program.now plans.now }
        ensures few { result.count ≤ most }
        ensures more { IsCutAt most result }
        ensures passed { PassesOlder program.now plans.now store.now.entries result instance.new bound.new (shown_ticket self.old) (shown_ticket self.new) }
    {
        let Goal::Active {
            search,
            candidate,
            ..
        } = &mut self.goal
        else {
            unreachable!();
        };
        let passed = search.pass_over(program, plans, store, most, instance, bound);
        if passed.then == Then::More && passed.count > 0 {
            *candidate = None;
        }
        passed
    }

    /// Puts the search of an active ticket at the place of another one of its label, and takes its candidate away.
    pub(crate) fn go_to(&mut self, place: Search)
        ensures { IsSearchFor place (shown_ticket self.old) → shown_ticket self.new ≡ going_on place.place (shown_ticket self.old) }
    {
        if let Goal::Active {
            search,
            candidate,
            ..
        } = &mut self.goal
        {
            *search = place;
            *candidate = None;
        }
    }
}
