//! Searches that pass over trials, and the tickets of the body of what is found then.
ghost use Rattle.std.specs.Prelude.{◌≡◌, ◌≤◌, ℕ, IfOk, OnErr};
ghost use Rattle.chr_model.specs.Goals.{Numbered};
ghost use Rattle.chr_plan.specs.Plans.{ArePlans};
ghost use Rattle.chr_store.specs.Labels.{entered};
ghost use Rattle.chr_search.specs.Positions.{beginning};
ghost use Rattle.chr_search.specs.Trials.{older};
ghost use Rattle.chr_search.specs.declared.search.Then.TheVariants as thens;
ghost use Rattle.chr_calls.specs.Tickets.{ticket_at, IsActive};
ghost use Rattle.chr_book.specs.Passed.{PassesMaking, PassesBefore};

use crate::body::push_found;
use chr_guard::Binding;
use chr_plan::Plans;
use chr_rule::Program;
use chr_search::{Instance, Passed, Search};
use chr_store::Store;
use chr_tickets::Tickets;
use chr_value::Atom;
use std::alloc::{AllocError, Allocator};

/// Lets the search of a ticket's active goal pass over trials, at most so many, and gives the body's atoms of the trial that
/// is then found whole, if any, the next tickets. An `Err` is E01, and nothing has changed: memory is refused only once a
/// whole trial is found, and then the ticket is as it was.
pub fn pass_over<A: Allocator + Copy>(
    tickets: &mut Tickets<A>,
    ticket: u64,
    program: &Program<A>,
    plans: &Plans<A>,
    store: &Store<A>,
    most: u64,
    instance: &mut Instance,
) -> Result<Passed, AllocError>
    requires active { IsActive tickets.old ticket }
    requires plans { ArePlans program.now plans.now }
    ensures few { IfOk result (λ come. come.count ≤ most) }
    ensures more { IfOk result (λ come. come.then ≡ thens.More → come.count ≡ most) }
    ensures ok { IfOk result (λ come. (l : ℕ) → (ticket_at tickets.old ticket).goal ≡ Numbered l → PassesMaking (older program.now plans.now store.now.entries l) ticket come instance.new tickets.old tickets.new) }
    ensures err { OnErr result (tickets.new ≡ tickets.old) }
{
    let mut bound = Binding::free(0);
    let come = tickets.pass_over(ticket, program, plans, store, most, instance, &mut bound);
    push_found(tickets, program, come.then, instance.whole(), &bound)?;
    Ok(come)
}

/// Lets a search that is at its beginning pass over trials in the store as it is once this atom is entered, at most so many,
/// and gives the body's atoms of the trial that is then found whole, if any, the next tickets. An `Err` is E01: then these are
/// taken back.
pub fn pass_over_before<A: Allocator + Copy>(
    tickets: &mut Tickets<A>,
    search: &mut Search,
    program: &Program<A>,
    plans: &Plans<A>,
    store: &Store<A>,
    atom: &Atom<A>,
    most: u64,
    instance: &mut Instance,
) -> Result<Passed, AllocError>
    requires plans { ArePlans program.now plans.now }
    requires label { search.old.label ≡ store.now.next }
    requires room { store.now.next ≤ store.now.limit }
    requires place { search.old.place ≡ beginning }
    ensures few { IfOk result (λ come. come.count ≤ most) }
    ensures more { IfOk result (λ come. come.then ≡ thens.More → come.count ≡ most) }
    ensures label { search.new.label ≡ search.old.label }
    ensures ok { IfOk result (λ come. PassesBefore (older program.now plans.now (entered store.now atom.now).entries search.old.label) come instance.new search.old.place search.new.place tickets.old tickets.new) }
    ensures err { OnErr result (tickets.new ≡ tickets.old) }
{
    let mut bound = Binding::free(0);
    let come = search.pass_over_before(program, plans, store, atom, most, instance, &mut bound);
    push_found(tickets, program, come.then, instance.whole(), &bound)?;
    Ok(come)
}
