//! The atoms of a body, which wait.
ghost use Rattle.std.specs.Prelude.{◌≡◌, ◌++◌, ◌∷◌, [], ℕ, List, Some, OnOk, OnErr};
ghost use Rattle.chr_rule.specs.Parts.{member};
ghost use Rattle.chr_rule.specs.Rules.{Simpagation, rule_at};
ghost use Rattle.chr_search.specs.declared.search.Then.TheVariants as thens;
ghost use Rattle.chr_calls.specs.Tickets.{Ticket};
ghost use Rattle.chr_book.specs.Firings.{MakesBody, MakesFound};

use chr_guard::Binding;
use chr_rule::{BodyItem, Program, Rule};
use chr_search::{Then, Whole};
use chr_tickets::Tickets;
use std::alloc::{AllocError, Allocator};

/// Gives what a member of a body adds under a binding the next ticket. An `Err` is E01, and nothing has changed.
fn push_member<A: Allocator + Copy>(
    tickets: &mut Tickets<A>,
    item: &BodyItem<A>,
    binding: &Binding<'_, A>,
) -> Result<(), AllocError>
    ensures ok { OnOk result ((more : List Ticket) × MakesBody (member item.now ∷ []) binding.now more × (tickets.new ≡ tickets.old ++ more)) }
    ensures err { OnErr result (tickets.new ≡ tickets.old) }
{
    let BodyItem::Add(pattern) = item else {
        return Ok(());
    };
    tickets.push_made(pattern, binding)
}

/// Gives the atoms that a rule's body adds under a binding of all its variables the next tickets, in written order. An
/// `Err` is E01, and nothing has changed.
pub fn push_body<A: Allocator + Copy>(
    tickets: &mut Tickets<A>,
    rule: &Rule<A>,
    binding: &Binding<'_, A>,
) -> Result<(), AllocError>
    ensures ok { OnOk result ((more : List Ticket) × MakesBody rule.now.body binding.now more × (tickets.new ≡ tickets.old ++ more)) }
    ensures err { OnErr result (tickets.new ≡ tickets.old) }
{
    let first = tickets.next();
    for item in rule.body() {
        let Ok(()) = push_member(tickets, item, binding) else {
            tickets.truncate(first);
            return Err(AllocError);
        };
    }
    Ok(())
}

/// Gives the body's atoms of a trial that a search has found, where it has, the next tickets, in written order. An `Err` is
/// E01: one was found, and nothing has changed.
pub fn push_found<A: Allocator + Copy>(
    tickets: &mut Tickets<A>,
    program: &Program<A>,
    then: Then,
    whole: &Whole,
    binding: &Binding<'_, A>,
) -> Result<(), AllocError>
    requires { then ≡ thens.Whole → (rule : Simpagation ℕ) × (rule_at program.now whole.now.number ≡ Some rule) }
    ensures ok { OnOk result ((more : List Ticket) × MakesFound program.now then whole.now binding.now more × (tickets.new ≡ tickets.old ++ more)) }
    ensures err { OnErr result (tickets.new ≡ tickets.old) }
    ensures found { OnErr result (then ≡ thens.Whole) }
{
    if then != Then::Whole {
        return Ok(());
    }
    let Some(rule) = program.rule(usize::from(whole.number())) else {
        unreachable!();
    };
    push_body(tickets, rule, binding)
}
