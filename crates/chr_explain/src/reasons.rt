//! What is told of each cause of a label.
ghost use Rattle.std.specs.Prelude.{◌≡◌, ◌++◌, ◌-◌, ◌<◌, Bool, true, false, map, length, Some, None, IfOk, slice_get, slice_index_or};
ghost use Rattle.std.specs.List.{AllByRecursion};
ghost use Rattle.chr_rule.specs.Rules.{rule_at};
ghost use Rattle.chr_log.specs.Events.{event_of, events_of};
ghost use Rattle.chr_causes.specs.Origins.{IsOrigin};
ghost use Rattle.chr_explain.specs.Atoms.{AreAtoms, atoms_of};
ghost use Rattle.chr_explain.specs.Reasons.{reason_of, AreRuleValues, AreValues, AreRemovals, HasRemovals, IsReason};

use crate::atoms::head_atoms;
use chr_causes::causes::Cause;
use chr_guard::Binding;
use chr_guard::instance::instance_under;
use chr_log::{Event, Labels};
use chr_rule::Program;
use chr_value::Atom;
use std::alloc::{AllocError, Allocator};

/// What is told of a cause.
#[derive(Drop)]
pub struct Reason<'a, A: Allocator> {
    pub cause: Cause,
    pub atom: &'a Atom<A>,
    /// What a firing that gave it bound the rule's variables to.
    pub values: Option<Binding<'a, A>>,
    /// The entry that removed it, by its place in the log from 0. None where none did, and where it isn't asked.
    pub removed: Option<usize>,
}

/// The values of a rule's variables in the instance whose heads have these labels.
fn rule_values<'a, A: Allocator + Copy>(
    alloc: A,
    program: &Program<A>,
    atoms: &'a [Atom<A>],
    rule: u16,
    kept: &Labels,
    removed: &Labels,
) -> Result<Option<Binding<'a, A>>, AllocError>
    ensures { IfOk result (AreRuleValues (rule_at program.now rule) (atoms_of atoms.now kept.now.items ++ atoms_of atoms.now removed.now.items)) }
{
    let Some(rule) = program.rule(usize::from(rule)) else {
        return Ok(None);
    };
    let heads = head_atoms(alloc, atoms, kept, removed)?;
    Ok(instance_under(rule, &heads))
}

/// The values of the variables of an event that is a firing.
fn values<'a, A: Allocator + Copy>(
    alloc: A,
    program: &Program<A>,
    atoms: &'a [Atom<A>],
    event: &Event<A>,
) -> Result<Option<Binding<'a, A>>, AllocError>
    ensures { IfOk result (AreValues program.now atoms.now (event_of event.now)) }
{
    match event {
        Event::Fire {
            rule,
            kept,
            removed,
            ..
        } => rule_values(alloc, program, atoms, *rule, kept, removed),
        Event::Post { .. } | Event::Activate { .. } | Event::Drop { .. } => Ok(None),
    }
}

/// The removal of a label, if it is among these.
fn removal(removals: &[Option<usize>], label: u64) -> Option<usize>
    ensures { result ≡ slice_index_or removals.now (label - 1) None }
{
    match removals.get(label.saturating_sub(1) as usize) {
        Some(removal) => *removal,
        None => None,
    }
}

/// The reasons of causes, by the atoms of all labels and the removals that are asked for. An `Err` is E01.
pub fn reasons<'a, A: Allocator + Copy>(
    alloc: A,
    program: &Program<A>,
    events: &[Event<A>],
    atoms: &'a [Atom<A>],
    removals: &[Option<usize>],
    causes: &[Cause],
) -> Result<Vec<Reason<'a, A>, A>, AllocError>
    requires atoms { AreAtoms program.now (events_of events.now) atoms.now }
    requires origins { AllByRecursion (λ c. IsOrigin program.now (events_of events.now) c.label c.origin) causes.now }
    ensures causes { IfOk result (λ list. map (λ r. r.cause) list.items ≡ causes.now) }
    ensures each { (gone : Bool) → HasRemovals gone (events_of events.now) causes.now removals.now → IfOk result (λ list. AllByRecursion (IsReason program.now (events_of events.now) atoms.now gone) (map reason_of list.items)) }
{
    let mut list = Vec::new(alloc);
    for cause in causes {
        let values = values(alloc, program, atoms, &events[cause.origin.made])?;
        list.push(Reason {
            cause: *cause,
            atom: &atoms[cause.label as usize - 1],
            values,
            removed: removal(removals, cause.label),
        })?;
    }
    Ok(list)
}
