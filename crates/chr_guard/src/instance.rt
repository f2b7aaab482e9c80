//! Which atoms are an instance of a rule.
ghost use Rattle.std.specs.Prelude.{◌≡◌, List, ℕ, map, IfOk, MatchOption};
ghost use Rattle.chr_value.specs.Atoms.{Atom};
ghost use Rattle.chr_rule.specs.Parts.{comparison};
ghost use Rattle.chr_guard.specs.Bindings.{Keeps};
ghost use Rattle.chr_guard.specs.Instances.{IsInstance, NoInstance};
ghost use Rattle.chr_guard.specs.Matching.{HeadsAre, IsFit, IsInstanceIf, IsInstanceUnder};

use crate::binding::Binding;
use crate::body::{Body, added_atoms, complete_body};
use crate::matching::fit_all;
use crate::values::guard_holds;
use chr_rule::{Comparison, Rule};
use chr_value::Atom;
use std::alloc::{AllocError, Allocator};

/// Binds all variables of a rule's instance, where those of its heads are bound. False where the heads' atoms are no
/// instance, whatever the body. The guard is the rule's: who tries many atoms keeps it at hand.
#[inline(always)]
pub fn becomes_instance<A: Allocator + Copy>(
    rule: &Rule<A>,
    guard: &[Comparison<A>],
    binding: &mut Binding<'_, A>,
) -> bool
    requires guard { map comparison guard.now ≡ rule.now.guard }
    requires fit { (facts : List (Atom ℕ)) × IsFit rule.now (HeadsAre rule.now facts) binding.old }
    ensures instance { (facts : List (Atom ℕ)) → IsFit rule.now (HeadsAre rule.now facts) binding.old → IsInstanceIf rule.now facts result binding.new }
    ensures keeps { Keeps binding.old binding.new }
{
    // Any rule is in scope, as this says of it: its heads bind the variables of its guard.
    let _ = rule.variables();
    if !guard_holds(guard, binding) {
        return false;
    }
    complete_body(rule, binding)
}

/// The one binding of all variables of a rule's instance, from that of its heads' variables. None where the heads' atoms
/// are no instance, whatever the body.
pub fn instance_from<'v, A: Allocator + Copy>(
    rule: &Rule<A>,
    mut binding: Binding<'v, A>,
) -> Option<Binding<'v, A>>
    requires { (facts : List (Atom ℕ)) × IsFit rule.now (HeadsAre rule.now facts) binding }
    ensures { (facts : List (Atom ℕ)) → IsFit rule.now (HeadsAre rule.now facts) binding.entry → MatchOption result (NoInstance rule.now facts) (IsInstanceUnder rule.now facts) }
{
    if !becomes_instance(rule, rule.guard(), &mut binding) {
        return None;
    }
    Some(binding)
}

/// The one binding of all variables of the instance of a rule whose heads are these atoms, in head order: kept heads first.
/// None where they are no instance, whatever the body. [`added_atoms`] makes the body.
pub fn instance_under<'v, A: Allocator + Copy>(
    rule: &Rule<A>,
    atoms: &[&'v Atom<A>],
) -> Option<Binding<'v, A>>
    ensures { let facts = map (λ a. a.now) atoms.now in MatchOption result (NoInstance rule.now facts) (IsInstanceUnder rule.now facts) }
{
    let binding = fit_all(rule, atoms)?;
    instance_from(rule, binding)
}

/// The body of the instance of a rule whose heads are these atoms, in head order: kept heads first. None where they are
/// no instance, whatever the body. Only compound values and arguments from the fourth on take memory. An `Err` is E01.
pub fn instance<A: Allocator + Copy>(
    alloc: A,
    rule: &Rule<A>,
    atoms: &[&Atom<A>],
) -> Result<Option<Body<A>>, AllocError>
    ensures { let facts = map (λ a. a.now) atoms.now in IfOk result (λ body. MatchOption body (NoInstance rule.now facts) (λ made. IsInstance rule.now facts made.items)) }
{
    let Some(binding) = instance_under(rule, atoms) else {
        return Ok(None);
    };
    added_atoms(alloc, rule, &binding)
}
