//! Which binding makes heads of a rule equal to atoms.
ghost use Rattle.std.specs.Prelude.{◌≡◌, ◌≤◌, true, Some, length, map, MatchOption};
ghost use Rattle.std.specs.List.{list_all, AllByRecursion};
ghost use Rattle.chr_value.specs.Atoms.{ground, said};
ghost use Rattle.chr_value.specs.Limits.{IsWithin};
ghost use Rattle.chr_rule.specs.Parts.{argument, shape};
ghost use Rattle.chr_rule.specs.Scope.{argument_known};
ghost use Rattle.chr_guard.specs.Values.{term_under};
ghost use Rattle.chr_guard.specs.Bindings.{Keeps, Narrows, NarrowsIf};
ghost use Rattle.chr_guard.specs.Instances.{atom_under};
ghost use Rattle.chr_guard.specs.Matching.{AreAtHeads, HeadsAre, IsFit, TakeValues, TermsAre};

use crate::binding::Binding;
use chr_rule::{Rule, RuleAtom, Term};
use chr_value::{Atom, OWN_ARGS, Value, ValueRef};
use std::alloc::Allocator;

/// Extends a binding so that a term equals a value. False only where no valuation that extends it makes them equal.
/// Most terms are variables, for which it takes no call of its own.
#[cycle(fit)]
#[inline(always)]
pub(crate) fn fit_term<'v, A: Allocator + Copy>(
    binding: &mut Binding<'v, A>,
    term: &Term<A>,
    value: ValueRef<'v, A>,
) -> bool
    requires known { argument_known (length binding.old) (argument term.now) ≡ true }
    requires within { IsWithin (said value) }
    ensures narrows { NarrowsIf (λ v. term_under v (argument term.now) ≡ Some (said value.entry)) result binding.old binding.new }
    ensures keeps { Keeps binding.old binding.new }
{
    match term {
        Term::Var(x) => binding.hold(*x, value),
        Term::Given(given) => given.as_ref().same(&value),
        Term::Open(open) => match value {
            ValueRef::Comp(comp) => {
                if open.functor.number != comp.functor.number {
                    return false;
                }
                fit_terms(binding, &open.args, &comp.args)
            }
            _ => false,
        },
    }
}

/// The same for the arguments of a functor.
#[cycle(fit)]
fn fit_terms<'v, A: Allocator + Copy>(
    binding: &mut Binding<'v, A>,
    terms: &[Term<A>],
    values: &'v [Value<A>],
) -> bool
    requires known { list_all (argument_known (length binding.old)) (map argument terms.now) ≡ true }
    requires within { AllByRecursion IsWithin (map ground values.now) }
    ensures narrows { NarrowsIf (λ v. map (term_under v) (map argument terms.now) ≡ map (λ t. Some (ground t)) values.now) result binding.old binding.new }
    ensures keeps { Keeps binding.old binding.new }
{
    if terms.len() != values.len() {
        return false;
    }
    for i in 0..terms.len() {
        if !fit_term(binding, &terms[i], values[i].as_ref()) {
            return false;
        }
    }
    true
}

/// The same for the arguments of a head, of which there are as many as an atom has, all in the atom itself.
#[inline(always)]
fn fit_own<'v, A: Allocator + Copy>(
    binding: &mut Binding<'v, A>,
    terms: &[Term<A>],
    atom: &'v Atom<A>,
) -> bool
    requires known { list_all (argument_known (length binding.old)) (map argument terms.now) ≡ true }
    requires arity { length terms.now ≡ length atom.now.args }
    requires own { length terms.now ≤ 3 }
    ensures narrows { NarrowsIf (TermsAre (map argument terms.now) atom.now.args) result binding.old binding.new }
    ensures keeps { Keeps binding.old binding.new }
{
    for i in 0..terms.len() {
        if !fit_term(binding, &terms[i], atom.own_arg_at(i)) {
            return false;
        }
    }
    true
}

/// The same wherever the atom's arguments lie. It takes a call.
fn fit_many<'v, A: Allocator + Copy>(
    binding: &mut Binding<'v, A>,
    terms: &[Term<A>],
    atom: &'v Atom<A>,
) -> bool
    requires known { list_all (argument_known (length binding.old)) (map argument terms.now) ≡ true }
    requires arity { length terms.now ≡ length atom.now.args }
    ensures narrows { NarrowsIf (TermsAre (map argument terms.now) atom.now.args) result binding.old binding.new }
    ensures keeps { Keeps binding.old binding.new }
{
    for i in 0..terms.len() {
        if !fit_term(binding, &terms[i], atom.arg_at(i)) {
            return false;
        }
    }
    true
}

/// Extends a binding so that the arguments of a head equal those of an atom, all in the atom itself, where each of the head's is
/// a free variable, or stands for the atom's already. It compares nothing.
#[inline(always)]
fn bind_own<'v, A: Allocator + Copy>(
    binding: &mut Binding<'v, A>,
    terms: &[Term<A>],
    atom: &'v Atom<A>,
)
    requires known { list_all (argument_known (length binding.old)) (map argument terms.now) ≡ true }
    requires own { length terms.now ≤ 3 }
    requires values { TakeValues binding.old (map argument terms.now) atom.now.args }
    ensures { Narrows (TermsAre (map argument terms.now) atom.now.args) binding.old binding.new }
{
    for i in 0..terms.len() {
        if let Term::Var(x) = &terms[i] {
            binding.put(*x, atom.own_arg_at(i));
        }
    }
}

/// Extends a binding so that a head equals an atom of its predicate, as [`fit_head`] does, without a look at the predicate.
#[inline(always)]
pub fn fit_partner<'v, A: Allocator + Copy>(
    binding: &mut Binding<'v, A>,
    head: &RuleAtom<A>,
    atom: &'v Atom<A>,
) -> bool
    requires known { list_all (argument_known (length binding.old)) (shape head.now).args ≡ true }
    requires name { (shape head.now).name ≡ atom.now.name }
    requires arity { length (shape head.now).args ≡ length atom.now.args }
    ensures narrows { NarrowsIf (λ v. atom_under v (shape head.now) ≡ Some atom.now) result binding.old binding.new }
    ensures keeps { Keeps binding.old binding.new }
{
    if head.terms.len() <= OWN_ARGS {
        fit_own(binding, &head.terms, atom)
    } else {
        fit_many(binding, &head.terms, atom)
    }
}

/// Extends a binding so that a head equals an atom of its predicate, where each of the head's arguments is a free variable, or
/// stands for the atom's argument already. It compares nothing where there are at most [`OWN_ARGS`] arguments.
#[inline(always)]
pub fn bind_partner<'v, A: Allocator + Copy>(
    binding: &mut Binding<'v, A>,
    head: &RuleAtom<A>,
    atom: &'v Atom<A>,
)
    requires known { list_all (argument_known (length binding.old)) (shape head.now).args ≡ true }
    requires name { (shape head.now).name ≡ atom.now.name }
    requires values { TakeValues binding.old (shape head.now).args atom.now.args }
    ensures narrows { Narrows (λ v. atom_under v (shape head.now) ≡ Some atom.now) binding.old binding.new }
    ensures keeps { Keeps binding.old binding.new }
{
    if head.terms.len() <= OWN_ARGS {
        bind_own(binding, &head.terms, atom);
    } else {
        fit_many(binding, &head.terms, atom);
    }
}

/// Extends a binding so that a head equals an atom. False only where no valuation that extends it makes them equal.
#[inline(always)]
pub fn fit_head<'v, A: Allocator + Copy>(
    binding: &mut Binding<'v, A>,
    head: &RuleAtom<A>,
    atom: &'v Atom<A>,
) -> bool
    requires { list_all (argument_known (length binding.old)) (shape head.now).args ≡ true }
    ensures narrows { NarrowsIf (λ v. atom_under v (shape head.now) ≡ Some atom.now) result binding.old binding.new }
    ensures keeps { Keeps binding.old binding.new }
{
    let name = atom.name();
    if head.name.number != name.number || head.terms.len() != atom.arity() {
        return false;
    }
    fit_partner(binding, head, atom)
}

/// The same for several heads.
pub(crate) fn fit_heads<'v, A: Allocator + Copy>(
    binding: &mut Binding<'v, A>,
    heads: &[RuleAtom<A>],
    atoms: &[&'v Atom<A>],
) -> bool
    requires { AllByRecursion (λ h. list_all (argument_known (length binding.old)) h.args ≡ true) (map shape heads.now) }
    ensures { NarrowsIf (λ v. map (atom_under v) (map shape heads.now) ≡ map (λ a. Some a.now) atoms.now) result binding.old binding.new }
{
    if heads.len() != atoms.len() {
        return false;
    }
    for i in 0..heads.len() {
        if !fit_head(binding, &heads[i], atoms[i]) {
            return false;
        }
    }
    true
}

/// The same for the heads of some numbers. A number that no head has fits no atom.
pub(crate) fn fit_placed<'v, A: Allocator + Copy>(
    binding: &mut Binding<'v, A>,
    rule: &Rule<A>,
    placed: &[(usize, &'v Atom<A>)],
) -> bool
    requires { length binding.old ≡ rule.now.variables }
    ensures { NarrowsIf (AreAtHeads rule.now (map (λ p. (p.0, p.1.now)) placed.now)) result binding.old binding.new }
{
    for (number, atom) in placed {
        let Some(head) = rule.head(*number) else {
            return false;
        };
        if !fit_head(binding, head, atom) {
            return false;
        }
    }
    true
}

/// The one binding of the listed heads' variables under which these heads are the listed atoms, or none where there is
/// none. Heads are numbered from 1, kept heads first; a number that no head has fits no atom. For no heads all is free.
pub fn fit<'v, A: Allocator + Copy>(
    rule: &Rule<A>,
    placed: &[(usize, &'v Atom<A>)],
) -> Option<Binding<'v, A>>
    ensures { let places = map (λ p. (p.0, p.1.now)) placed.now in MatchOption result ((v : _) → AreAtHeads rule.now places v → ⊥) (λ binding. IsFit rule.now (AreAtHeads rule.now places) binding) }
{
    let mut binding = Binding::free(rule.variables());
    if !fit_placed(&mut binding, rule, placed) {
        return None;
    }
    Some(binding)
}

/// The one binding under which the rule's heads are these atoms, in head order, or none where there is none.
pub(crate) fn fit_all<'v, A: Allocator + Copy>(
    rule: &Rule<A>,
    atoms: &[&'v Atom<A>],
) -> Option<Binding<'v, A>>
    ensures { let facts = map (λ a. a.now) atoms.now in MatchOption result ((v : _) → HeadsAre rule.now facts v → ⊥) (λ binding. IsFit rule.now (HeadsAre rule.now facts) binding) }
{
    let kept = rule.kept();
    if atoms.len() < kept.len() {
        return None;
    }
    let (first, rest) = atoms.split_at(kept.len());
    let mut binding = Binding::free(rule.variables());
    if !fit_heads(&mut binding, kept, first) {
        return None;
    }
    let removed = rule.removed();
    if !fit_heads(&mut binding, removed, rest) {
        return None;
    }
    Some(binding)
}
