//! The heads of a rule, with the entries of a store that are picked for them.
ghost use Rattle.std.specs.Prelude.{◌≡◌, ◌≤◌, ◌<◌, ◌+◌, true, length, MatchOption};
ghost use Rattle.chr_value.specs.Bounds.{most_heads};
ghost use Rattle.chr_guard.specs.Bindings.{NarrowsIf, Keeps};
ghost use Rattle.chr_model.specs.Stores.{among, labels};
ghost use Rattle.chr_enumeration.specs.Partners.{HasAllBut};
ghost use Rattle.chr_enumeration.specs.Picks.{picks, picked, AllPicked, IsNext, Fills, HeadIs, MayBeHead, IsPartial, IsMatch, NoMatch};

use crate::partners::Partners;
use chr_guard::instance::becomes_instance;
use chr_guard::{Binding, fit_head};
use chr_log::{Label, Labels};
use chr_rule::Rule;
use chr_value::Atom;
use std::alloc::Allocator;

/// A labelled instance of a rule: the labels of its kept and of its removed heads, in head order, and the binding of the
/// rule's variables.
#[derive(Drop)]
pub struct Match<'s, A: Allocator> {
    pub kept: Labels,
    pub removed: Labels,
    pub binding: Binding<'s, A>,
}

/// Returns whether a label is picked for some head.
fn is_picked<A: Allocator>(slots: &[Option<(Label, &Atom<A>)>], label: Label) -> bool
    ensures { result ≡ among (labels (picked (picks slots.now))) label }
{
    for slot in slots {
        if let Some(entry) = slot {
            if entry.0 == label {
                return true;
            }
        }
    }
    false
}

/// Extends a binding so that the head of a number, from 1, is an atom as well. False only where nothing that extends it makes
/// them equal.
pub fn fit_next<'s, A: Allocator + Copy>(
    rule: &Rule<A>,
    binding: &mut Binding<'s, A>,
    number: usize,
    atom: &'s Atom<A>,
) -> bool
    requires { length binding.old ≡ rule.now.variables }
    ensures narrows { NarrowsIf (HeadIs rule.now number atom.now) result binding.old binding.new }
    ensures keeps { Keeps binding.old binding.new }
{
    let Some(head) = rule.head(number) else {
        return false;
    };
    if !fit_head(binding, head, atom) {
        return false;
    }
    true
}

/// Returns the labels that are picked, in head order.
fn labels_of<A: Allocator>(slots: &[Option<(Label, &Atom<A>)>]) -> Labels
    requires { length slots.now ≤ most_heads }
    ensures { result.items ≡ labels (picked (picks slots.now)) }
{
    let mut found = Labels::new();
    for slot in slots {
        if let Some(entry) = slot {
            found.push(entry.0);
        }
    }
    found
}

/// Returns the instance that the entries make which are picked for all heads, if they make one.
fn whole<'s, A: Allocator + Copy, P: Partners<A>>(
    rule: &Rule<A>,
    partners: &P,
    slots: &[Option<(Label, &Atom<A>)>],
    binding: &mut Binding<'s, A>,
) -> Option<Match<'s, A>>
    requires partial { IsPartial rule.now (P.store partners.now) (picks slots.now) binding.old }
    requires all { AllPicked (picks slots.now) }
    ensures found { MatchOption result (NoMatch rule.now (P.store partners.now) (Fills (picks slots.now))) (IsMatch rule.now (P.store partners.now) (Fills (picks slots.now))) }
    ensures keeps { Keeps binding.old binding.new }
{
    let _own = partners.own();
    if !becomes_instance(rule, rule.guard(), binding) {
        return None;
    }
    let (kept, removed) = slots.split_at(rule.kept().len());
    Some(Match {
        kept: labels_of(kept),
        removed: labels_of(removed),
        binding: binding.copy(),
    })
}

/// Returns the shortest of the lists that have the labels of all partners for the head of a number, from 1, under a
/// binding.
fn candidates<'s, 'v, A: Allocator + Copy, P: Partners<A>>(
    rule: &'v Rule<A>,
    number: usize,
    partners: &'s P,
    binding: &Binding<'v, A>,
) -> &'s [u32]
    ensures { HasAllBut (P.own partners.now) (P.store partners.now) (MayBeHead rule.now number binding.now) result.now }
{
    let Some(head) = rule.head(number) else {
        return &[];
    };
    let mut shortest = partners.labels(head.name);
    for (index, term) in head.terms.iter().enumerate() {
        if let Some(value) = binding.key(term) {
            if let Some(labels) = partners.labels_at(head.name, index + 1, &value) {
                if labels.len() < shortest.len() {
                    shortest = labels;
                }
            }
        }
    }
    shortest
}

/// Returns the place of an open head, which is one for which nothing is picked, with its candidates: the first of those that
/// have the fewest. None where there is no open head.
fn next_head<'s, 'v, A: Allocator + Copy, P: Partners<A>>(
    rule: &'v Rule<A>,
    partners: &'s P,
    slots: &[Option<(Label, &Atom<A>)>],
    binding: &Binding<'v, A>,
) -> Option<(usize, &'s [u32])>
    ensures { MatchOption result (AllPicked (picks slots.now)) (λ next. IsNext rule.now (P.own partners.now) (P.store partners.now) (picks slots.now) binding.now next.0 next.1.now) }
{
    let mut next: Option<(usize, &'s [u32])> = None;
    for (place, slot) in slots.iter().enumerate() {
        if slot.is_some() {
            continue;
        }
        let labels = candidates(rule, place + 1, partners, binding);
        match next {
            Some((_, fewest)) if fewest.len() <= labels.len() => {}
            _ => next = Some((place, labels)),
        }
    }
    next
}

/// Returns the first labelled instance of a rule that has what is picked, where the binding is that of the picked heads'
/// variables. Where there is none the slots are as before, and the binding binds what it bound.
pub fn find_match<'s, A: Allocator + Copy, P: Partners<A>>(
    rule: &Rule<A>,
    partners: &'s P,
    slots: &mut [Option<(Label, &'s Atom<A>)>],
    binding: &mut Binding<'s, A>,
) -> Option<Match<'s, A>>
    requires partial { IsPartial rule.now (P.store partners.now) (picks slots.old) binding.old }
    requires own { among (labels (picked (picks slots.old))) (P.own partners.now) ≡ true }
    ensures found { let ps = picks slots.old in MatchOption result ((picks slots.new ≡ ps) × NoMatch rule.now (P.store partners.now) (Fills ps)) (IsMatch rule.now (P.store partners.now) (Fills ps)) }
    ensures keeps { Keeps binding.old binding.new }
{
    let Some((place, labels)) = next_head(rule, partners, slots, binding) else {
        return whole(rule, partners, slots, binding);
    };
    let known = binding.known();
    for candidate in labels {
        let label = u64::from(*candidate);
        if is_picked(slots, label) {
            continue;
        }
        let Some(atom) = partners.atom(label) else {
            continue;
        };
        if !fit_next(rule, binding, place + 1, atom) {
            binding.return_to(known);
            continue;
        }
        slots[place] = Some((label, atom));
        if let Some(found) = find_match(rule, partners, slots, binding) {
            return Some(found);
        }
        slots[place] = None;
        binding.return_to(known);
    }
    None
}
