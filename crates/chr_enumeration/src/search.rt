//! The first labelled instance with a label.
ghost use Rattle.std.specs.Prelude.{◌≡◌, Some, MatchOption};
ghost use Rattle.chr_model.specs.Programs.{Instances};
ghost use Rattle.chr_model.specs.Stores.{atom_at, NoneWith};
ghost use Rattle.chr_enumeration.specs.Found.{IsFound};
ghost use Rattle.chr_enumeration.specs.Picks.{Has, IsMatch, NoMatch};

use crate::partners::Partners;
use crate::slots::{Match, find_match, fit_next};
use chr_guard::Binding;
use chr_log::Labels;
use chr_rule::{MOST_HEADS, Program, Rule};
use chr_value::Atom;
use std::alloc::Allocator;

/// A labelled instance: its rule's number from 1, the labels of its kept and of its removed heads, in head order, and
/// the binding of its rule's variables, from which [`added_atoms`](chr_guard::body::added_atoms) makes the body.
#[derive(Drop)]
pub struct Found<'s, A: Allocator> {
    pub rule: u16,
    pub kept: Labels,
    pub removed: Labels,
    pub binding: Binding<'s, A>,
}

/// Returns the first labelled instance of a rule that has the constraint whose partners these are.
fn find_with_own<'s, A: Allocator + Copy, P: Partners<A>>(
    rule: &Rule<A>,
    partners: &'s P,
    atom: &'s Atom<A>,
) -> Option<Match<'s, A>>
    requires { atom_at (P.store partners.now) (P.own partners.now) ≡ Some atom.now }
    ensures { MatchOption result (NoMatch rule.now (P.store partners.now) (Has (P.own partners.now))) (IsMatch rule.now (P.store partners.now) (Has (P.own partners.now))) }
{
    let label = partners.own();
    let mut binding = Binding::free(rule.variables());
    let heads = rule.heads();
    for head in 0..heads {
        binding.reset(rule.variables());
        if !fit_next(rule, &mut binding, head + 1, atom) {
            continue;
        }
        let mut slots = [None; MOST_HEADS];
        slots[head] = Some((label, atom));
        if let Some(found) = find_match(rule, partners, &mut slots[..heads], &mut binding) {
            return Some(found);
        }
    }
    None
}

/// Returns a labelled instance of a program's rules that has a constraint, over that and its partners. None only where
/// there is none.
pub fn find_with_partners<'s, A: Allocator + Copy, P: Partners<A>>(
    program: &Program<A>,
    partners: &'s P,
) -> Option<Found<'s, A>>
    ensures { MatchOption result (NoneWith (Instances program.now) (P.store partners.now) (P.own partners.now)) (IsFound program.now (P.store partners.now) (P.own partners.now)) }
{
    let atom = partners.atom(partners.own())?;
    let rules = program.rules();
    for (place, rule) in rules.iter().enumerate() {
        if let Some(found) = find_with_own(rule, partners, atom) {
            return Some(Found {
                rule: (place + 1) as u16,
                kept: found.kept,
                removed: found.removed,
                binding: found.binding,
            });
        }
    }
    None
}
