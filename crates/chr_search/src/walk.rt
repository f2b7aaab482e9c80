//! Walks through the heads of a predicate.
ghost use Rattle.std.specs.Prelude.{◌≡◌, ◌∷◌, [], Some};
ghost use Rattle.chr_value.specs.Stores.{atom_at};
ghost use Rattle.chr_search.specs.Positions.{beginning};
ghost use Rattle.chr_search.specs.Trials.{Space};
ghost use Rattle.chr_search.specs.PlanByPlan.{AreAhead};

use chr_rule::{HeadsFrom, Program};
use chr_value::Atom;
use std::alloc::Allocator;

/// Where a walk through the heads of a predicate stands, by a rule and a head of it.
#[derive(Drop)]
pub(crate) struct Walk<'s> {
    /// The heads that come next.
    pub(crate) heads: HeadsFrom<'s>,
    pub(crate) rule: u16,
    pub(crate) head: u8,
}

impl<'s> Walk<'s> {
    /// The walk from the first rule and head on, through the heads of an atom's predicate.
    #[inline(always)]
    pub(crate) fn first<A: Allocator + Copy>(program: &'s Program<A>, atom: &Atom<A>) -> Walk<'s>
        ensures begins { result.rule ∷ result.head ∷ [] ≡ beginning }
        ensures ahead { (s : Space) → s.rules ≡ program.now → atom_at s.store s.active ≡ Some atom.now → AreAhead s result.rule result.head result.heads }
    {
        Walk {
            rule: 1,
            head: 1,
            heads: program.heads_of(atom.pred()),
        }
    }
}
