//! Constraints in a rule, with terms for arguments.
ghost use Rattle.std.specs.Prelude.{◌≡◌, ◌↔◌, ◌≤◌, IsTrue, vec_len};
ghost use Rattle.chr_value.specs.Bounds.{most_arguments};

use crate::parts::{Part, are_same, are_valid};
use crate::term::Term;
use chr_value::{Name, Pred};
use std::alloc::Allocator;

/// A constraint in a head or a body, with at most [`MOST_ARGS`](chr_value::MOST_ARGS) terms.
#[derive(Drop)]
pub struct RuleAtom<A: Allocator> {
    pub name: Name,
    pub terms: Vec<Term<A>, A>,
    pub ghost few: { vec_len terms ≤ most_arguments },
}

impl<A: Allocator> RuleAtom<A> {
    ghost use Rattle.chr_rule.specs.Parts.{shape};
    ghost use Rattle.chr_rule.specs.Occurrences.{HasPred};

    /// The predicate: the name, and how many terms there are.
    pub fn pred(&self) -> Pred
        ensures { HasPred (shape self.now) result }
    {
        Pred {
            name: self.name,
            arity: self.terms.len() as u8,
        }
    }

    /// Whether two constraints are equal.
    pub fn same(&self, other: &RuleAtom<A>) -> bool
        ensures { IsTrue result ↔ (shape self.now ≡ shape other.now) }
    {
        self.name.number == other.name.number && are_same(&self.terms, &other.terms)
    }
}

impl<A: Allocator> Part for RuleAtom<A> {
    ghost use Rattle.std.specs.Prelude.{ℕ};
    ghost use Rattle.chr_rule.specs.Parts.{shape};
    ghost use Rattle.chr_rule.specs.Rules as rules;
    ghost use Rattle.chr_rule.specs.Terms.{IsRuleAtom};

    ghost Said = { rules.RuleAtom ℕ };

    ghost said = { shape };

    ghost IsValid = { IsRuleAtom };

    fn is_valid(&self) -> bool {
        are_valid(&self.terms)
    }

    fn is_same(&self, other: &Self) -> bool {
        self.same(other)
    }
}
