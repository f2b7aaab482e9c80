//! Programs.
ghost use Rattle.std.specs.Prelude.{◌≡◌, ◌<◌, ◌≤◌, ◌++◌, ◌∷◌, [], length, map, OnOk, OnErr, IfOk};
ghost use Rattle.std.specs.Option.{option_map};
ghost use Rattle.std.specs.Arc.{arc_value};
ghost use Rattle.std.specs.List.{AllByRecursion};
ghost use Rattle.chr_value.specs.Bounds.{most_rules};
ghost use Rattle.chr_rule.specs.Rules.{rule_at};
ghost use Rattle.chr_rule.specs.Scope.{IsRule};
ghost use Rattle.chr_rule.specs.Occurrences.{AreHeadsFrom};

use crate::occurrences::{HeadsFrom, Occurrences};
use crate::rule::Rule;
use chr_value::Pred;
use std::alloc::{AllocError, Allocator};
use std::marker::Model;
use std::sync::Arc;

/// How many rules a program may have.
pub const MOST_RULES: usize = 256;

/// Rules in text order, numbered from 1, which several holders share, and where their heads are. Contracts see the list of
/// the rules.
pub struct Program<A: Allocator> {
    rules: Vec<Arc<Rule<A>, A>, A>,
    occurrences: Occurrences<A>,
}

// Not derived: letting a program go is then one call, which is proved here once.
impl<A: Allocator> Drop for Program<A> {
    fn drop(self) {
        let Program {
            rules: _,
            occurrences: _,
        } = self;
    }
}

impl<A: Allocator> Model for Program<A> {
    ghost use Rattle.std.specs.Prelude.{ℕ, List, map, length, ◌≤◌};
    ghost use Rattle.std.specs.Arc.{arc_value};
    ghost use Rattle.std.specs.List.{AllByRecursion};
    ghost use Rattle.chr_value.specs.Bounds.{most_rules};
    ghost use Rattle.chr_rule.specs.Rules.{Simpagation};
    ghost use Rattle.chr_rule.specs.Scope.{IsRule};
    ghost use Rattle.chr_rule.specs.Index.{IsIndexOf};
    ghost use Rattle.chr_rule.specs.Codes.{rule_codes};

    ghost Value = { List (Simpagation ℕ) };

    ghost coded = { Prim.hlevel rule_codes };

    ghost view = { λ p. map arc_value p.rules.items };

    ghost invariant = { λ p. (length p.rules.items ≤ most_rules) × AllByRecursion IsRule (map arc_value p.rules.items) × IsIndexOf (map arc_value p.rules.items) p.occurrences.rows };
}

impl<A: Allocator + Copy> Program<A> {
    /// A program of no rules.
    pub fn new(alloc: A) -> Program<A>
        ensures { result ≡ [] }
    {
        Program {
            rules: Vec::new(alloc),
            occurrences: Occurrences::new(alloc),
        }
    }

    /// How many rules there are, at most [`MOST_RULES`].
    pub fn len(&self) -> usize
        ensures count { result ≡ length self.now }
        ensures few { result ≤ most_rules }
    {
        self.rules.len()
    }

    /// The rules, in text order.
    pub fn rules(&self) -> &[Arc<Rule<A>, A>]
        ensures rules { map arc_value result.now ≡ self.now }
        ensures few { length result.now ≤ most_rules }
        ensures valid { AllByRecursion IsRule self.now }
    {
        &self.rules
    }

    /// The rule of a number, from 1.
    pub fn rule(&self, number: usize) -> Option<&Arc<Rule<A>, A>>
        ensures rule { option_map (λ rule. arc_value rule.now) result ≡ rule_at self.now number }
        ensures valid { AllByRecursion IsRule self.now }
    {
        let rules = self.rules();
        if number == 0 || rules.len() < number {
            return None;
        }
        Some(&rules[number - 1])
    }

    /// The heads of this predicate at or after a rule and a head, by rule and then by head, all numbered from 1. It takes a
    /// search, and going from one to the next takes none.
    pub fn heads_from(&self, pred: Pred, rule: u16, head: u8) -> HeadsFrom<'_>
        ensures pred { result.pred ≡ pred }
        ensures heads { AreHeadsFrom self.now result rule head }
    {
        self.occurrences.heads_from(pred, rule, head)
    }

    /// The heads of this predicate, by rule and then by head. It takes no search.
    #[inline(always)]
    pub fn heads_of(&self, pred: Pred) -> HeadsFrom<'_>
        ensures pred { result.pred ≡ pred }
        ensures heads { AreHeadsFrom self.now result 1 1 }
    {
        self.occurrences.heads_of(pred)
    }

    /// Adds a rule after the others.
    pub fn push(&mut self, rule: Arc<Rule<A>, A>) -> Result<(), AllocError>
        requires { length self.old < most_rules }
        ensures ok { OnOk result (self.new ≡ self.old ++ arc_value rule ∷ []) }
        ensures err { OnErr result (self.new ≡ self.old) }
    {
        self.rules.reserve(1)?;
        self.occurrences.reserve(&rule)?;
        let number = self.rules.len() as u16 + 1;
        self.occurrences.add_rule(number, &rule);
        // for its clause: the rule is in scope
        let _variables = rule.variables();
        self.rules.push_reserved(rule);
        Ok(())
    }

    /// The same rules in a list of their own, which shares each of them.
    pub fn copy(&self, alloc: A) -> Result<Program<A>, AllocError>
        ensures { IfOk result (λ made. made ≡ self.now) }
    {
        let mut copy = Program::new(alloc);
        for rule in &self.rules {
            copy.push(Arc::try_clone(rule)?)?;
        }
        Ok(copy)
    }
}
