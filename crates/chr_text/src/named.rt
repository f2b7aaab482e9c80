//! Whether a table has all names of a program.
ghost use Rattle.std.specs.Prelude.{◌↔◌, IsTrue, ℕ, map};
ghost use Rattle.std.specs.List.{AllByRecursion};
ghost use Rattle.chr_rule.specs.Rules as rules;
ghost use Rattle.chr_rule.specs.Parts.{argument, shape, comparison, member};
ghost use Rattle.chr_text.specs.Named.{ArgumentIsNamed, RuleAtomIsNamed, ComparisonIsNamed, BodyItemIsNamed, RuleIsNamed};

use chr_rule::{BodyItem, Comparison, Program, Rule, RuleAtom, Term};
use std::alloc::Allocator;

/// A part of a program with names.
trait Named {
    ghost Said: { Type 0 };

    ghost said: { Self → Said };

    ghost named: { ℕ → Said → Type 0 };

    /// Whether a table of `count` names has all of them.
    fn is_named(&self, count: usize) -> bool
        ensures { IsTrue result ↔ named count (said self.now) };
}

/// Whether a table of `count` names has the names of all parts.
fn are_named<X: Named>(parts: &[X], count: usize) -> bool
    ensures { IsTrue result ↔ AllByRecursion (X.named count) (map X.said parts.now) }
{
    for part in parts {
        if !part.is_named(count) {
            return false;
        }
    }
    true
}

/// Whether a table of `count` names has all names of an argument.
#[cycle(argument)]
fn is_argument_named<A: Allocator>(term: &Term<A>, count: usize) -> bool
    ensures { IsTrue result ↔ ArgumentIsNamed count (argument term.now) }
{
    match term {
        Term::Var(_) => true,
        Term::Given(value) => value.as_ref().is_named(count),
        Term::Open(open) => {
            (open.functor.number as usize) < count && are_arguments_named(&open.args, count)
        }
    }
}

/// Whether it has the names of all arguments.
#[cycle(argument)]
fn are_arguments_named<A: Allocator>(terms: &[Term<A>], count: usize) -> bool
    ensures { IsTrue result ↔ AllByRecursion (ArgumentIsNamed count) (map argument terms.now) }
{
    for term in terms {
        if !is_argument_named(term, count) {
            return false;
        }
    }
    true
}

/// Whether it has the name of a constraint of a rule, and those of its arguments.
fn is_rule_atom_named<A: Allocator>(atom: &RuleAtom<A>, count: usize) -> bool
    ensures { IsTrue result ↔ RuleAtomIsNamed count (shape atom.now) }
{
    (atom.name.number as usize) < count && are_arguments_named(&atom.terms, count)
}

impl<A: Allocator> Named for RuleAtom<A> {
    ghost Said = { rules.RuleAtom ℕ };

    ghost said = { shape };

    ghost named = { RuleAtomIsNamed };

    fn is_named(&self, count: usize) -> bool {
        is_rule_atom_named(self, count)
    }
}

impl<A: Allocator> Named for Comparison<A> {
    ghost Said = { rules.Comparison ℕ };

    ghost said = { comparison };

    ghost named = { ComparisonIsNamed };

    fn is_named(&self, count: usize) -> bool {
        match self {
            Comparison::Numbers(_, _, _) => true,
            Comparison::Same(s, t) | Comparison::Differ(s, t) => {
                is_argument_named(s, count) && is_argument_named(t, count)
            }
        }
    }
}

impl<A: Allocator> Named for BodyItem<A> {
    ghost Said = { rules.BodyItem ℕ };

    ghost said = { member };

    ghost named = { BodyItemIsNamed };

    fn is_named(&self, count: usize) -> bool {
        match self {
            BodyItem::Is(_, _) => true,
            BodyItem::Add(atom) => is_rule_atom_named(atom, count),
        }
    }
}

/// Whether it has all names of a rule.
fn is_rule_named<A: Allocator + Copy>(rule: &Rule<A>, count: usize) -> bool
    ensures { IsTrue result ↔ RuleIsNamed count rule.now }
{
    if !are_named(rule.kept(), count) {
        return false;
    }
    if !are_named(rule.removed(), count) {
        return false;
    }
    if !are_named(rule.guard(), count) {
        return false;
    }
    are_named(rule.body(), count)
}

/// Whether a table of `count` names has all names of a program.
pub fn are_rules_named<A: Allocator + Copy>(program: &Program<A>, count: usize) -> bool
    ensures { IsTrue result ↔ AllByRecursion (RuleIsNamed count) program.now }
{
    for rule in program.rules() {
        if !is_rule_named(rule, count) {
            return false;
        }
    }
    true
}
