//! Rules.
ghost use Rattle.std.specs.Prelude.{◌≡◌, ◌+◌, ◌<◌, ◌≤◌, ℕ, length, map, Some, IsSome, IfSome, IsTrue, ◌↔◌};
ghost use Rattle.std.specs.Option.{option_map};
ghost use Rattle.chr_value.specs.Bounds.{most_comparisons, most_heads, most_items};
ghost use Rattle.chr_rule.specs.Parts.{shape, comparison, member, rule_of};
ghost use Rattle.chr_rule.specs.Rules.{head_at, of_parts};
ghost use Rattle.chr_rule.specs.Scope.{IsRule};
ghost use Rattle.chr_rule.specs.Terms.{HasPlainBody, HasTerms};

use crate::expression::{BodyItem, Comparison};
use crate::parts::{are_same, are_valid};
use crate::rule_atom::RuleAtom;
use crate::scope::count_variables;
use crate::words::{same_words, words_of};
use std::alloc::Allocator;
use std::marker::Model;

/// How many variables a rule may have.
pub const MOST_VARIABLES: usize = 24;

/// How many heads a rule may have, kept and removed together.
pub const MOST_HEADS: usize = 6;

/// How many comparisons a guard may have.
pub const MOST_COMPARISONS: usize = 16;

/// How many members a body may have.
pub const MOST_ITEMS: usize = 16;

/// A rule: each variable that is used has a value by then, a term without variables is a value, and the limits are kept.
pub struct Rule<A: Allocator> {
    variables: u8,
    /// The heads in text order, the kept ones first.
    heads: Vec<RuleAtom<A>, A>,
    /// How many heads are kept.
    kept: usize,
    guard: Vec<Comparison<A>, A>,
    body: Vec<BodyItem<A>, A>,
    /// The rule once more, where no term of it has a functor and there was memory for it.
    words: Option<Vec<u64, A>>,
}

// Not derived: letting a rule go is then one call, which is proved here once.
impl<A: Allocator> Drop for Rule<A> {
    fn drop(self) {
        let Rule {
            variables: _,
            heads: _,
            kept: _,
            guard: _,
            body: _,
            words: _,
        } = self;
    }
}

impl<A: Allocator> Model for Rule<A> {
    ghost use Rattle.std.specs.Prelude.{ℕ, IfSome};
    ghost use Rattle.chr_rule.specs.Rules.{Simpagation};
    ghost use Rattle.chr_rule.specs.Parts.{rule_of};
    ghost use Rattle.chr_rule.specs.Scope.{IsRule};
    ghost use Rattle.chr_rule.specs.Words.{IsWritten};
    ghost use Rattle.chr_rule.specs.Codes.{rule_codes};

    ghost Value = { Simpagation ℕ };

    ghost coded = { Prim.hlevel rule_codes };

    ghost view = { λ r. rule_of r.variables r.heads.items r.kept r.guard.items r.body.items };

    ghost invariant = { λ r. let rule : Simpagation ℕ = rule_of r.variables r.heads.items r.kept r.guard.items r.body.items in IsRule rule × IfSome r.words (λ written. IsWritten rule written.items) };
}

/// Whether a rule may have so many heads, comparisons and members of the body.
fn are_within_limits(kept: usize, removed: usize, guard: usize, body: usize) -> bool
    ensures { IsTrue result ↔ ((0 < removed) × (kept + removed ≤ most_heads) × (guard ≤ most_comparisons) × (body ≤ most_items)) }
{
    if removed == 0 || kept > MOST_HEADS || removed > MOST_HEADS - kept {
        return false;
    }
    guard <= MOST_COMPARISONS && body <= MOST_ITEMS
}

/// Whether a rule may have the terms of these parts.
fn have_terms<A: Allocator>(
    kept: &[RuleAtom<A>],
    removed: &[RuleAtom<A>],
    guard: &[Comparison<A>],
    body: &[BodyItem<A>],
) -> bool
    ensures { IsTrue result ↔ HasTerms (of_parts 0 (map shape kept.now) (map shape removed.now) (map comparison guard.now) (map member body.now)) }
{
    if !are_valid(kept) {
        return false;
    }
    if !are_valid(removed) {
        return false;
    }
    if !are_valid(guard) {
        return false;
    }
    are_valid(body)
}

/// How many variables the rule of these parts has, or None where there is no such rule.
fn variables_of<A: Allocator>(
    kept: &[RuleAtom<A>],
    removed: &[RuleAtom<A>],
    guard: &[Comparison<A>],
    body: &[BodyItem<A>],
) -> Option<usize>
    ensures rule { IfSome result (λ n. IsRule (of_parts n (map shape kept.now) (map shape removed.now) (map comparison guard.now) (map member body.now))) }
    ensures exact { (n : ℕ) → IsRule (of_parts n (map shape kept.now) (map shape removed.now) (map comparison guard.now) (map member body.now)) → IsSome result }
{
    if !are_within_limits(kept.len(), removed.len(), guard.len(), body.len()) {
        return None;
    }
    if !have_terms(kept, removed, guard, body) {
        return None;
    }
    let variables = count_variables(kept, removed, guard, body)?;
    if variables > MOST_VARIABLES {
        return None;
    }
    Some(variables)
}

impl<A: Allocator + Copy> Rule<A> {
    /// The rule of these parts, or None unless each variable has a value wherever it is used, a term without variables is a
    /// value, and the limits are kept. The heads are in text order, and the first `kept` of them are kept. How deep an
    /// expression nests is limited by the reader of rule text alone.
    pub fn new(
        heads: Vec<RuleAtom<A>, A>,
        kept: usize,
        guard: Vec<Comparison<A>, A>,
        body: Vec<BodyItem<A>, A>,
    ) -> Option<Rule<A>>
        ensures rule { IfSome result (λ rule. rule ≡ rule_of rule.variables heads.items kept guard.items body.items) }
        ensures valid { IfSome result IsRule }
        ensures exact { IsSome result ↔ ((n : ℕ) × IsRule (rule_of n heads.items kept guard.items body.items)) }
    {
        if heads.len() <= kept {
            return None;
        }
        let (kept_heads, removed_heads) = heads.split_at(kept);
        let variables = variables_of(kept_heads, removed_heads, &guard, &body)?;
        Some(Rule::from_parts(variables, heads, kept, guard, body))
    }

    /// The rule of these parts, of which the caller knows that they are those of a rule with so many variables.
    pub fn from_parts(
        variables: usize,
        heads: Vec<RuleAtom<A>, A>,
        kept: usize,
        guard: Vec<Comparison<A>, A>,
        body: Vec<BodyItem<A>, A>,
    ) -> Rule<A>
        requires { IsRule (rule_of variables heads.items kept guard.items body.items) }
        ensures { result ≡ rule_of variables heads.items kept guard.items body.items }
    {
        let alloc = *heads.allocator();
        let (kept_heads, removed_heads) = heads.split_at(kept);
        let words = words_of(alloc, variables, kept_heads, removed_heads, &guard, &body);
        Rule {
            variables: variables as u8,
            heads,
            kept,
            guard,
            body,
            words,
        }
    }
}

impl<A: Allocator> Rule<A> {
    /// Whether two rules are equal: the same heads, guard and body, wherever these lie in memory.
    pub fn same(&self, other: &Rule<A>) -> bool
        ensures { IsTrue result ↔ (self.now ≡ other.now) }
    {
        match (&self.words, &other.words) {
            (Some(words), Some(others)) => same_words(words, others),
            _ => self.has_parts_of(other),
        }
    }

    /// Whether the parts of two rules are equal.
    fn has_parts_of(&self, other: &Rule<A>) -> bool
        ensures { IsTrue result ↔ (self.now ≡ other.now) }
    {
        self.variables == other.variables
            && are_same(self.kept(), other.kept())
            && are_same(self.removed(), other.removed())
            && are_same(&self.guard, &other.guard)
            && are_same(&self.body, &other.body)
    }

    /// How many variables the rule has, at most 24.
    pub fn variables(&self) -> usize
        ensures count { result ≡ self.now.variables }
        ensures valid { IsRule self.now }
    {
        self.variables as usize
    }

    /// The kept heads in text order. They have the numbers from 1 on.
    pub fn kept(&self) -> &[RuleAtom<A>]
        ensures heads { map shape result.now ≡ self.now.kept }
        ensures valid { IsRule self.now }
    {
        &self.heads[..self.kept]
    }

    /// The removed heads in text order, at least one. They are numbered after the kept ones.
    pub fn removed(&self) -> &[RuleAtom<A>]
        ensures heads { map shape result.now ≡ self.now.removed }
        ensures valid { IsRule self.now }
    {
        &self.heads[self.kept..]
    }

    /// How many heads there are, from 1 to [`MOST_HEADS`].
    pub fn heads(&self) -> usize
        ensures count { result ≡ length self.now.kept + length self.now.removed }
        ensures few { result ≤ most_heads }
        ensures valid { IsRule self.now }
    {
        self.heads.len()
    }

    /// The head of a number that the rule has, from 1: kept heads first.
    #[inline(always)]
    pub fn head_at(&self, number: usize) -> &RuleAtom<A>
        requires { IsSome (head_at self.now number) }
        ensures head { Some (shape result.now) ≡ head_at self.now number }
        ensures valid { IsRule self.now }
    {
        &self.heads[number - 1]
    }

    /// The same, or None where there is no such head.
    pub fn head(&self, number: usize) -> Option<&RuleAtom<A>>
        ensures head { option_map (λ head. shape head.now) result ≡ head_at self.now number }
        ensures valid { IsRule self.now }
    {
        if self.heads() < number || number == 0 {
            return None;
        }
        Some(self.head_at(number))
    }

    /// The comparisons of the guard.
    pub fn guard(&self) -> &[Comparison<A>]
        ensures tests { map comparison result.now ≡ self.now.guard }
        ensures valid { IsRule self.now }
    {
        &self.guard
    }

    /// The members of the body, in written order.
    pub fn body(&self) -> &[BodyItem<A>]
        ensures members { map member result.now ≡ self.now.body }
        ensures valid { IsRule self.now }
    {
        &self.body
    }

    /// Whether it is known that each argument of the body's constraints is a variable, a number or a symbol. It may be so
    /// where it isn't known.
    #[inline(always)]
    pub fn is_plain(&self) -> bool
        ensures { IsTrue result → HasPlainBody self.now }
    {
        self.words.is_some()
    }
}
