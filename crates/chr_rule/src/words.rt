//! Rules as lists of words, by which equal rules are told in fewer steps than part by part. What puts words after others
//! gives None where a term has a functor, or where there is no memory.
ghost use Rattle.std.specs.Prelude.{◌≡◌, ◌↔◌, ◌∷◌, ◌++◌, [], List, IsTrue, ℕ, map, IfSome};
ghost use Rattle.std.specs.List.{flat_map};
ghost use Rattle.chr_rule.specs.Parts.{argument, shape, expression, comparison, member};
ghost use Rattle.chr_rule.specs.Rules as rules;
ghost use Rattle.chr_rule.specs.Rules.{of_parts};
ghost use Rattle.chr_rule.specs.Words.{IsWritten, Plain, RuleWord, Puts, atom_words, expression_words, integer_words, member_words, rule_words, term_words, test_words};

use crate::expression::{BodyItem, Comparison, Expr};
use crate::rule_atom::RuleAtom;
use crate::term::Term;
use chr_value::ValueRef;
use std::alloc::Allocator;

// The kinds of terms and expressions, of comparisons and of members of a body.
const VARIABLE: u64 = 0;

const SYMBOL: u64 = 1;

const NATURAL: u64 = 2;

const NEGATIVE: u64 = 3;

const OPERATION: u64 = 4;

const COMPARED: u64 = 5;

const SAME: u64 = 6;

const DIFFER: u64 = 7;

const IS: u64 = 8;

const ADD: u64 = 9;

/// A part of a rule that is written as words.
trait Written<A: Allocator> {
    ghost Said: { Type 0 };

    ghost said: { Self → Said };

    ghost spelled: { Said → List RuleWord };

    /// Puts the words of the part after the others.
    fn push_to(&self, words: &mut Vec<u64, A>) -> Option<()>
        ensures { Puts result words.old.items words.new.items (spelled (said self.now)) };
}

/// Puts the words of parts after the others.
fn push_parts<A: Allocator, P: Written<A>>(words: &mut Vec<u64, A>, parts: &[P]) -> Option<()>
    ensures { Puts result words.old.items words.new.items (flat_map P.spelled (map P.said parts.now)) }
{
    for part in parts {
        part.push_to(words)?;
    }
    Some(())
}

/// Puts words after the others.
fn push_words<A: Allocator>(words: &mut Vec<u64, A>, more: &[u64]) -> Option<()>
    ensures { Puts result words.old.items words.new.items (map Plain more.now) }
{
    let Ok(()) = words.extend_from_slice(more) else {
        return None;
    };
    Some(())
}

/// Puts the words of an integer after the others: its sign and its absolute value.
fn push_integer<A: Allocator>(words: &mut Vec<u64, A>, n: i64) -> Option<()>
    ensures { Puts result words.old.items words.new.items (integer_words n) }
{
    if n < 0 {
        return push_words(words, &[NEGATIVE, n.unsigned_abs()]);
    }
    push_words(words, &[NATURAL, n.unsigned_abs()])
}

impl<A: Allocator> Written<A> for Term<A> {
    ghost Said = { rules.Term ℕ };

    ghost said = { argument };

    ghost spelled = { term_words };

    fn push_to(&self, words: &mut Vec<u64, A>) -> Option<()> {
        match self {
            Term::Var(x) => push_words(words, &[VARIABLE, u64::from(*x)]),
            Term::Open(_) => None,
            Term::Given(value) => match value.as_ref() {
                ValueRef::Int(n) => push_integer(words, n),
                ValueRef::Sym(name) => push_words(words, &[SYMBOL, u64::from(name.number)]),
                ValueRef::Comp(_) => None,
            },
        }
    }
}

impl<A: Allocator> Written<A> for RuleAtom<A> {
    ghost Said = { rules.RuleAtom ℕ };

    ghost said = { shape };

    ghost spelled = { atom_words };

    fn push_to(&self, words: &mut Vec<u64, A>) -> Option<()> {
        let name = u64::from(self.name.number);
        push_words(words, &[name, self.terms.len() as u64])?;
        push_parts(words, &self.terms)?;
        Some(())
    }
}

/// Puts the words of an expression after the others.
fn push_expression<A: Allocator>(words: &mut Vec<u64, A>, expr: &Expr<A>) -> Option<()>
    ensures { Puts result words.old.items words.new.items (expression_words (expression expr.now)) }
{
    match expr {
        Expr::Number(n) => push_integer(words, *n),
        Expr::Var(x) => push_words(words, &[VARIABLE, u64::from(*x)]),
        Expr::Operation(operator, left, right) => {
            push_words(words, &[OPERATION, *operator as u64])?;
            push_expression(words, left)?;
            push_expression(words, right)?;
            Some(())
        }
    }
}

/// Puts a kind and the words of two terms after the others.
fn push_both<A: Allocator>(
    words: &mut Vec<u64, A>,
    kind: u64,
    left: &Term<A>,
    right: &Term<A>,
) -> Option<()>
    ensures { Puts result words.old.items words.new.items (Plain kind ∷ (term_words (argument left.now) ++ term_words (argument right.now))) }
{
    push_words(words, &[kind])?;
    left.push_to(words)?;
    right.push_to(words)?;
    Some(())
}

impl<A: Allocator> Written<A> for Comparison<A> {
    ghost Said = { rules.Comparison ℕ };

    ghost said = { comparison };

    ghost spelled = { test_words };

    fn push_to(&self, words: &mut Vec<u64, A>) -> Option<()> {
        match self {
            Comparison::Numbers(relation, left, right) => {
                push_words(words, &[COMPARED, *relation as u64])?;
                push_expression(words, left)?;
                push_expression(words, right)?;
                Some(())
            }
            Comparison::Same(left, right) => push_both(words, SAME, left, right),
            Comparison::Differ(left, right) => push_both(words, DIFFER, left, right),
        }
    }
}

impl<A: Allocator> Written<A> for BodyItem<A> {
    ghost Said = { rules.BodyItem ℕ };

    ghost said = { member };

    ghost spelled = { member_words };

    fn push_to(&self, words: &mut Vec<u64, A>) -> Option<()> {
        match self {
            BodyItem::Is(x, expr) => {
                push_words(words, &[IS, u64::from(*x)])?;
                push_expression(words, expr)?;
                Some(())
            }
            BodyItem::Add(atom) => {
                push_words(words, &[ADD])?;
                atom.push_to(words)?;
                Some(())
            }
        }
    }
}

/// Puts the words of a rule of these parts after the others.
fn push_rule<A: Allocator>(
    words: &mut Vec<u64, A>,
    variables: usize,
    kept: &[RuleAtom<A>],
    removed: &[RuleAtom<A>],
    guard: &[Comparison<A>],
    body: &[BodyItem<A>],
) -> Option<()>
    ensures { Puts result words.old.items words.new.items (rule_words (of_parts variables (map shape kept.now) (map shape removed.now) (map comparison guard.now) (map member body.now))) }
{
    let sizes = [
        variables as u64,
        kept.len() as u64,
        removed.len() as u64,
        guard.len() as u64,
        body.len() as u64,
    ];
    push_words(words, &sizes)?;
    push_parts(words, kept)?;
    push_parts(words, removed)?;
    push_parts(words, guard)?;
    push_parts(words, body)?;
    Some(())
}

/// The words of a rule of these parts. None where a term has a functor, or where there is no memory for them.
pub fn words_of<A: Allocator + Copy>(
    alloc: A,
    variables: usize,
    kept: &[RuleAtom<A>],
    removed: &[RuleAtom<A>],
    guard: &[Comparison<A>],
    body: &[BodyItem<A>],
) -> Option<Vec<u64, A>>
    ensures { IfSome result (λ words. IsWritten (of_parts variables (map shape kept.now) (map shape removed.now) (map comparison guard.now) (map member body.now)) words.items) }
{
    let mut words = Vec::new(alloc);
    push_rule(&mut words, variables, kept, removed, guard, body)?;
    Some(words)
}

/// Whether two lists of words are equal. It goes through them to the end, since that takes fewer steps than a branch at each
/// word.
pub fn same_words(words: &[u64], others: &[u64]) -> bool
    ensures { IsTrue result ↔ (words.now ≡ others.now) }
{
    if words.len() != others.len() {
        return false;
    }
    let mut same = true;
    for i in 0..words.len() {
        same &= words[i] == others[i];
    }
    same
}
