//! How many variables a rule has, if each has a value where it is used.
ghost use Rattle.std.specs.Prelude.{◌≡◌, ◌++◌, map};
ghost use Rattle.std.specs.List.{list_all};
ghost use Rattle.chr_rule.specs.Parts.{argument, shape, comparison, member};
ghost use Rattle.chr_rule.specs.Scope.{known_after_variable, known_after_term, known_after_args, known_after_heads, known_after_body, test_known, variable_count};

use crate::expression::{BodyItem, Comparison};
use crate::rule_atom::RuleAtom;
use crate::term::{Term, are_known};
use std::alloc::Allocator;

/// How many variables are known after a variable of a head, or None where it comes out of turn.
fn count_variable(known: usize, variable: u8) -> Option<usize>
    ensures { result ≡ known_after_variable known variable }
{
    let x = usize::from(variable);
    if known < x {
        return None;
    }
    if x == known {
        return Some(known + 1);
    }
    Some(known)
}

/// How many variables are known after a term of a head, from left to right.
#[cycle(count)]
fn count_term<A: Allocator>(known: usize, term: &Term<A>) -> Option<usize>
    ensures { result ≡ known_after_term known (argument term.now) }
{
    match term {
        Term::Var(x) => count_variable(known, *x),
        Term::Given(_) => Some(known),
        Term::Open(open) => count_terms(known, &open.args),
    }
}

/// How many variables are known after the arguments of a head, or None where a variable comes out of turn.
#[cycle(count)]
pub fn count_terms<A: Allocator>(mut known: usize, terms: &[Term<A>]) -> Option<usize>
    ensures { result ≡ known_after_args known (map argument terms.now) }
{
    for term in terms {
        known = count_term(known, term)?;
    }
    Some(known)
}

/// How many variables are known after heads.
pub fn count_heads<A: Allocator>(mut known: usize, heads: &[RuleAtom<A>]) -> Option<usize>
    ensures { result ≡ known_after_heads known (map shape heads.now) }
{
    for head in heads {
        known = count_terms(known, &head.terms)?;
    }
    Some(known)
}

/// Whether each variable of a guard is below `known`.
pub fn is_guard_known<A: Allocator>(known: usize, guard: &[Comparison<A>]) -> bool
    ensures { result ≡ list_all (test_known known) (map comparison guard.now) }
{
    for comparison in guard {
        if !comparison.is_known(known) {
            return false;
        }
    }
    true
}

/// How many variables are known after a body, or None where one is used that has no value by then.
pub fn count_body<A: Allocator>(mut known: usize, body: &[BodyItem<A>]) -> Option<usize>
    ensures { result ≡ known_after_body known (map member body.now) }
{
    for item in body {
        match item {
            BodyItem::Is(x, expr) => {
                if usize::from(*x) != known || !expr.is_known(known) {
                    return None;
                }
                known += 1;
            }
            BodyItem::Add(pattern) => {
                if !are_known(known, &pattern.terms) {
                    return None;
                }
            }
        }
    }
    Some(known)
}

/// How many variables a rule of these parts has, or none where one is used that has no value by then.
#[tactic(auto, using(crate::proofs::Judged::heads_append))]
pub fn count_variables<A: Allocator>(
    kept: &[RuleAtom<A>],
    removed: &[RuleAtom<A>],
    guard: &[Comparison<A>],
    body: &[BodyItem<A>],
) -> Option<usize>
    ensures { result ≡ variable_count (map shape kept.now ++ map shape removed.now) (map comparison guard.now) (map member body.now) }
{
    let known = count_heads(0, kept)?;
    let known = count_heads(known, removed)?;
    if !is_guard_known(known, guard) {
        return None;
    }
    count_body(known, body)
}
