//! Whether each variable has a value where it is used.
ghost use Rattle.std.specs.Prelude.{◌≡◌, ◌≤◌, ◌&&◌, ◌∷◌, List, length, map, flat_map};
ghost use Rattle.std.specs.Bool.{OnTrue};
ghost use Rattle.chr_value.specs.Bounds.{most_variables};
ghost use Rattle.chr_lex.specs.Tokens.{word};
ghost use Rattle.chr_grammar.specs.Parsed as parsed;
ghost use Rattle.chr_grammar.specs.Views as by_texts;
ghost use Rattle.chr_limits.specs.Variables.{word_variables, term_variables, formula_variables, test_variables, member_variables, head_variables, variables_of, seen_from, seen};
ghost use Rattle.chr_limits.specs.Scope.{are_seen, body_in_scope, is_in_scope};
ghost use Rattle.chr_limits.specs.Views.{names};

use crate::variables::{Seen, head_variables, is_seen};
use chr_grammar::{BodyMember, GuardMember, ParsedExpression, ParsedRule, ParsedTerm, TermNode};
use chr_lex::Word;
use std::alloc::Allocator;

fn is_word_seen(seen: &[&[u8]], part: Word) -> bool
    ensures { result ≡ are_seen (names seen.now) (word_variables (word part.entry)) }
{
    match part {
        Word::Variable(name) => is_seen(seen, name),
        Word::Name(_) => true,
        Word::Number { .. } => true,
    }
}

fn are_words_seen(seen: &[&[u8]], nodes: &[TermNode]) -> bool
    ensures { result ≡ are_seen (names seen.now) (term_variables (map by_texts.node nodes.now)) }
{
    for node in nodes {
        if !is_word_seen(seen, node.word) {
            return false;
        }
    }
    true
}

fn is_term_seen<A: Allocator>(seen: &[&[u8]], term: &ParsedTerm<'_, A>) -> bool
    ensures { result ≡ are_seen (names seen.now) (term_variables (by_texts.term term.now)) }
{
    are_words_seen(seen, &term.nodes)
}

fn are_terms_seen<A: Allocator>(seen: &[&[u8]], terms: &[ParsedTerm<'_, A>]) -> bool
    ensures { result ≡ are_seen (names seen.now) (flat_map term_variables (map by_texts.term terms.now)) }
{
    for term in terms {
        if !is_term_seen(seen, term) {
            return false;
        }
    }
    true
}

fn is_tree_seen<A: Allocator>(seen: &[&[u8]], tree: &ParsedExpression<'_, A>) -> bool
    ensures { result ≡ are_seen (names seen.now) (formula_variables (by_texts.formula tree.now)) }
{
    match tree {
        ParsedExpression::Number { .. } => true,
        ParsedExpression::Variable(name) => is_seen(seen, *name),
        ParsedExpression::Group(inner) => is_tree_seen(seen, inner),
        ParsedExpression::Operation(_, left, right) => is_tree_seen(seen, left)
            && is_tree_seen(seen, right),
    }
}

fn is_test_seen<A: Allocator>(seen: &[&[u8]], test: &GuardMember<'_, A>) -> bool
    ensures { result ≡ are_seen (names seen.now) (test_variables (by_texts.test test.now)) }
{
    match test {
        GuardMember::True => true,
        GuardMember::Compared(_, left, right) => is_tree_seen(seen, left)
            && is_tree_seen(seen, right),
        GuardMember::Same(left, right) => is_term_seen(seen, left) && is_term_seen(seen, right),
        GuardMember::Differ(left, right) => is_term_seen(seen, left) && is_term_seen(seen, right),
    }
}

fn is_guard_seen<A: Allocator>(seen: &[&[u8]], guard: &[GuardMember<'_, A>]) -> bool
    ensures { result ≡ are_seen (names seen.now) (flat_map test_variables (map by_texts.test guard.now)) }
{
    for test in guard {
        if !is_test_seen(seen, test) {
            return false;
        }
    }
    true
}

/// Whether each variable of a member has a value where it is used, if those of `seen` have one. The variable left of `is`
/// has one too then.
fn enter<'a, A: Allocator>(seen: &mut Seen<'a>, member: &BodyMember<'a, A>) -> bool
    requires { length (seen_from (names seen.old.items) (member_variables (by_texts.member member.now))) ≤ most_variables }
    ensures scope { (ms : List parsed.BodyMember) → body_in_scope (names seen.old.items) (by_texts.member member.now ∷ ms) ≡ (result && body_in_scope (names seen.new.items) ms) }
    ensures met { OnTrue result (names seen.new.items ≡ seen_from (names seen.old.items) (member_variables (by_texts.member member.now))) }
{
    match member {
        BodyMember::True => true,
        BodyMember::Is(name, tree) => {
            if is_seen(seen, *name) || !is_tree_seen(seen, tree) {
                return false;
            }
            seen.push(*name);
            true
        }
        BodyMember::Add(phrase) => are_terms_seen(seen, &phrase.args),
    }
}

/// Whether each variable of a body has a value where it is used, if those of `seen` have one.
fn is_body_in_scope<'a, A: Allocator>(seen: &mut Seen<'a>, body: &[BodyMember<'a, A>]) -> bool
    requires { length (seen_from (names seen.old.items) (flat_map member_variables (map by_texts.member body.now))) ≤ most_variables }
    ensures { result ≡ body_in_scope (names seen.old.items) (map by_texts.member body.now) }
{
    for member in body {
        if !enter(seen, member) {
            return false;
        }
    }
    true
}

/// Whether each variable of a rule has a value where it is used, and none gets a second one.
pub fn is_in_scope<A: Allocator>(rule: &ParsedRule<'_, A>) -> bool
    requires { length (seen (variables_of (by_texts.raw_rule rule.now))) ≤ most_variables }
    ensures { result ≡ is_in_scope (by_texts.raw_rule rule.now) }
{
    let Some(mut seen) = head_variables(rule) else {
        return false;
    };
    if !is_guard_seen(&seen, &rule.consequence.guard) {
        return false;
    }
    is_body_in_scope(&mut seen, &rule.consequence.body)
}
