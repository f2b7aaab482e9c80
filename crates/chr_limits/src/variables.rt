//! The variables of a rule, and how many there are.
ghost use Rattle.std.specs.Prelude.{◌≡◌, ◌<◌, ◌∷◌, [], ℕ, List, length, map, flat_map, nat_lt, MatchOption};
ghost use Rattle.chr_value.specs.Bounds.{most_variables};
ghost use Rattle.chr_grammar.specs.Views as by_texts;
ghost use Rattle.chr_limits.specs.Variables.{word_variables, term_variables, formula_variables, phrase_variables, test_variables, member_variables, head_variables, variables_of, is_blank, is_seen, seen_from, seen};
ghost use Rattle.chr_limits.specs.Views.{names, Sees};

use arrayvec::ArrayVec;
use chr_grammar::{
    BodyMember, GuardMember, ParsedAtom, ParsedExpression, ParsedRule, ParsedTerm, TermNode,
};
use chr_lex::Word;
use chr_rule::MOST_VARIABLES;
use std::alloc::Allocator;

/// The variables seen so far, each once, and each `_` apart.
pub type Seen<'a> = ArrayVec<&'a [u8], MOST_VARIABLES>;

/// Whether the variable is `_`, which is a new one at each place.
pub(crate) fn is_blank(name: &[u8]) -> bool
    ensures { result ≡ is_blank name.now }
{
    name == b"_".as_slice()
}

/// Whether the variable is one of those seen before.
pub fn is_seen(seen: &[&[u8]], name: &[u8]) -> bool
    ensures { result ≡ is_seen (names seen.now) name.now }
{
    if is_blank(name) {
        return false;
    }
    for other in seen {
        if name == *other {
            return true;
        }
    }
    false
}

/// Adds a variable that was not seen before. None where there are [`MOST_VARIABLES`] already.
pub fn meet<'a>(seen: &mut Seen<'a>, name: &'a [u8]) -> Option<()>
    ensures { Sees result seen.old.items seen.new.items (name.now ∷ []) }
{
    if is_seen(seen, name) {
        return Some(());
    }
    if seen.is_full() {
        return None;
    }
    seen.push(name);
    Some(())
}

/// A part of a rule as it is written, with variables that are added to those of `S`.
trait HasVariables<S> {
    ghost Said: { Type 0 };

    ghost said: { Self → Said };

    /// The variables at their places, in text order.
    ghost variables: { Said → List (List ℕ) };

    /// Those that were seen.
    ghost known: { S → List (List ℕ) };

    /// Adds those that were not seen before. None where there are more than [`MOST_VARIABLES`] then.
    fn add_to(&self, seen: &mut S) -> Option<()>
        ensures { MatchOption result (most_variables < length (seen_from (known seen.old) (variables (said self.now)))) (λ _. known seen.new ≡ seen_from (known seen.old) (variables (said self.now))) };
}

/// Adds the variables of the parts.
fn meet_each<S, X: HasVariables<S>>(seen: &mut S, parts: &[X]) -> Option<()>
    ensures { MatchOption result (most_variables < length (seen_from (X.known seen.old) (flat_map X.variables (map X.said parts.now)))) (λ _. X.known seen.new ≡ seen_from (X.known seen.old) (flat_map X.variables (map X.said parts.now))) }
{
    for part in parts {
        part.add_to(seen)?;
    }
    Some(())
}

impl<'a> HasVariables<Seen<'a>> for TermNode<'a> {
    ghost use Rattle.chr_grammar.specs.Parsed as parsed;

    ghost Said = { parsed.TermNode };

    ghost said = { by_texts.node };

    ghost variables = { λ n. word_variables n.word };

    ghost known = { λ seen. names seen.items };

    fn add_to(&self, seen: &mut Seen<'a>) -> Option<()> {
        match self.word {
            Word::Variable(name) => meet(seen, name),
            Word::Name(_) => Some(()),
            Word::Number { .. } => Some(()),
        }
    }
}

impl<'a, A: Allocator> HasVariables<Seen<'a>> for ParsedTerm<'a, A> {
    ghost use Rattle.chr_grammar.specs.Parsed as parsed;

    ghost Said = { parsed.ParsedTerm };

    ghost said = { by_texts.term };

    ghost variables = { term_variables };

    ghost known = { λ seen. names seen.items };

    fn add_to(&self, seen: &mut Seen<'a>) -> Option<()> {
        meet_each(seen, &self.nodes)
    }
}

#[tactic(auto, using(crate::proofs::Meeting::met_from_append, crate::proofs::Meeting::short_more))]
fn meet_tree<'a, A: Allocator>(seen: &mut Seen<'a>, tree: &ParsedExpression<'a, A>) -> Option<()>
    ensures { Sees result seen.old.items seen.new.items (formula_variables (by_texts.formula tree.now)) }
{
    match tree {
        ParsedExpression::Number { .. } => Some(()),
        ParsedExpression::Variable(name) => meet(seen, *name),
        ParsedExpression::Group(inner) => meet_tree(seen, inner),
        ParsedExpression::Operation(_, left, right) => {
            meet_tree(seen, left)?;
            meet_tree(seen, right)
        }
    }
}

impl<'a, A: Allocator> HasVariables<Seen<'a>> for ParsedAtom<'a, A> {
    ghost use Rattle.chr_grammar.specs.Parsed as parsed;

    ghost Said = { parsed.ParsedAtom };

    ghost said = { by_texts.phrase };

    ghost variables = { phrase_variables };

    ghost known = { λ seen. names seen.items };

    fn add_to(&self, seen: &mut Seen<'a>) -> Option<()> {
        meet_each(seen, &self.args)
    }
}

impl<'a, A: Allocator> HasVariables<Seen<'a>> for GuardMember<'a, A> {
    ghost use Rattle.chr_grammar.specs.Parsed as parsed;

    ghost Said = { parsed.GuardMember };

    ghost said = { by_texts.test };

    ghost variables = { test_variables };

    ghost known = { λ seen. names seen.items };

    #[tactic(auto, using(crate::proofs::Meeting::met_from_append, crate::proofs::Meeting::short_more))]
    fn add_to(&self, seen: &mut Seen<'a>) -> Option<()> {
        match self {
            GuardMember::True => Some(()),
            GuardMember::Compared(_, left, right) => {
                meet_tree(seen, left)?;
                meet_tree(seen, right)
            }
            GuardMember::Same(left, right) => {
                left.add_to(seen)?;
                right.add_to(seen)
            }
            GuardMember::Differ(left, right) => {
                left.add_to(seen)?;
                right.add_to(seen)
            }
        }
    }
}

impl<'a, A: Allocator> HasVariables<Seen<'a>> for BodyMember<'a, A> {
    ghost use Rattle.chr_grammar.specs.Parsed as parsed;

    ghost Said = { parsed.BodyMember };

    ghost said = { by_texts.member };

    ghost variables = { member_variables };

    ghost known = { λ seen. names seen.items };

    #[tactic(auto, using(crate::proofs::Meeting::short_first))]
    fn add_to(&self, seen: &mut Seen<'a>) -> Option<()> {
        match self {
            BodyMember::True => Some(()),
            BodyMember::Is(name, tree) => {
                meet(seen, *name)?;
                meet_tree(seen, tree)
            }
            BodyMember::Add(phrase) => phrase.add_to(seen),
        }
    }
}

/// The variables of the heads, or None where there are more than [`MOST_VARIABLES`].
#[tactic(auto, using(crate::proofs::Meeting::met_from_append, crate::proofs::Meeting::short_more))]
pub(crate) fn head_variables<'a, A: Allocator>(rule: &ParsedRule<'a, A>) -> Option<Seen<'a>>
    ensures { MatchOption result (most_variables < length (seen (head_variables (by_texts.raw_rule rule.now)))) (λ known. names known.items ≡ seen (head_variables (by_texts.raw_rule rule.now))) }
{
    let mut seen = Seen::new();
    meet_each(&mut seen, &rule.heads.kept)?;
    meet_each(&mut seen, &rule.heads.removed)?;
    Some(seen)
}

/// Whether a rule has more than [`MOST_VARIABLES`] variables.
#[tactic(auto, using(crate::proofs::Meeting::met_from_append, crate::proofs::Meeting::short_more))]
pub(crate) fn has_many_variables<A: Allocator>(rule: &ParsedRule<'_, A>) -> bool
    ensures { result ≡ nat_lt most_variables (length (seen (variables_of (by_texts.raw_rule rule.now)))) }
{
    let Some(mut seen) = head_variables(rule) else {
        return true;
    };
    if meet_each(&mut seen, &rule.consequence.guard).is_none() {
        return true;
    }
    match meet_each(&mut seen, &rule.consequence.body) {
        // There is no room for more.
        Some(()) => seen.len() > MOST_VARIABLES,
        None => true,
    }
}
