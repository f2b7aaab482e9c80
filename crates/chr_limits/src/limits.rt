//! What is out of range, too long or too many.
ghost use Rattle.std.specs.Prelude.{◌≡◌, ◌+◌, length, nat_lt};
ghost use Rattle.std.specs.Option.{option_map};
ghost use Rattle.chr_value.specs.Bounds.{most_heads};
ghost use Rattle.chr_lex.specs.Tokens.{word};
ghost use Rattle.chr_grammar.specs.Views as by_texts;
ghost use Rattle.chr_limits.specs.Words.{is_unfit, formula_has, term_has, phrase_has, test_has, member_has, rule_name_has, rule_has};
ghost use Rattle.chr_limits.specs.Limits.{has_many_args, adds_many_args, is_comparison, is_item, has_wide_atom};

use crate::number::int;
use crate::parts::{Test, any};
use chr_grammar::{
    BodyMember, GuardMember, ParsedAtom, ParsedExpression, ParsedRule, ParsedTerm, TermNode,
};
use chr_lex::Word;
use chr_rule::MOST_HEADS;
use chr_value::{MOST_ARGS, MOST_NAME_BYTES};
use std::alloc::Allocator;

/// What a name, a variable or a number may not be.
#[derive(Clone, Copy)]
pub enum Unfit {
    /// A number outside the range of 64 bits with sign.
    OutOfRange,
    /// A name or a variable of more than [`MOST_NAME_BYTES`] bytes.
    TooLong,
    /// A variable, among posts.
    Variable,
}

/// Whether a name, a variable or a number is unfit.
pub fn is_unfit(unfit: Unfit, term: Word) -> bool
    ensures { result ≡ is_unfit unfit (word term.entry) }
{
    match (unfit, term) {
        (Unfit::OutOfRange, Word::Number { negative, digits }) => int(negative, digits).is_none(),
        (Unfit::TooLong, Word::Name(name)) => name.len() > MOST_NAME_BYTES,
        (Unfit::TooLong, Word::Variable(name)) => name.len() > MOST_NAME_BYTES,
        (Unfit::Variable, Word::Variable(_)) => true,
        _ => false,
    }
}

impl<'a> Test<TermNode<'a>> for Unfit {
    ghost use Rattle.chr_grammar.specs.Parsed as parsed;

    ghost Said = { parsed.TermNode };

    ghost said = { by_texts.node };

    ghost passed = { λ unfit n. is_unfit unfit n.word };

    fn passes(self, part: &TermNode<'a>) -> bool {
        is_unfit(self, part.word)
    }
}

impl<'a, A: Allocator> Test<ParsedTerm<'a, A>> for Unfit {
    ghost use Rattle.chr_grammar.specs.Parsed as parsed;

    ghost Said = { parsed.ParsedTerm };

    ghost said = { by_texts.term };

    ghost passed = { λ unfit. term_has (is_unfit unfit) };

    fn passes(self, part: &ParsedTerm<'a, A>) -> bool {
        any(self, &part.nodes)
    }
}

fn tree_has<A: Allocator>(unfit: Unfit, tree: &ParsedExpression<'_, A>) -> bool
    ensures { result ≡ formula_has (is_unfit unfit) (by_texts.formula tree.now) }
{
    match tree {
        ParsedExpression::Number { negative, digits } => is_unfit(
            unfit,
            Word::Number {
                negative: *negative,
                digits: *digits,
            },
        ),
        ParsedExpression::Variable(name) => is_unfit(unfit, Word::Variable(*name)),
        ParsedExpression::Group(inner) => tree_has(unfit, inner),
        ParsedExpression::Operation(_, left, right) => tree_has(unfit, left)
            || tree_has(unfit, right),
    }
}

impl<'a, A: Allocator> Test<ParsedAtom<'a, A>> for Unfit {
    ghost use Rattle.chr_grammar.specs.Parsed as parsed;

    ghost Said = { parsed.ParsedAtom };

    ghost said = { by_texts.phrase };

    ghost passed = { λ unfit. phrase_has (is_unfit unfit) };

    fn passes(self, part: &ParsedAtom<'a, A>) -> bool {
        is_unfit(self, Word::Name(part.name)) || any(self, &part.args)
    }
}

impl<'a, A: Allocator> Test<GuardMember<'a, A>> for Unfit {
    ghost use Rattle.chr_grammar.specs.Parsed as parsed;

    ghost Said = { parsed.GuardMember };

    ghost said = { by_texts.test };

    ghost passed = { λ unfit. test_has (is_unfit unfit) };

    fn passes(self, part: &GuardMember<'a, A>) -> bool {
        match part {
            GuardMember::True => false,
            GuardMember::Compared(_, left, right) => tree_has(self, left) || tree_has(self, right),
            GuardMember::Same(left, right) => self.passes(left) || self.passes(right),
            GuardMember::Differ(left, right) => self.passes(left) || self.passes(right),
        }
    }
}

impl<'a, A: Allocator> Test<BodyMember<'a, A>> for Unfit {
    ghost use Rattle.chr_grammar.specs.Parsed as parsed;

    ghost Said = { parsed.BodyMember };

    ghost said = { by_texts.member };

    ghost passed = { λ unfit. member_has (is_unfit unfit) };

    fn passes(self, part: &BodyMember<'a, A>) -> bool {
        match part {
            BodyMember::True => false,
            BodyMember::Is(name, tree) => {
                is_unfit(self, Word::Variable(*name)) || tree_has(self, tree)
            }
            BodyMember::Add(phrase) => self.passes(phrase),
        }
    }
}

fn rule_name_has(unfit: Unfit, rule_name: Option<&[u8]>) -> bool
    ensures { result ≡ rule_name_has (is_unfit unfit) (option_map (λ l. l.now) rule_name.entry) }
{
    match rule_name {
        Some(name) => is_unfit(unfit, Word::Name(name)),
        None => false,
    }
}

/// Whether a name, a variable or a number of a rule is unfit.
pub fn rule_has<A: Allocator>(unfit: Unfit, rule: &ParsedRule<'_, A>) -> bool
    ensures { result ≡ rule_has (is_unfit unfit) (by_texts.raw_rule rule.now) }
{
    rule_name_has(unfit, rule.rule_name)
        || any(unfit, &rule.heads.kept)
        || any(unfit, &rule.heads.removed)
        || any(unfit, &rule.consequence.guard)
        || any(unfit, &rule.consequence.body)
}

/// An atom with more than [`MOST_ARGS`] arguments.
#[derive(Clone, Copy)]
pub struct Wide;

impl<'a, A: Allocator> Test<ParsedAtom<'a, A>> for Wide {
    ghost use Rattle.chr_grammar.specs.Parsed as parsed;

    ghost Said = { parsed.ParsedAtom };

    ghost said = { by_texts.phrase };

    ghost passed = { λ _. has_many_args };

    fn passes(self, part: &ParsedAtom<'a, A>) -> bool {
        part.args.len() > MOST_ARGS
    }
}

impl<'a, A: Allocator> Test<BodyMember<'a, A>> for Wide {
    ghost use Rattle.chr_grammar.specs.Parsed as parsed;

    ghost Said = { parsed.BodyMember };

    ghost said = { by_texts.member };

    ghost passed = { λ _. adds_many_args };

    fn passes(self, part: &BodyMember<'a, A>) -> bool {
        match part {
            BodyMember::True => false,
            BodyMember::Is(..) => false,
            BodyMember::Add(phrase) => self.passes(phrase),
        }
    }
}

/// Whether an atom of a rule has more than [`MOST_ARGS`] arguments.
pub fn has_wide_atom<A: Allocator>(rule: &ParsedRule<'_, A>) -> bool
    ensures { result ≡ has_wide_atom (by_texts.raw_rule rule.now) }
{
    any(Wide, &rule.heads.kept)
        || any(Wide, &rule.heads.removed)
        || any(Wide, &rule.consequence.body)
}

/// Whether a rule has more than [`MOST_HEADS`] heads.
pub fn has_many_heads<A: Allocator>(rule: &ParsedRule<'_, A>) -> bool
    ensures { result ≡ nat_lt most_heads (length (by_texts.raw_rule rule.now).kept + length (by_texts.raw_rule rule.now).removed) }
{
    let kept = rule.heads.kept.len();
    kept > MOST_HEADS || rule.heads.removed.len() > MOST_HEADS - kept
}

/// A member that is more than `true`.
#[derive(Clone, Copy)]
pub struct Counted;

impl<'a, A: Allocator> Test<GuardMember<'a, A>> for Counted {
    ghost use Rattle.chr_grammar.specs.Parsed as parsed;

    ghost Said = { parsed.GuardMember };

    ghost said = { by_texts.test };

    ghost passed = { λ _. is_comparison };

    fn passes(self, part: &GuardMember<'a, A>) -> bool {
        match part {
            GuardMember::True => false,
            GuardMember::Compared(..) => true,
            GuardMember::Same(..) => true,
            GuardMember::Differ(..) => true,
        }
    }
}

impl<'a, A: Allocator> Test<BodyMember<'a, A>> for Counted {
    ghost use Rattle.chr_grammar.specs.Parsed as parsed;

    ghost Said = { parsed.BodyMember };

    ghost said = { by_texts.member };

    ghost passed = { λ _. is_item };

    fn passes(self, part: &BodyMember<'a, A>) -> bool {
        match part {
            BodyMember::True => false,
            BodyMember::Is(..) => true,
            BodyMember::Add(_) => true,
        }
    }
}
