//! Rules as they are written.

ghost use Rattle.std.specs.Prelude.{map, option_map};
ghost use Rattle.chr_lex.specs.Reading.{Gives};
ghost use Rattle.chr_lex.specs.Tokens.{lexeme};
ghost use Rattle.chr_grammar.specs.Views.{phrase, test, member, raw_rule};
ghost use Rattle.chr_grammar.specs.Parsing.{heads_of, all_kept, heads_by_arrow, consequence_of, named_rule_of, rule_of};

use crate::body::BodyMember;
use crate::guard::GuardMember;
use crate::list::parse_parts;
use crate::parts::cut;
use crate::phrase::{ParsedAtom, parse_phrases};
use crate::sign::{Divider, is_at, named};
use chr_lex::fault::{ItemError, Kind};
use chr_lex::{Mark, Token};
use std::alloc::Allocator;

/// The heads of a rule as they are written.
#[derive(Drop)]
pub struct Heads<'a, A: Allocator> {
    pub kept: Vec<ParsedAtom<'a, A>, A>,
    pub removed: Vec<ParsedAtom<'a, A>, A>,
}

/// What follows the arrow.
#[derive(Drop)]
pub struct Consequence<'a, A: Allocator> {
    pub guard: Vec<GuardMember<'a, A>, A>,
    pub body: Vec<BodyMember<'a, A>, A>,
}

/// A rule as it is written. A propagation rule is one that removes nothing.
#[derive(Drop)]
pub struct ParsedRule<'a, A: Allocator> {
    /// The rule's name.
    pub rule_name: Option<&'a [u8]>,
    pub heads: Heads<'a, A>,
    pub consequence: Consequence<'a, A>,
}

/// The heads of a rule with `<=>`.
fn parse_heads<'a, A: Allocator + Copy>(
    alloc: A,
    tokens: &'a [Token<'a>],
) -> Result<Heads<'a, A>, ItemError>
    ensures { Gives (λ h. (map phrase h.kept.items, map phrase h.removed.items)) result (heads_of (map lexeme tokens.now)) }
{
    let (kept, removed) = parse_parts(alloc, Divider::Backslash, tokens)?;
    Ok(Heads { kept, removed })
}

/// The heads of a rule with `==>`.
fn all_kept<'a, A: Allocator + Copy>(
    alloc: A,
    tokens: &'a [Token<'a>],
) -> Result<Heads<'a, A>, ItemError>
    ensures { Gives (λ h. (map phrase h.kept.items, map phrase h.removed.items)) result (all_kept (map lexeme tokens.now)) }
{
    Ok(Heads {
        kept: parse_phrases(alloc, tokens)?,
        removed: Vec::new(alloc),
    })
}

/// The heads of a rule with this arrow.
fn heads_by_arrow<'a, A: Allocator + Copy>(
    alloc: A,
    arrow: Token<'a>,
    tokens: &'a [Token<'a>],
) -> Result<Heads<'a, A>, ItemError>
    ensures { Gives (λ h. (map phrase h.kept.items, map phrase h.removed.items)) result (heads_by_arrow (lexeme arrow.entry) (map lexeme tokens.now)) }
{
    match arrow {
        Token::Mark(Mark::Propagate) => all_kept(alloc, tokens),
        _ => parse_heads(alloc, tokens),
    }
}

/// The rule of this name, by what follows the name.
fn named_rule<'a, A: Allocator + Copy>(
    alloc: A,
    rule_name: Option<&'a [u8]>,
    tokens: &'a [Token<'a>],
) -> Result<ParsedRule<'a, A>, ItemError>
    ensures { Gives raw_rule result (named_rule_of (option_map (λ name. name.now) rule_name.entry) (map lexeme tokens.now)) }
{
    let Some((front, arrow, behind)) = cut(Divider::Arrow, tokens) else {
        return Err(ItemError::Fault(Kind::Syntax));
    };
    let heads = heads_by_arrow(alloc, arrow, front)?;
    let (guard, body) = parse_parts(alloc, Divider::Bar, behind)?;
    Ok(ParsedRule {
        rule_name,
        heads,
        consequence: Consequence { guard, body },
    })
}

#[tactic(auto, using(crate::proofs::Lists::short_rule, crate::proofs::Lists::nameless))]
/// The rule that the tokens are, with `<=>` or with `==>`. Tokens that are no rule are a fault of syntax (E04).
pub(crate) fn parse_rule<'a, A: Allocator + Copy>(
    alloc: A,
    tokens: &'a [Token<'a>],
) -> Result<ParsedRule<'a, A>, ItemError>
    ensures { Gives raw_rule result (rule_of (map lexeme tokens.now)) }
{
    match tokens {
        [first, second, after @ ..] => {
            if !is_at(*second) {
                return named_rule(alloc, None, tokens);
            }
            match named(*first) {
                Some(name) => named_rule(alloc, Some(name), after),
                None => Err(ItemError::Fault(Kind::Syntax)),
            }
        }
        _ => named_rule(alloc, None, tokens),
    }
}
