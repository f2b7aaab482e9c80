//! The members of a guard as they are written.

ghost use Rattle.std.specs.Prelude.{◌≡◌, map};
ghost use Rattle.chr_lex.specs.Reading.{Gives};
ghost use Rattle.chr_lex.specs.Tokens.{lexeme};
ghost use Rattle.chr_grammar.specs.Parsed as parsed;
ghost use Rattle.chr_grammar.specs.Views.{formula, term, test};
ghost use Rattle.chr_grammar.specs.Parsing.{relation, relation_at, equality, equal, other_side_at, plain_test_at, compared_at, test_at};

use crate::expression::{ParsedExpression, parse_expression};
use crate::list::Member;
use crate::sign::is_true;
use crate::term::{ParsedTerm, parse_term};
use chr_lex::fault::{ItemError, Kind};
use chr_lex::{Mark, Token};
use chr_rule::Relation;
use std::alloc::Allocator;

/// A member of a guard as it is written.
#[derive(Drop)]
pub enum GuardMember<'a, A: Allocator> {
    True,
    Compared(Relation, ParsedExpression<'a, A>, ParsedExpression<'a, A>),
    /// `==`
    Same(ParsedTerm<'a, A>, ParsedTerm<'a, A>),
    /// `\==`
    Differ(ParsedTerm<'a, A>, ParsedTerm<'a, A>),
}

impl<'a, A: Allocator + Copy> Member<A, &'a [Token<'a>]> for GuardMember<'a, A> {
    ghost Said = { parsed.GuardMember };

    ghost said = { test };

    ghost front = { test_at };

    fn read(alloc: A, tokens: &'a [Token<'a>]) -> Result<(Self, &'a [Token<'a>]), ItemError> {
        let (left, after) = match parse_term(alloc, tokens) {
            Ok(side) => side,
            Err(ItemError::Memory) => return Err(ItemError::Memory),
            Err(ItemError::Fault(_)) => return plain_test(alloc, tokens),
        };
        match after {
            [sign, behind @ ..] => match equality(*sign) {
                None => plain_test(alloc, tokens),
                Some(same) => other_side(alloc, same, left, behind),
            },
            [] => plain_test(alloc, tokens),
        }
    }
}

/// A comparison of numbers.
fn relation(token: Token) -> Option<Relation>
    ensures { result ≡ relation (lexeme token.entry) }
{
    match token {
        Token::Mark(Mark::Less) => Some(Relation::Less),
        Token::Mark(Mark::AtMost) => Some(Relation::LessEqual),
        Token::Mark(Mark::Greater) => Some(Relation::Greater),
        Token::Mark(Mark::AtLeast) => Some(Relation::GreaterEqual),
        Token::Mark(Mark::SameValue) => Some(Relation::Equal),
        Token::Mark(Mark::OtherValue) => Some(Relation::Unequal),
        _ => None,
    }
}

/// `==`, or `\==`, which is false
fn equality(token: Token) -> Option<bool>
    ensures { result ≡ equality (lexeme token.entry) }
{
    match token {
        Token::Mark(Mark::Equals) => Some(true),
        Token::Mark(Mark::Differs) => Some(false),
        _ => None,
    }
}

fn equal<'a, A: Allocator>(
    same: bool,
    left: ParsedTerm<'a, A>,
    right: ParsedTerm<'a, A>,
) -> GuardMember<'a, A>
    ensures { test result ≡ equal same (term left.entry) (term right.entry) }
{
    if same {
        GuardMember::Same(left, right)
    } else {
        GuardMember::Differ(left, right)
    }
}

/// A comparison of numbers, and what is compared with the expression left of it.
fn related<'a, A: Allocator + Copy>(
    alloc: A,
    left: ParsedExpression<'a, A>,
    tokens: &'a [Token<'a>],
) -> Result<(GuardMember<'a, A>, &'a [Token<'a>]), ItemError>
    ensures { Gives (λ x. (test x.0, map lexeme x.1.now)) result (relation_at (formula left.entry) (map lexeme tokens.now)) }
{
    match tokens {
        [first, behind @ ..] => match relation(*first) {
            None => Err(ItemError::Fault(Kind::Syntax)),
            Some(relation) => {
                let (right, rest) = parse_expression(alloc, behind)?;
                Ok((GuardMember::Compared(relation, left, right), rest))
            }
        },
        [] => Err(ItemError::Fault(Kind::Syntax)),
    }
}

/// Two expressions and what stands between them.
fn compared<'a, A: Allocator + Copy>(
    alloc: A,
    tokens: &'a [Token<'a>],
) -> Result<(GuardMember<'a, A>, &'a [Token<'a>]), ItemError>
    ensures { Gives (λ x. (test x.0, map lexeme x.1.now)) result (compared_at (map lexeme tokens.now)) }
{
    let (left, after) = parse_expression(alloc, tokens)?;
    related(alloc, left, after)
}

/// What is compared with a term by `==` or `\==`.
fn other_side<'a, A: Allocator + Copy>(
    alloc: A,
    same: bool,
    left: ParsedTerm<'a, A>,
    tokens: &'a [Token<'a>],
) -> Result<(GuardMember<'a, A>, &'a [Token<'a>]), ItemError>
    ensures { Gives (λ x. (test x.0, map lexeme x.1.now)) result (other_side_at same (term left.entry) (map lexeme tokens.now)) }
{
    let (right, rest) = parse_term(alloc, tokens)?;
    Ok((equal(same, left, right), rest))
}

/// The member at the front where it isn't a term with `==` or `\==` behind it.
fn plain_test<'a, A: Allocator + Copy>(
    alloc: A,
    tokens: &'a [Token<'a>],
) -> Result<(GuardMember<'a, A>, &'a [Token<'a>]), ItemError>
    ensures { Gives (λ x. (test x.0, map lexeme x.1.now)) result (plain_test_at (map lexeme tokens.now)) }
{
    match tokens {
        [first, rest @ ..] if is_true(*first) => Ok((GuardMember::True, rest)),
        _ => compared(alloc, tokens),
    }
}
