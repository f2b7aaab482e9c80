//! The members of a body as they are written.

ghost use Rattle.std.specs.Prelude.{map};
ghost use Rattle.chr_lex.specs.Reading.{Gives};
ghost use Rattle.chr_lex.specs.Tokens.{lexeme};
ghost use Rattle.chr_grammar.specs.Parsed as parsed;
ghost use Rattle.chr_grammar.specs.Views.{member};
ghost use Rattle.chr_grammar.specs.Parsing.{added_at, is_member_at, last_member_at, member_at};

use crate::expression::{ParsedExpression, parse_expression};
use crate::list::Member;
use crate::phrase::{ParsedAtom, parse_phrase};
use crate::sign::is_true;
use chr_lex::fault::{ItemError, Kind};
use chr_lex::{Mark, Token, Word};
use std::alloc::Allocator;

/// A member of a body as it is written.
#[derive(Drop)]
pub enum BodyMember<'a, A: Allocator> {
    True,
    /// A variable `is` an expression.
    Is(&'a [u8], ParsedExpression<'a, A>),
    Add(ParsedAtom<'a, A>),
}

impl<'a, A: Allocator + Copy> Member<A, &'a [Token<'a>]> for BodyMember<'a, A> {
    ghost Said = { parsed.BodyMember };

    ghost said = { member };

    ghost front = { member_at };

    #[tactic(auto, using(crate::proofs::Lists::short_member))]
    fn read(alloc: A, tokens: &'a [Token<'a>]) -> Result<(Self, &'a [Token<'a>]), ItemError> {
        match tokens {
            [first, second, after @ ..] => match *second {
                Token::Mark(Mark::Is) => is_member(alloc, *first, after),
                Token::Mark(Mark::Open) => added(alloc, tokens),
                _ => last_member(alloc, tokens),
            },
            _ => last_member(alloc, tokens),
        }
    }
}

/// `first is` and an expression.
fn is_member<'a, A: Allocator + Copy>(
    alloc: A,
    first: Token<'a>,
    tokens: &'a [Token<'a>],
) -> Result<(BodyMember<'a, A>, &'a [Token<'a>]), ItemError>
    ensures { Gives (λ x. (member x.0, map lexeme x.1.now)) result (is_member_at (lexeme first.entry) (map lexeme tokens.now)) }
{
    match first {
        Token::Word(Word::Variable(name)) => {
            let (tree, rest) = parse_expression(alloc, tokens)?;
            Ok((BodyMember::Is(name, tree), rest))
        }
        _ => Err(ItemError::Fault(Kind::Syntax)),
    }
}

/// An atom as a member.
fn added<'a, A: Allocator + Copy>(
    alloc: A,
    tokens: &'a [Token<'a>],
) -> Result<(BodyMember<'a, A>, &'a [Token<'a>]), ItemError>
    ensures { Gives (λ x. (member x.0, map lexeme x.1.now)) result (added_at (map lexeme tokens.now)) }
{
    let (phrase, rest) = parse_phrase(alloc, tokens)?;
    Ok((BodyMember::Add(phrase), rest))
}

/// The member at the front where at most one token is left.
fn last_member<'a, A: Allocator + Copy>(
    alloc: A,
    tokens: &'a [Token<'a>],
) -> Result<(BodyMember<'a, A>, &'a [Token<'a>]), ItemError>
    ensures { Gives (λ x. (member x.0, map lexeme x.1.now)) result (last_member_at (map lexeme tokens.now)) }
{
    match tokens {
        [first, rest @ ..] if is_true(*first) => Ok((BodyMember::True, rest)),
        _ => added(alloc, tokens),
    }
}
