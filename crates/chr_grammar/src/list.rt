//! Lists by commas.

ghost use Rattle.std.specs.Prelude.{◌≡◌, ◌∷◌, [], List, length, map, MatchOption};
ghost use Rattle.chr_lex.specs.Reading.{Gives};
ghost use Rattle.chr_lex.specs.declared.mark.Mark.TheVariants.{Comma};
ghost use Rattle.chr_lex.specs.Tokens.{Lexeme, OfMark, lexeme};
ghost use Rattle.chr_grammar.specs.Parsing.{Front, NoComma, divides, before, from_first, IsCut, IsParted, several_at, each_by_commas, parts_by};

use crate::parts::cut;
use crate::sign::{Divider, is_comma};
use chr_lex::Token;
use chr_lex::fault::{ItemError, Kind};
use std::alloc::Allocator;

/// Tokens that are read from the left. A list keeps its place in them as one value.
pub(crate) trait Tokens: Copy {
    ghost lexemes: { Self → List Lexeme };

    /// How many they are.
    fn count(self) -> usize
        ensures { result ≡ length (lexemes self) };

    /// Those behind a comma at the front.
    fn behind_comma(self) -> Option<Self>
        ensures { MatchOption result (NoComma (lexemes self)) (λ rest. lexemes self ≡ OfMark Comma ∷ lexemes rest) };

    /// Those before the first divider, and those behind it.
    fn sides(self, divider: Divider) -> Option<(Self, Self)>
        ensures { MatchOption result (IsCut (divides divider) (lexemes self) (lexemes self) []) (λ x. IsParted (divides divider) (lexemes self) (lexemes x.0) (lexemes x.1)) };
}

impl<'a> Tokens for &'a [Token<'a>] {
    ghost lexemes = { λ ts. map lexeme ts.now };

    fn count(self) -> usize {
        self.len()
    }

    fn behind_comma(self) -> Option<Self> {
        match self {
            [first, rest @ ..] if is_comma(*first) => Some(rest),
            _ => None,
        }
    }

    fn sides(self, divider: Divider) -> Option<(Self, Self)> {
        let (front, _, back) = cut(divider, self)?;
        Some((front, back))
    }
}

/// What can stand in a list by commas.
pub(crate) trait Member<A: Allocator + Copy, S: Tokens>: Drop + Sized {
    ghost Said: { Type 0 };

    ghost said: { Self → Said };

    /// How the tokens at the front are read as a member.
    ghost front: { List Lexeme → Front Said };

    /// The member at the front, and the tokens after it. No member at the front is a fault of syntax (E04).
    fn read(alloc: A, tokens: S) -> Result<(Self, S), ItemError>
        ensures { Gives (λ x. (said x.0, S.lexemes x.1)) result (front (S.lexemes tokens)) };
}

/// The members by commas at the front, at least one, and the tokens after them.
pub(crate) fn parse_several<S: Tokens, M: Member<A, S>, A: Allocator + Copy>(
    alloc: A,
    tokens: S,
) -> Result<(Vec<M, A>, S), ItemError>
    ensures { Gives (λ x. (map M.said x.0.items, S.lexemes x.1)) result (several_at M.front (S.lexemes tokens)) }
{
    let mut members = Vec::new(alloc);
    let mut rest = tokens;
    for _ in 0..tokens.count() {
        let (member, after) = M::read(alloc, rest)?;
        members.push(member)?;
        let Some(behind) = after.behind_comma() else {
            return Ok((members, after));
        };
        rest = behind;
    }
    Err(ItemError::Fault(Kind::Syntax))
}

/// The members by commas, at least one. Tokens that are something else are a fault of syntax (E04).
pub(crate) fn parse_list<S: Tokens, M: Member<A, S>, A: Allocator + Copy>(
    alloc: A,
    tokens: S,
) -> Result<Vec<M, A>, ItemError>
    ensures { Gives (λ v. map M.said v.items) result (each_by_commas M.front (S.lexemes tokens)) }
{
    let (members, rest) = parse_several::<S, M, A>(alloc, tokens)?;
    if rest.count() > 0 {
        return Err(ItemError::Fault(Kind::Syntax));
    }
    Ok(members)
}

/// Two lists with the divider between them, or the second one alone. Tokens that are something else are a fault of syntax
/// (E04).
pub(crate) fn parse_parts<S: Tokens, M: Member<A, S>, N: Member<A, S>, A: Allocator + Copy>(
    alloc: A,
    divider: Divider,
    tokens: S,
) -> Result<(Vec<M, A>, Vec<N, A>), ItemError>
    ensures { Gives (λ x. (map M.said x.0.items, map N.said x.1.items)) result (parts_by (each_by_commas M.front) (each_by_commas N.front) (before (divides divider) (S.lexemes tokens)) (from_first (divides divider) (S.lexemes tokens))) }
{
    match tokens.sides(divider) {
        None => Ok((Vec::new(alloc), parse_list::<S, N, A>(alloc, tokens)?)),
        Some((front, back)) => Ok((
            parse_list::<S, M, A>(alloc, front)?,
            parse_list::<S, N, A>(alloc, back)?,
        )),
    }
}
