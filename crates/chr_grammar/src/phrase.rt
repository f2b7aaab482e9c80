//! Atoms as they are written, and lists of them.

ghost use Rattle.std.specs.Prelude.{◌≡◌, map};
ghost use Rattle.chr_value.specs.Spelling.{is_reserved};
ghost use Rattle.chr_lex.specs.Reading.{Gives};
ghost use Rattle.chr_lex.specs.Tokens.{lexeme};
ghost use Rattle.chr_grammar.specs.Parsed as parsed;
ghost use Rattle.chr_grammar.specs.Views.{term, phrase};
ghost use Rattle.chr_grammar.specs.Parsing.{terms_at, args_at, phrase_at, phrases_of};

use crate::list::{Member, parse_list, parse_several};
use crate::sign::{is_close, is_open};
use crate::term::ParsedTerm;
use chr_lex::fault::{ItemError, Kind};
use chr_lex::{Token, Word};
use std::alloc::Allocator;

/// An atom as it is written.
#[derive(Drop)]
pub struct ParsedAtom<'a, A: Allocator> {
    pub name: &'a [u8],
    pub args: Vec<ParsedTerm<'a, A>, A>,
}

impl<'a, A: Allocator + Copy> Member<A, &'a [Token<'a>]> for ParsedAtom<'a, A> {
    ghost Said = { parsed.ParsedAtom };

    ghost said = { phrase };

    ghost front = { phrase_at };

    fn read(alloc: A, tokens: &'a [Token<'a>]) -> Result<(Self, &'a [Token<'a>]), ItemError> {
        parse_phrase(alloc, tokens)
    }
}

/// These words are no atoms.
fn is_reserved(name: &[u8]) -> bool
    ensures { result ≡ is_reserved name.now }
{
    name == b"true".as_slice() || name == b"fail".as_slice() || name == b"false".as_slice()
}

/// Terms by commas and a closing parenthesis, and the tokens after it.
fn terms<'a, A: Allocator + Copy>(
    alloc: A,
    tokens: &'a [Token<'a>],
) -> Result<(Vec<ParsedTerm<'a, A>, A>, &'a [Token<'a>]), ItemError>
    ensures { Gives (λ x. (map term x.0.items, map lexeme x.1.now)) result (terms_at (map lexeme tokens.now)) }
{
    let (terms, after) = parse_several(alloc, tokens)?;
    match after {
        [first, behind @ ..] if is_close(*first) => Ok((terms, behind)),
        _ => Err(ItemError::Fault(Kind::Syntax)),
    }
}

/// The atom at the front, and the tokens after it. `true`, `fail` and `false` without arguments are no atoms. No atom at
/// the front is a fault of syntax (E04).
pub(crate) fn parse_phrase<'a, A: Allocator + Copy>(
    alloc: A,
    tokens: &'a [Token<'a>],
) -> Result<(ParsedAtom<'a, A>, &'a [Token<'a>]), ItemError>
    ensures { Gives (λ x. (phrase x.0, map lexeme x.1.now)) result (phrase_at (map lexeme tokens.now)) }
{
    match tokens {
        [first, after @ ..] => match *first {
            Token::Word(Word::Name(name)) => args(alloc, name, after),
            _ => Err(ItemError::Fault(Kind::Syntax)),
        },
        [] => Err(ItemError::Fault(Kind::Syntax)),
    }
}

/// The atom of this name, by what follows the name.
fn args<'a, A: Allocator + Copy>(
    alloc: A,
    name: &'a [u8],
    tokens: &'a [Token<'a>],
) -> Result<(ParsedAtom<'a, A>, &'a [Token<'a>]), ItemError>
    ensures { Gives (λ x. (phrase x.0, map lexeme x.1.now)) result (args_at name.now (map lexeme tokens.now)) }
{
    match tokens {
        [first, inside @ ..] if is_open(*first) => {
            let (args, after) = terms(alloc, inside)?;
            Ok((ParsedAtom { name, args }, after))
        }
        _ if is_reserved(name) => Err(ItemError::Fault(Kind::Syntax)),
        _ => {
            let args = Vec::new(alloc);
            Ok((ParsedAtom { name, args }, tokens))
        }
    }
}

/// Atoms by commas, at least one: a post, or the heads of a rule. Tokens that are something else are a fault of syntax
/// (E04).
pub fn parse_phrases<'a, A: Allocator + Copy>(
    alloc: A,
    tokens: &'a [Token<'a>],
) -> Result<Vec<ParsedAtom<'a, A>, A>, ItemError>
    ensures { Gives (λ v. map phrase v.items) result (phrases_of (map lexeme tokens.now)) }
{
    parse_list(alloc, tokens)
}
