//! Declarations as they are written.

ghost use Rattle.std.specs.Prelude.{◌≡◌, map};
ghost use Rattle.chr_lex.specs.Reading.{Gives};
ghost use Rattle.chr_lex.specs.Tokens.{lexeme};
ghost use Rattle.chr_grammar.specs.Views.{declared};
ghost use Rattle.chr_grammar.specs.Parsing.{named, is_named, is_opened, are_closed, is_module, is_library, declared_of, declared_at};

use crate::list::Member;
use crate::sign::{is_close, is_open, named};
use chr_lex::fault::{ItemError, Kind};
use chr_lex::{Mark, Token, Word};
use std::alloc::Allocator;

/// A name and how many arguments it takes, as they are declared.
#[derive(Clone, Copy)]
pub struct Declared<'a> {
    pub name: &'a [u8],
    pub digits: &'a [u8],
}

impl<'a, A: Allocator + Copy> Member<A, &'a [Token<'a>]> for Declared<'a> {
    ghost use Rattle.chr_grammar.specs.Parsed as parsed;

    ghost Said = { parsed.Declared };

    ghost said = { declared };

    ghost front = { declared_at };

    fn read(_alloc: A, tokens: &'a [Token<'a>]) -> Result<(Self, &'a [Token<'a>]), ItemError> {
        match tokens {
            [name, slash, number, after @ ..] => {
                let declared = declared_of(*name, *slash, *number)?;
                Ok((declared, after))
            }
            _ => Err(ItemError::Fault(Kind::Syntax)),
        }
    }
}

fn is_named(token: Token, word: &[u8]) -> bool
    ensures { result ≡ is_named word.now (named (lexeme token.entry)) }
{
    match named(token) {
        Some(name) => name == word,
        None => false,
    }
}

/// A parenthesis and the word.
fn is_opened(first: Token, name: Token, word: &[u8]) -> bool
    ensures { result ≡ is_opened word.now (lexeme first.entry) (lexeme name.entry) }
{
    is_open(first) && is_named(name, word)
}

fn are_closed(first: Token, second: Token) -> bool
    ensures { result ≡ are_closed (lexeme first.entry) (lexeme second.entry) }
{
    is_close(first) && is_close(second)
}

#[tactic(auto, using(crate::proofs::Lists::short_module, crate::proofs::Lists::long_module))]
/// `(chr))`
fn is_module(tokens: &[Token]) -> bool
    ensures { result ≡ is_module (map lexeme tokens.now) }
{
    match tokens {
        [opening, name, first, second] => {
            is_opened(*opening, *name, b"chr") && are_closed(*first, *second)
        }
        _ => false,
    }
}

#[tactic(auto, using(crate::proofs::Lists::short_library))]
/// Whether the tokens are `(library(chr))`.
pub(crate) fn is_library(tokens: &[Token]) -> bool
    ensures { result ≡ is_library (map lexeme tokens.now) }
{
    match tokens {
        [opening, name, inner @ ..] => is_opened(*opening, *name, b"library") && is_module(inner),
        _ => false,
    }
}

/// What is declared by a name, a slash and a number.
fn declared_of<'a>(
    name: Token<'a>,
    slash: Token<'a>,
    number: Token<'a>,
) -> Result<Declared<'a>, ItemError>
    ensures { Gives declared result (declared_of (lexeme name.entry) (lexeme slash.entry) (lexeme number.entry)) }
{
    match (name, slash, number) {
        (
            Token::Word(Word::Name(name)),
            Token::Mark(Mark::Slash),
            Token::Word(
                Word::Number {
                    negative: false,
                    digits,
                },
            ),
        ) => Ok(Declared { name, digits }),
        _ => Err(ItemError::Fault(Kind::Syntax)),
    }
}
