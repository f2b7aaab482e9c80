//! The tokens of an item, the longest first at each place.

ghost use Rattle.std.specs.Prelude.{◌≡◌, ◌≤◌, ◌<◌, length, take, IfOk, map, option_map, IsTrue, IfSome, Bool, zero};
ghost use Rattle.std.specs.List.{take_while};
ghost use Rattle.std.specs.Char.{is_ascii_digit};
ghost use Rattle.chr_value.specs.Spelling.{is_name_byte};
ghost use Rattle.chr_lex.specs.Tokens.{Lexeme, lexeme, is_operand, begins_with_digit, lower_word, signed_at, token_at, tokens_from, tokens_of};
ghost use Rattle.chr_lex.specs.Items.{BeginsItem};
ghost use Rattle.chr_lex.specs.Reading.{Gives};

use crate::fault::{ItemError, Kind};
use crate::item::is_gap;
use crate::mark::{Mark, mark_at, word_mark};
use std::alloc::Allocator;

/// A name, a variable or a number, as it is written.
#[derive(Clone, Copy, Debug)]
pub enum Word<'a> {
    /// A lower-case letter, then letters, digits and `_`.
    Name(&'a [u8]),
    /// An upper-case letter or `_`, then letters, digits and `_`.
    Variable(&'a [u8]),
    /// Decimal digits, perhaps after a minus. They may be any number of digits.
    Number { negative: bool, digits: &'a [u8] },
}

/// A token.
#[derive(Clone, Copy, Debug)]
pub enum Token<'a> {
    Word(Word<'a>),
    Mark(Mark),
}

impl Token<'_> {
    /// Whether a minus after it is an operator.
    fn is_operand(self) -> bool
        ensures { result ≡ is_operand (lexeme self.entry) }
    {
        !matches!(self, Token::Mark(mark) if mark != Mark::Close)
    }
}

fn is_name_byte(b: u8) -> bool
    ensures { result ≡ is_name_byte b }
{
    b.is_ascii_lowercase() || b.is_ascii_uppercase() || b.is_ascii_digit() || b == b'_'
}

#[tactic(auto, using(crate::proofs::Lexing::take_all_passing))]
/// The bytes at the front that may be in a name.
fn word_at(text: &[u8]) -> &[u8]
    ensures { result.now ≡ take_while is_name_byte text.now }
{
    &text[..word_len(text)]
}

fn word_len(text: &[u8]) -> usize
    ensures { result ≡ length (take_while is_name_byte text.now) }
{
    text.iter().take_while(|b| is_name_byte(**b)).count()
}

#[tactic(auto, using(crate::proofs::Lexing::take_all_passing))]
/// The digits at the front.
fn digits(text: &[u8]) -> &[u8]
    ensures { result.now ≡ take_while is_ascii_digit text.now }
{
    &text[..digits_len(text)]
}

fn digits_len(text: &[u8]) -> usize
    ensures { result ≡ length (take_while is_ascii_digit text.now) }
{
    text.iter().take_while(|b| b.is_ascii_digit()).count()
}

/// The word of a lower-case letter.
fn lower_word(word: &[u8]) -> Token
    ensures { lexeme result ≡ lower_word word.now }
{
    match word_mark(word) {
        Some(mark) => Token::Mark(mark),
        None => Token::Word(Word::Name(word)),
    }
}

/// The token at the front, and how many bytes it takes.
fn token_at(after_operand: bool, text: &[u8]) -> Option<(Token, usize)>
    ensures same { token_at after_operand text.now ≡ option_map (λ t. (lexeme t.0, t.1)) result }
    ensures fits { IfSome result (λ t. (0 < t.1) × (t.1 ≤ length text.now)) }
{
    longest_at(after_operand, text)
}

/// The token at the front, and how many bytes it takes.
fn longest_at(after_operand: bool, text: &[u8]) -> Option<(Token, usize)>
    ensures { token_at after_operand text.now ≡ option_map (λ t. (lexeme t.0, t.1)) result }
{
    let first = *text.first()?;
    if first.is_ascii_lowercase() {
        let word = word_at(text);
        Some((lower_word(word), word.len()))
    } else if first.is_ascii_uppercase() || first == b'_' {
        let word = word_at(text);
        Some((Token::Word(Word::Variable(word)), word.len()))
    } else if first.is_ascii_digit() {
        let digits = digits(text);
        Some((
            Token::Word(Word::Number {
                negative: false,
                digits,
            }),
            digits.len(),
        ))
    } else {
        sign_at(after_operand, text)
    }
}

/// The number below zero or the mark at the front.
fn sign_at(after_operand: bool, text: &[u8]) -> Option<(Token, usize)>
    ensures { signed_at after_operand text.now ≡ option_map (λ t. (lexeme t.0, t.1)) result }
{
    match text {
        [b'-', after @ ..] if !after_operand && begins_with_digit(after) => {
            let digits = digits(after);
            Some((
                Token::Word(Word::Number {
                    negative: true,
                    digits,
                }),
                1 + digits.len(),
            ))
        }
        _ => {
            let mark = mark_at(text)?;
            Some((Token::Mark(mark), mark.spelling().len()))
        }
    }
}

fn begins_with_digit(text: &[u8]) -> bool
    ensures { result ≡ begins_with_digit text.now }
{
    match text {
        [b, ..] => b.is_ascii_digit(),
        [] => false,
    }
}

/// The text from the next token on.
fn skip_blank(text: &[u8]) -> &[u8]
    ensures same { (op : Bool) → tokens_from zero op text.now ≡ tokens_from zero op result.now }
    ensures first { BeginsItem result.now }
    ensures shorter { length result.now ≤ length text.now }
{
    let mut rest = text;
    while let [b, after @ ..] = rest {
        if !is_gap(*b) {
            break;
        }
        rest = after;
    }
    rest
}

/// The tokens of an item's bytes. A minus directly before a digit belongs to the number, unless the token before it is
/// a name, a variable, a number or `)`. Bytes that are no token are a fault of syntax (E04).
pub fn tokens<A: Allocator>(alloc: A, text: &[u8]) -> Result<Vec<Token, A>, ItemError>
    ensures { Gives (λ v. map lexeme v.items) result (tokens_of text.now) }
{
    let mut tokens = Vec::new(alloc);
    let mut after_operand = false;
    let mut rest = skip_blank(text);
    while !rest.is_empty() {
        match token_at(after_operand, rest) {
            None => return Err(ItemError::Fault(Kind::Syntax)),
            Some((token, len)) => {
                tokens.push(token)?;
                after_operand = token.is_operand();
                rest = skip_blank(&rest[len..]);
            }
        }
    }
    Ok(tokens)
}
