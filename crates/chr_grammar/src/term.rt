//! Terms as they are written.

ghost use Rattle.std.specs.Prelude.{◌≡◌, ◌≤◌, ◌<◌, length, drop, map, IfOk};
ghost use Rattle.chr_lex.specs.Reading.{Gives};
ghost use Rattle.chr_lex.specs.Tokens.{word, lexeme};
ghost use Rattle.chr_grammar.specs.Parsed.{is_name};
ghost use Rattle.chr_grammar.specs.Parsed as parsed;
ghost use Rattle.chr_grammar.specs.Views.{term};
ghost use Rattle.chr_grammar.specs.Parsing.{is_functor, next_at, behind_word_at, term_at};

use crate::list::Member;
use crate::sign::{is_close, is_comma, is_open};
use chr_lex::fault::{ItemError, Kind};
use chr_lex::{Token, Word};
use std::alloc::Allocator;

/// A word of a term.
#[derive(Clone, Copy)]
pub struct TermNode<'a> {
    pub word: Word<'a>,
    /// In how many parentheses of the term the word stands.
    pub depth: usize,
}

/// A term as it is written: its words in text order, a functor before its arguments. The arguments of a functor are the
/// next nodes one deeper, up to the next node that isn't deeper.
#[derive(Drop)]
pub struct ParsedTerm<'a, A: Allocator> {
    pub nodes: Vec<TermNode<'a>, A>,
}

impl<'a, A: Allocator + Copy> Member<A, &'a [Token<'a>]> for ParsedTerm<'a, A> {
    ghost Said = { parsed.ParsedTerm };

    ghost said = { term };

    ghost front = { term_at };

    fn read(alloc: A, tokens: &'a [Token<'a>]) -> Result<(Self, &'a [Token<'a>]), ItemError> {
        parse_term(alloc, tokens)
    }
}

fn is_name(name: Word) -> bool
    ensures { result ≡ is_name (word name.entry) }
{
    matches!(name, Word::Name(_))
}

/// Whether a word is the functor of what follows it: a name before `(`.
fn is_functor(name: Word, tokens: &[Token]) -> bool
    ensures { result ≡ is_functor (word name.entry) (map lexeme tokens.now) }
{
    match tokens {
        [first, ..] => is_name(name) && is_open(*first),
        [] => false,
    }
}

/// In how many parentheses the next argument stands behind one in so many, and its place. In none the term has ended.
fn next_argument(depth: usize, tokens: &[Token], from: usize) -> Result<(usize, usize), ItemError>
    requires { from ≤ length tokens.now }
    ensures same { Gives (λ x. (x.0, drop x.1 (map lexeme tokens.now))) result (next_at depth (drop from (map lexeme tokens.now))) }
    ensures next { IfOk result (λ x. (x.0 ≤ depth) × (from ≤ x.1) × (x.1 ≤ length tokens.now)) }
{
    let mut open = depth;
    let mut at = from;
    while open > 0 {
        if at == tokens.len() {
            return Err(ItemError::Fault(Kind::Syntax));
        }
        let first = tokens[at];
        at += 1;
        if is_comma(first) {
            return Ok((open, at));
        }
        if !is_close(first) {
            return Err(ItemError::Fault(Kind::Syntax));
        }
        open -= 1;
    }
    Ok((0, at))
}

/// The same behind a word, which may be a functor and stand before its arguments.
fn behind_word(
    name: Word,
    depth: usize,
    tokens: &[Token],
    from: usize,
) -> Result<(usize, usize), ItemError>
    requires place { from ≤ length tokens.now }
    requires few { depth < from }
    ensures same { Gives (λ x. (x.0, drop x.1 (map lexeme tokens.now))) result (behind_word_at (word name.entry) depth (drop from (map lexeme tokens.now))) }
    ensures next { IfOk result (λ x. (x.0 ≤ x.1) × (from ≤ x.1) × (x.1 ≤ length tokens.now)) }
{
    if is_functor(name, &tokens[from..]) {
        return Ok((depth + 1, from + 1));
    }
    next_argument(depth, tokens, from)
}

/// The term at a place, and the place after it.
fn term_from<'a, A: Allocator + Copy>(
    alloc: A,
    tokens: &[Token<'a>],
    from: usize,
) -> Result<(ParsedTerm<'a, A>, usize), ItemError>
    requires { from ≤ length tokens.now }
    ensures same { Gives (λ x. (term x.0, drop x.1 (map lexeme tokens.now))) result (term_at (drop from (map lexeme tokens.now))) }
    ensures next { IfOk result (λ x. (from < x.1) × (x.1 ≤ length tokens.now)) }
{
    let mut nodes = Vec::new(alloc);
    let mut depth = 0;
    let mut at = from;
    for _ in 0..tokens.len() - from {
        if at == tokens.len() {
            return Err(ItemError::Fault(Kind::Syntax));
        }
        let Token::Word(word) = tokens[at] else {
            return Err(ItemError::Fault(Kind::Syntax));
        };
        nodes.push(TermNode { word, depth })?;
        let (next, behind) = behind_word(word, depth, tokens, at + 1)?;
        if next == 0 {
            return Ok((ParsedTerm { nodes }, behind));
        }
        depth = next;
        at = behind;
    }
    Err(ItemError::Fault(Kind::Syntax))
}

#[tactic(auto, using(crate::proofs::Lists::tokens_from_place))]
/// The longest term at the front, and the tokens after it. No term at the front is a fault of syntax (E04).
pub(crate) fn parse_term<'a, A: Allocator + Copy>(
    alloc: A,
    tokens: &'a [Token<'a>],
) -> Result<(ParsedTerm<'a, A>, &'a [Token<'a>]), ItemError>
    ensures { Gives (λ x. (term x.0, map lexeme x.1.now)) result (term_at (map lexeme tokens.now)) }
{
    let (term, next) = term_from(alloc, tokens, 0)?;
    Ok((term, &tokens[next..]))
}
