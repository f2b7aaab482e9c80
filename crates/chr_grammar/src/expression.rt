//! Expressions as they are written.

ghost use Rattle.std.specs.Prelude.{◌≡◌, map, IfOk, IfErr};
ghost use Rattle.chr_lex.specs.Reading.{Gives};
ghost use Rattle.chr_lex.specs.Tokens.{lexeme};
ghost use Rattle.chr_grammar.specs.Parsed.{Group, Operation};
ghost use Rattle.chr_grammar.specs.Views.{formula};
ghost use Rattle.chr_grammar.specs.Parsing.{sum_operator, product_operator, operator_of, enclosed, fits, factor_at, chain_at, side_at, level_at, sum_at, expression_at};

use crate::sign::{is_close, is_open};
use chr_lex::fault::{ItemError, Kind};
use chr_lex::{Mark, Token, Word};
use chr_rule::Operator;
use std::alloc::Allocator;

/// How deep an expression may be. A number or a variable has depth 1; an operation is one deeper than its deeper
/// side, and parentheses add one.
pub const MOST_DEPTH: u32 = 16;

/// An expression as it is written, with its parentheses.
#[derive(Drop)]
pub enum ParsedExpression<'a, A: Allocator> {
    Number { negative: bool, digits: &'a [u8] },
    Variable(&'a [u8]),
    Group(Box<ParsedExpression<'a, A>, A>),
    Operation(Operator, Box<ParsedExpression<'a, A>, A>, Box<ParsedExpression<'a, A>, A>),
}

/// Operators that bind equally tight.
#[derive(Clone, Copy)]
enum Level {
    Sums,
    Products,
}

/// `+` or `-`
fn sum_operator(token: Token) -> Option<Operator>
    ensures { result ≡ sum_operator (lexeme token.entry) }
{
    match token {
        Token::Mark(Mark::Plus) => Some(Operator::Add),
        Token::Mark(Mark::Minus) => Some(Operator::Sub),
        _ => None,
    }
}

/// `*`, `//`, `mod` or `rem`, which bind tighter.
fn product_operator(token: Token) -> Option<Operator>
    ensures { result ≡ product_operator (lexeme token.entry) }
{
    match token {
        Token::Mark(Mark::Star) => Some(Operator::Mul),
        Token::Mark(Mark::Quotient) => Some(Operator::Quot),
        Token::Mark(Mark::Rem) => Some(Operator::Rem),
        Token::Mark(Mark::Mod) => Some(Operator::Mod),
        _ => None,
    }
}

/// The operator of the level.
fn operator(level: Level, token: Token) -> Option<Operator>
    ensures { result ≡ operator_of level (lexeme token.entry) }
{
    match level {
        Level::Sums => sum_operator(token),
        Level::Products => product_operator(token),
    }
}

/// Whether the depth is within so much.
fn fits<A: Allocator>(tree: &ParsedExpression<'_, A>, room: u32) -> bool
    ensures { result ≡ fits room (formula tree.now) }
{
    if room == 0 {
        return false;
    }
    match tree {
        ParsedExpression::Number { .. } => true,
        ParsedExpression::Variable(_) => true,
        ParsedExpression::Group(inner) => fits(inner, room - 1),
        ParsedExpression::Operation(_, left, right) => fits(left, room - 1)
            && fits(right, room - 1),
    }
}

fn joined<'a, A: Allocator + Copy>(
    alloc: A,
    operator: Operator,
    left: ParsedExpression<'a, A>,
    right: ParsedExpression<'a, A>,
) -> Result<ParsedExpression<'a, A>, ItemError>
    ensures both { IfOk result (λ t. formula t ≡ Operation operator (formula left.entry) (formula right.entry)) }
    ensures memory { IfErr result (λ e. e ≡ ItemError.Memory) }
{
    Ok(ParsedExpression::Operation(operator, Box::new(alloc, left)?, Box::new(alloc, right)?))
}

/// What stands in parentheses, at its closing one.
fn closed<'a, A: Allocator + Copy>(
    alloc: A,
    inner: ParsedExpression<'a, A>,
    tokens: &'a [Token<'a>],
) -> Result<(ParsedExpression<'a, A>, &'a [Token<'a>]), ItemError>
    ensures { Gives (λ x. (formula x.0, map lexeme x.1.now)) result (enclosed (Group (formula inner.entry)) (map lexeme tokens.now)) }
{
    match tokens {
        [first, after @ ..] if is_close(*first) => {
            Ok((ParsedExpression::Group(Box::new(alloc, inner)?), after))
        }
        _ => Err(ItemError::Fault(Kind::Syntax)),
    }
}

/// No more than `room` parentheses stand in one another.
#[cycle(expression)]
#[tactic(auto, unfolding(crate::specs::Parsing::sum_at))]
fn sum<'a, A: Allocator + Copy>(
    alloc: A,
    room: u32,
    tokens: &'a [Token<'a>],
) -> Result<(ParsedExpression<'a, A>, &'a [Token<'a>]), ItemError>
    ensures { Gives (λ x. (formula x.0, map lexeme x.1.now)) result (sum_at room (map lexeme tokens.now)) }
{
    if room == 0 {
        return Err(ItemError::Fault(Kind::Syntax));
    }
    sides(alloc, Level::Sums, room - 1, tokens)
}

/// Sides with operators of the level between them.
#[cycle(expression)]
fn sides<'a, A: Allocator + Copy>(
    alloc: A,
    level: Level,
    room: u32,
    tokens: &'a [Token<'a>],
) -> Result<(ParsedExpression<'a, A>, &'a [Token<'a>]), ItemError>
    ensures { Gives (λ x. (formula x.0, map lexeme x.1.now)) result (level_at (operator_of level) (side_at level (sum_at room)) (map lexeme tokens.now)) }
{
    let (left, after) = side(alloc, level, room, tokens)?;
    more_sides(alloc, level, room, MOST_DEPTH - 1, left, after)
}

/// What stands on a side of an operator of the level.
#[cycle(expression)]
fn side<'a, A: Allocator + Copy>(
    alloc: A,
    level: Level,
    room: u32,
    tokens: &'a [Token<'a>],
) -> Result<(ParsedExpression<'a, A>, &'a [Token<'a>]), ItemError>
    ensures { Gives (λ x. (formula x.0, map lexeme x.1.now)) result (side_at level (sum_at room) (map lexeme tokens.now)) }
{
    match level {
        Level::Sums => sides(alloc, Level::Products, room, tokens),
        Level::Products => factor(alloc, room, tokens),
    }
}

#[cycle(expression)]
fn factor<'a, A: Allocator + Copy>(
    alloc: A,
    room: u32,
    tokens: &'a [Token<'a>],
) -> Result<(ParsedExpression<'a, A>, &'a [Token<'a>]), ItemError>
    ensures { Gives (λ x. (formula x.0, map lexeme x.1.now)) result (factor_at (sum_at room) (map lexeme tokens.now)) }
{
    match tokens {
        [first, after @ ..] => match *first {
            Token::Word(Word::Name(_)) => Err(ItemError::Fault(Kind::Syntax)),
            Token::Word(Word::Variable(name)) => Ok((ParsedExpression::Variable(name), after)),
            Token::Word(Word::Number { negative, digits }) => {
                Ok((ParsedExpression::Number { negative, digits }, after))
            }
            Token::Mark(_) => {
                if !is_open(*first) {
                    return Err(ItemError::Fault(Kind::Syntax));
                }
                let (inner, rest) = sum(alloc, room, after)?;
                closed(alloc, inner, rest)
            }
        },
        [] => Err(ItemError::Fault(Kind::Syntax)),
    }
}

/// To the left: what was read so far is the left side of the next operator.
#[cycle(expression)]
fn more_sides<'a, A: Allocator + Copy>(
    alloc: A,
    level: Level,
    room: u32,
    count: u32,
    left: ParsedExpression<'a, A>,
    tokens: &'a [Token<'a>],
) -> Result<(ParsedExpression<'a, A>, &'a [Token<'a>]), ItemError>
    ensures { Gives (λ x. (formula x.0, map lexeme x.1.now)) result (chain_at (operator_of level) (side_at level (sum_at room)) count (formula left.entry) (map lexeme tokens.now)) }
{
    match tokens {
        [first, after @ ..] => match operator(level, *first) {
            None => Ok((left, tokens)),
            Some(operator) => {
                if count == 0 {
                    return Err(ItemError::Fault(Kind::Syntax));
                }
                let (right, rest) = side(alloc, level, room, after)?;
                let both = joined(alloc, operator, left, right)?;
                more_sides(alloc, level, room, count - 1, both, rest)
            }
        },
        [] => Ok((left, tokens)),
    }
}

/// The longest expression at the front, and the tokens after it. `*`, `//`, `mod` and `rem` bind tighter than `+` and `-`,
/// and all group to the left. No expression at the front is a fault of syntax (E04), and so is one that is deeper than
/// [`MOST_DEPTH`].
#[tactic(auto, unfolding(crate::specs::Parsing::expression_at))]
pub(crate) fn parse_expression<'a, A: Allocator + Copy>(
    alloc: A,
    tokens: &'a [Token<'a>],
) -> Result<(ParsedExpression<'a, A>, &'a [Token<'a>]), ItemError>
    ensures { Gives (λ x. (formula x.0, map lexeme x.1.now)) result (expression_at (map lexeme tokens.now)) }
{
    let (tree, after) = sum(alloc, MOST_DEPTH, tokens)?;
    if !fits(&tree, MOST_DEPTH) {
        return Err(ItemError::Fault(Kind::Syntax));
    }
    Ok((tree, after))
}
