//! Declarations and rules.

ghost use Rattle.std.specs.Prelude.{◌≡◌, map};
ghost use Rattle.chr_lex.specs.Reading.{Gives};
ghost use Rattle.chr_lex.specs.Tokens.{lexeme};
ghost use Rattle.chr_grammar.specs.Views.{statement};
ghost use Rattle.chr_grammar.specs.Parsing.{directive_of, a_rule, statement_of};

use crate::declaration::{Declared, is_library};
use crate::list::parse_list;
use crate::rule::{ParsedRule, parse_rule};
use crate::sign::{is_declares, named};
use chr_lex::Token;
use chr_lex::fault::{ItemError, Kind};
use std::alloc::Allocator;

/// An item of a program as it is written.
#[derive(Drop)]
pub enum Statement<'a, A: Allocator> {
    /// `:- use_module(library(chr))`
    Import,
    /// `:- chr_constraint` and what it declares.
    Declaration(Vec<Declared<'a>, A>),
    Rule(ParsedRule<'a, A>),
}

/// What follows `:-`.
fn directive<'a, A: Allocator + Copy>(
    alloc: A,
    name: &'a [u8],
    tokens: &'a [Token<'a>],
) -> Result<Statement<'a, A>, ItemError>
    ensures { Gives statement result (directive_of name.now (map lexeme tokens.now)) }
{
    if name == b"chr_constraint".as_slice() {
        return Ok(Statement::Declaration(parse_list(alloc, tokens)?));
    }
    if name == b"use_module".as_slice() && is_library(tokens) {
        return Ok(Statement::Import);
    }
    Err(ItemError::Fault(Kind::Syntax))
}

/// The rule that the tokens are.
fn a_rule<'a, A: Allocator + Copy>(
    alloc: A,
    tokens: &'a [Token<'a>],
) -> Result<Statement<'a, A>, ItemError>
    ensures { Gives statement result (a_rule (map lexeme tokens.now)) }
{
    Ok(Statement::Rule(parse_rule(alloc, tokens)?))
}

#[tactic(auto, using(crate::proofs::Lists::short_statement))]
/// The declaration or the rule that the tokens are. Tokens that are neither are a fault of syntax (E04).
pub fn parse_statement<'a, A: Allocator + Copy>(
    alloc: A,
    tokens: &'a [Token<'a>],
) -> Result<Statement<'a, A>, ItemError>
    ensures { Gives statement result (statement_of (map lexeme tokens.now)) }
{
    let [first, second, after @ ..] = tokens else {
        return a_rule(alloc, tokens);
    };
    if !is_declares(*first) {
        return a_rule(alloc, tokens);
    }
    match named(*second) {
        Some(name) => directive(alloc, name, after),
        None => Err(ItemError::Fault(Kind::Syntax)),
    }
}
