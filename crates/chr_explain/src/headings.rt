//! What the text of a program says of its rules besides their meaning: their lines, and the names of their variables.
ghost use Rattle.std.specs.Prelude.{◌≡◌, ◌≤◌, ◌<◌, zero, length, map, flat_map, IfOk, MatchOption};
ghost use Rattle.chr_value.specs.Bounds.{most_text_bytes, most_variables};
ghost use Rattle.chr_lex.specs.Items.{items, entry};
ghost use Rattle.chr_lex.specs.Tokens.{lexeme};
ghost use Rattle.chr_limits.specs.Variables.{seen};
ghost use Rattle.chr_limits.specs.Views.{names, Sees};
ghost use Rattle.chr_explain.specs.Headings.{heading_view, lexeme_variables, variables_of, with_variables, item_heading, made_heading};

use chr_grammar::{Statement, parse_statement};
use chr_lex::fault::ItemError;
use chr_lex::{Item, Token, Word, next_item, tokens};
use chr_limits::{Seen, meet};
use std::alloc::{AllocError, Allocator};

/// The line of a rule's first byte, and its variables at the places of their numbers.
#[derive(Drop)]
pub struct Heading<'a> {
    pub line: u32,
    pub variables: Seen<'a>,
}

/// Adds the variable that a token is, if it is one.
fn meet_token<'a>(seen: &mut Seen<'a>, token: Token<'a>) -> Option<()>
    ensures { Sees result seen.old.items seen.new.items (lexeme_variables (lexeme token.entry)) }
{
    match token {
        Token::Word(Word::Variable(name)) => meet(seen, name),
        Token::Word(Word::Name(_)) | Token::Word(Word::Number { .. }) | Token::Mark(_) => Some(()),
    }
}

/// Adds the variables of tokens.
fn meet_tokens<'a>(seen: &mut Seen<'a>, tokens: &[Token<'a>]) -> Option<()>
    ensures { Sees result seen.old.items seen.new.items (flat_map lexeme_variables (map lexeme tokens.now)) }
{
    for token in tokens {
        meet_token(seen, *token)?;
    }
    Some(())
}

/// The variables of tokens in text order, each once, and each `_` apart. None where there are more than a rule may have.
fn variables<'a>(tokens: &[Token<'a>]) -> Option<Seen<'a>>
    ensures { MatchOption result (most_variables < length (variables_of (map lexeme tokens.now))) (λ seen. names seen.items ≡ variables_of (map lexeme tokens.now)) }
{
    let mut seen = Seen::new();
    meet_tokens(&mut seen, tokens)?;
    Some(seen)
}

/// The heading of a rule that begins in a line, by its tokens.
fn rule_heading<'a>(line: u32, tokens: &[Token<'a>]) -> Option<Heading<'a>>
    ensures { made_heading result ≡ with_variables line (variables_of (map lexeme tokens.now)) }
{
    let variables = variables(tokens)?;
    Some(Heading { line, variables })
}

/// The heading of an item, if it is a rule. An `Err` is E01.
fn item_heading<'a, A: Allocator + Copy>(
    alloc: A,
    item: Item<'a>,
) -> Result<Option<Heading<'a>>, AllocError>
    ensures { IfOk result (λ made. made_heading made ≡ item_heading (entry item.entry)) }
{
    let tokens = match tokens(alloc, item.text) {
        Ok(tokens) => tokens,
        Err(ItemError::Memory) => return Err(AllocError),
        Err(ItemError::Fault(_)) => return Ok(None),
    };
    match parse_statement(alloc, &tokens) {
        Ok(Statement::Rule(_)) => Ok(rule_heading(item.line, &tokens)),
        Ok(Statement::Import | Statement::Declaration(_)) => Ok(None),
        Err(ItemError::Memory) => Err(AllocError),
        Err(ItemError::Fault(_)) => Ok(None),
    }
}

/// The headings of the rules of a text without comments, in text order. An `Err` is E01.
pub fn headings<'a, A: Allocator + Copy>(
    alloc: A,
    text: &'a [u8],
) -> Result<Vec<Heading<'a>, A>, AllocError>
    requires { length text.now ≤ most_text_bytes }
    ensures { IfOk result (λ list. map heading_view list.items ≡ flat_map item_heading (items zero 1 text.now)) }
{
    let mut list = Vec::new(alloc);
    let mut line = 1;
    let mut rest = text;
    'items: loop {
        match next_item(line, rest) {
            None => return Ok(list),
            Some((item, next_line, after)) => {
                if let Some(heading) = item_heading(alloc, item)? {
                    list.push(heading)?;
                }
                line = next_line;
                rest = after;
            }
        }
    }
}
