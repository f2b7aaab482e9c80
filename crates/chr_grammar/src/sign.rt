//! Which mark or word a token is.

ghost use Rattle.std.specs.Prelude.{◌≡◌, option_map};
ghost use Rattle.chr_lex.specs.Tokens.{lexeme};
ghost use Rattle.chr_lex.specs.declared.mark.Mark.TheVariants.{Open, Close, Comma, Declares, At};
ghost use Rattle.chr_grammar.specs.Parsing.{is_mark, divides, named, is_true};

use chr_lex::{Mark, Token, Word};

/// What stands between the parts of a rule.
#[derive(Clone, Copy)]
pub enum Divider {
    /// `<=>` or `==>`
    Arrow,
    /// `\`
    Backslash,
    /// `|`
    Bar,
}

impl Divider {
    /// Whether the token is this divider.
    pub fn is(self, token: Token) -> bool
        ensures { result ≡ divides self (lexeme token.entry) }
    {
        match self {
            Divider::Arrow => matches!(token, Token::Mark(Mark::Simplify | Mark::Propagate)),
            Divider::Backslash => matches!(token, Token::Mark(Mark::Backslash)),
            Divider::Bar => matches!(token, Token::Mark(Mark::Bar)),
        }
    }
}

pub fn is_open(token: Token) -> bool
    ensures { result ≡ is_mark Open (lexeme token.entry) }
{
    matches!(token, Token::Mark(Mark::Open))
}

pub fn is_close(token: Token) -> bool
    ensures { result ≡ is_mark Close (lexeme token.entry) }
{
    matches!(token, Token::Mark(Mark::Close))
}

pub fn is_comma(token: Token) -> bool
    ensures { result ≡ is_mark Comma (lexeme token.entry) }
{
    matches!(token, Token::Mark(Mark::Comma))
}

pub fn is_declares(token: Token) -> bool
    ensures { result ≡ is_mark Declares (lexeme token.entry) }
{
    matches!(token, Token::Mark(Mark::Declares))
}

pub fn is_at(token: Token) -> bool
    ensures { result ≡ is_mark At (lexeme token.entry) }
{
    matches!(token, Token::Mark(Mark::At))
}

/// The name that the token is.
pub fn named(token: Token) -> Option<&[u8]>
    ensures { option_map (λ name. name.now) result ≡ named (lexeme token.entry) }
{
    match token {
        Token::Word(Word::Name(name)) => Some(name),
        _ => None,
    }
}

pub fn is_true(token: Token) -> bool
    ensures { result ≡ is_true (lexeme token.entry) }
{
    match named(token) {
        Some(name) => name == b"true".as_slice(),
        None => false,
    }
}
