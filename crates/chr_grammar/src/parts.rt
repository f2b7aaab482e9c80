//! Tokens that are cut at a divider.

ghost use Rattle.std.specs.Prelude.{◌≡◌, ◌≤◌, [], ◌∷◌, length, map, not, MatchOption};
ghost use Rattle.std.specs.List.{take_while};
ghost use Rattle.chr_lex.specs.Tokens.{lexeme};
ghost use Rattle.chr_grammar.specs.Parsing.{divides, IsCut};

use crate::sign::Divider;
use chr_lex::Token;

/// How many tokens there are before the first divider.
fn count_before(divider: Divider, tokens: &[Token]) -> usize
    ensures same { result ≡ length (take_while (λ t. not (divides divider (lexeme t))) tokens.now) }
    ensures within { result ≤ length tokens.now }
{
    tokens
        .iter()
        .take_while(|token| !divider.is(**token))
        .count()
}

/// The tokens before the first divider, the divider, and the tokens after it.
pub(crate) fn cut<'a>(
    divider: Divider,
    tokens: &'a [Token<'a>],
) -> Option<(&'a [Token<'a>], Token<'a>, &'a [Token<'a>])>
    ensures { MatchOption result (IsCut (divides divider) (map lexeme tokens.now) (map lexeme tokens.now) []) (λ x. IsCut (divides divider) (map lexeme tokens.now) (map lexeme x.0.now) (lexeme x.1 ∷ map lexeme x.2.now)) }
{
    let at = count_before(divider, tokens);
    if at == tokens.len() {
        return None;
    }
    Some((&tokens[..at], tokens[at], &tokens[at + 1..]))
}
