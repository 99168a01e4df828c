// The name that indices, or arguments, belong to.

ghost use Rattle.std.specs.Prelude.{◌≡◌, ◌≤◌, ◌<◌, ◌+◌, ◌^◌, map};
ghost use Rattle.std.specs.Option.{option_map};
ghost use Rattle.lrc_named_name_hints.specs.Owner.{closes, is_outside, open_before, opens, owner_before};
ghost use Rattle.lrc_named_tokens.specs.View.{lexeme_of, located_of};

use crate::seen::name_of;
use lrc_named_tokens::token::{Lexeme, Located, Sign, Token};

/// Returns the name that stands before a token outside brackets, of which so many are open at the token.
pub(crate) fn owner<'t>(tokens: &[Located<'t>], at: usize, opened: usize) -> Option<&'t [u8]>
    requires { opened ≤ 1 }
    ensures { option_map (λ name. name.now) result
        ≡ owner_before (map located_of tokens.now) at opened }
{
    let count = at.min(tokens.len());
    let mut depth = opened;
    for back in 0..count {
        let lexeme = tokens[count - 1 - back].lexeme;
        if is_outside(lexeme, depth) {
            return name_of(lexeme);
        }
        depth = open_before(lexeme, depth);
    }
    None
}

// Whether a token stands outside brackets, where so many are open behind it.
fn is_outside(lexeme: Lexeme<'_>, depth: usize) -> bool
    ensures { result ≡ is_outside (lexeme_of lexeme.entry) depth }
{
    depth == 0 && !opens(lexeme) && !closes(lexeme)
}

// How many brackets are open before a token, where so many are open behind it.
fn open_before(lexeme: Lexeme<'_>, depth: usize) -> usize
    requires { depth < 2 ^ 63 }
    ensures depth { result ≡ open_before (lexeme_of lexeme.entry) depth }
    ensures few { result ≤ depth + 1 }
{
    if opens(lexeme) {
        depth.saturating_sub(1)
    } else if closes(lexeme) {
        depth + 1
    } else {
        depth
    }
}

fn opens(lexeme: Lexeme<'_>) -> bool
    ensures { result ≡ opens (lexeme_of lexeme.entry) }
{
    matches!(
        lexeme,
        Lexeme::Token(Token::Sign(Sign::OpenBracket | Sign::OpenParenthesis))
    )
}

fn closes(lexeme: Lexeme<'_>) -> bool
    ensures { result ≡ closes (lexeme_of lexeme.entry) }
{
    matches!(
        lexeme,
        Lexeme::Token(Token::Sign(Sign::CloseBracket | Sign::CloseParenthesis))
    )
}
