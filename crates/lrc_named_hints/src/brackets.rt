// Brackets that are open.

ghost use Rattle.std.specs.Prelude.{◌≡◌, map};
ghost use Rattle.std.specs.Option.{option_map};
ghost use Rattle.lrc_lint_fault.specs.HintTable.{open_row, opened_words};
ghost use Rattle.lrc_named_tokens.specs.View.{lexeme_of, located_of};
ghost use Rattle.lrc_named_hints.specs.Hint.{words_of};
ghost use Rattle.lrc_named_hints.specs.HintTable.{closes, last_open, opens};

use crate::hint::Hint;
use lrc_lang::token::Sign as CoreSign;
use lrc_lint_fault::brackets::Brackets;
use lrc_lint_fault::hint::Hint as CoreHint;
use lrc_named_tokens::token::{Lexeme, Located, Sign, Token};

// The opening bracket that this is, of those that are looked at.
fn opened_by(brackets: Brackets, lexeme: Lexeme<'_>) -> Option<CoreSign>
    ensures { result ≡ opens brackets (lexeme_of lexeme.entry) }
{
    match (brackets, lexeme) {
        (Brackets::Braces, Lexeme::Token(Token::Sign(Sign::OpenBrace))) => {
            Some(CoreSign::OpenBrace)
        }
        (Brackets::InExpressions, Lexeme::Token(Token::Sign(Sign::OpenParenthesis))) => {
            Some(CoreSign::OpenParenthesis)
        }
        (Brackets::InExpressions, Lexeme::Token(Token::Sign(Sign::OpenBracket))) => {
            Some(CoreSign::OpenBracket)
        }
        _ => None,
    }
}

// Whether this is a closing bracket, of those that are looked at.
fn closed_by(brackets: Brackets, lexeme: Lexeme<'_>) -> bool
    ensures { result ≡ closes brackets (lexeme_of lexeme.entry) }
{
    match brackets {
        Brackets::Braces => matches!(lexeme, Lexeme::Token(Token::Sign(Sign::CloseBrace))),
        Brackets::InExpressions => matches!(
            lexeme,
            Lexeme::Token(Token::Sign(Sign::CloseParenthesis | Sign::CloseBracket))
        ),
    }
}

/// Returns the hint that tells of the last of these brackets that is open behind some tokens, if one is.
pub fn last_open<'t>(brackets: Brackets, before: &[Located<'_>]) -> Option<Hint<'t>>
    ensures { words_of result
        ≡ option_map opened_words (last_open brackets (map located_of before.now)) }
{
    let mut closed = 0usize;
    for place in (0..before.len()).rev() {
        let located = before[place];
        if let Some(sign) = opened_by(brackets, located.lexeme) {
            if closed == 0 {
                return Some(Hint::Core(CoreHint::Open(sign, located.place.line)));
            }
            closed -= 1;
        } else if closed_by(brackets, located.lexeme) {
            closed += 1;
        }
    }
    None
}

/// Returns that hint, if it applies.
pub fn last_open_if<'t>(
    applies: bool,
    brackets: Brackets,
    before: &[Located<'_>],
) -> Option<Hint<'t>>
    ensures { words_of result
        ≡ open_row applies (last_open brackets (map located_of before.now)) }
{
    if applies {
        last_open(brackets, before)
    } else {
        None
    }
}
