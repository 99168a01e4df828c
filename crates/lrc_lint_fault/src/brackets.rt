// Brackets that are open.

ghost use Rattle.std.specs.Prelude.{◌≡◌, map};
ghost use Rattle.std.specs.Option.{option_map};
ghost use Rattle.lrc_lang.specs.Parser.Located.{located_of};
ghost use Rattle.lrc_lang.specs.Parser.View.{lexeme_of};
ghost use Rattle.lrc_lint_fault.specs.Hint.{words_of};
ghost use Rattle.lrc_lint_fault.specs.HintTable.{closes, last_open, open_row, opened_words, opens};

use crate::hint::Hint;
use lrc_lang::positions::Located;
use lrc_lang::token::{Lexeme, Sign, Token};

/// Which brackets are looked at.
#[derive(Clone, Copy)]
pub enum Brackets {
    /// Those around blocks.
    Braces,
    /// Those in expressions: `(`, and `[`.
    InExpressions,
}

impl Brackets {
    // The opening bracket that this is.
    fn opened_by(self, lexeme: Lexeme<'_>) -> Option<Sign>
        ensures { result ≡ opens self (lexeme_of lexeme.entry) }
    {
        match (self, lexeme) {
            (Brackets::Braces, Lexeme::Token(Token::Sign(Sign::OpenBrace))) => {
                Some(Sign::OpenBrace)
            }
            (Brackets::InExpressions, Lexeme::Token(Token::Sign(Sign::OpenParenthesis))) => {
                Some(Sign::OpenParenthesis)
            }
            (Brackets::InExpressions, Lexeme::Token(Token::Sign(Sign::OpenBracket))) => {
                Some(Sign::OpenBracket)
            }
            _ => None,
        }
    }

    // Whether this is a closing bracket.
    fn closed_by(self, lexeme: Lexeme<'_>) -> bool
        ensures { result ≡ closes self (lexeme_of lexeme.entry) }
    {
        match self {
            Brackets::Braces => matches!(lexeme, Lexeme::Token(Token::Sign(Sign::CloseBrace))),
            Brackets::InExpressions => matches!(
                lexeme,
                Lexeme::Token(Token::Sign(Sign::CloseParenthesis | Sign::CloseBracket))
            ),
        }
    }

    /// Returns the hint that tells of the last of these brackets that is open behind some tokens, if one is.
    pub fn last_open<'t>(self, before: &[Located<'_>]) -> Option<Hint<'t>>
        ensures { words_of result
            ≡ option_map opened_words (last_open self (map located_of before.now)) }
    {
        let mut closed = 0usize;
        for place in (0..before.len()).rev() {
            let located = before[place];
            if let Some(sign) = self.opened_by(located.lexeme) {
                if closed == 0 {
                    return Some(Hint::Open(sign, located.line));
                }
                closed -= 1;
            } else if self.closed_by(located.lexeme) {
                closed += 1;
            }
        }
        None
    }

    /// Returns that hint, if it applies.
    pub fn last_open_if<'t>(self, applies: bool, before: &[Located<'_>]) -> Option<Hint<'t>>
        ensures { words_of result
            ≡ open_row applies (last_open self (map located_of before.now)) }
    {
        if applies {
            self.last_open(before)
        } else {
            None
        }
    }
}
