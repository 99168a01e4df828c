// Kinds of tokens.

ghost use Rattle.std.specs.Prelude.{◌≡◌};
ghost use Rattle.lrc_lang.specs.Kind.{all_kinds, kind_of};
ghost use Rattle.lrc_lang.specs.Parser.View.{token_of};

use crate::token::{Keyword, Sign, Token};

/// A kind of token, as far as the grammar tells tokens apart.
#[derive(Clone, Copy)]
pub enum Kind {
    /// Any private name.
    Name,
    /// Any number.
    Number,
    Keyword(Keyword),
    Sign(Sign),
    /// The end of the text.
    End,
}

/// All kinds, in the order in which they are listed.
const KINDS: &[Kind] = &[
    Kind::Name,
    Kind::Number,
    Kind::Keyword(Keyword::Words),
    Kind::Keyword(Keyword::Locks),
    Kind::Keyword(Keyword::Acquire),
    Kind::Keyword(Keyword::Release),
    Kind::Keyword(Keyword::Barrier),
    Kind::Keyword(Keyword::Print),
    Kind::Keyword(Keyword::If),
    Kind::Keyword(Keyword::Else),
    Kind::Keyword(Keyword::While),
    Kind::Keyword(Keyword::Me),
    Kind::Keyword(Keyword::Nodes),
    Kind::Sign(Sign::Semicolon),
    Kind::Sign(Sign::Assign),
    Kind::Sign(Sign::OpenBracket),
    Kind::Sign(Sign::CloseBracket),
    Kind::Sign(Sign::OpenBrace),
    Kind::Sign(Sign::CloseBrace),
    Kind::Sign(Sign::OpenParenthesis),
    Kind::Sign(Sign::CloseParenthesis),
    Kind::Sign(Sign::Plus),
    Kind::Sign(Sign::Minus),
    Kind::Sign(Sign::Star),
    Kind::Sign(Sign::Slash),
    Kind::Sign(Sign::Percent),
    Kind::Sign(Sign::Equal),
    Kind::Sign(Sign::NotEqual),
    Kind::Sign(Sign::Less),
    Kind::Sign(Sign::LessOrEqual),
    Kind::Sign(Sign::Greater),
    Kind::Sign(Sign::GreaterOrEqual),
    Kind::End,
];

/// Returns all kinds, in the order in which they are listed.
pub fn all_kinds() -> &'static [Kind]
    ensures { result.now ≡ all_kinds }
{
    KINDS
}

/// Returns the kind of a token.
pub fn kind_of(token: Token<'_>) -> Kind
    ensures { result ≡ kind_of (token_of token.entry) }
{
    match token {
        Token::Number(_) => Kind::Number,
        Token::Name(_) => Kind::Name,
        Token::Keyword(keyword) => Kind::Keyword(keyword),
        Token::Sign(sign) => Kind::Sign(sign),
        Token::End => Kind::End,
    }
}
