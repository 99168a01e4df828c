// Kinds of tokens.

ghost use Rattle.std.specs.Prelude.{◌≡◌};
ghost use Rattle.lrc_named_may.specs.Kind.{all_kinds, token_of_kind};
ghost use Rattle.lrc_named_tokens.specs.View.{token_of};

use lrc_named_tokens::token::{Keyword, Sign, Token};

/// A kind of token, as far as the grammar tells tokens apart.
#[derive(Clone, Copy)]
pub enum Kind {
    /// Any name.
    Name,
    /// Any number.
    Number,
    Keyword(Keyword),
    Sign(Sign),
    /// The end of the text.
    End,
}

/// All kinds, in the order in which they are listed.
const KINDS: &[Kind] = &[
    Kind::Name,
    Kind::Number,
    Kind::Keyword(Keyword::Words),
    Kind::Keyword(Keyword::Locks),
    Kind::Keyword(Keyword::Acquire),
    Kind::Keyword(Keyword::Release),
    Kind::Keyword(Keyword::Barrier),
    Kind::Keyword(Keyword::Print),
    Kind::Keyword(Keyword::If),
    Kind::Keyword(Keyword::Else),
    Kind::Keyword(Keyword::While),
    Kind::Keyword(Keyword::Me),
    Kind::Keyword(Keyword::Nodes),
    Kind::Keyword(Keyword::Const),
    Kind::Keyword(Keyword::Shared),
    Kind::Keyword(Keyword::Lock),
    Kind::Keyword(Keyword::Fn),
    Kind::Keyword(Keyword::For),
    Kind::Keyword(Keyword::In),
    Kind::Keyword(Keyword::With),
    Kind::Keyword(Keyword::Assert),
    Kind::Keyword(Keyword::And),
    Kind::Keyword(Keyword::Or),
    Kind::Keyword(Keyword::Not),
    Kind::Sign(Sign::Semicolon),
    Kind::Sign(Sign::Assign),
    Kind::Sign(Sign::OpenBracket),
    Kind::Sign(Sign::CloseBracket),
    Kind::Sign(Sign::OpenBrace),
    Kind::Sign(Sign::CloseBrace),
    Kind::Sign(Sign::OpenParenthesis),
    Kind::Sign(Sign::CloseParenthesis),
    Kind::Sign(Sign::Plus),
    Kind::Sign(Sign::Minus),
    Kind::Sign(Sign::Star),
    Kind::Sign(Sign::Slash),
    Kind::Sign(Sign::Percent),
    Kind::Sign(Sign::Equal),
    Kind::Sign(Sign::NotEqual),
    Kind::Sign(Sign::Less),
    Kind::Sign(Sign::LessOrEqual),
    Kind::Sign(Sign::Greater),
    Kind::Sign(Sign::GreaterOrEqual),
    Kind::Sign(Sign::Comma),
    Kind::Sign(Sign::Range),
    Kind::Sign(Sign::AddAssign),
    Kind::Sign(Sign::SubtractAssign),
    Kind::End,
];

/// Returns all kinds, in the order in which they are listed.
pub fn all_kinds() -> &'static [Kind]
    ensures { result.now ≡ all_kinds }
{
    KINDS
}

/// Returns a token of this kind.
pub fn token_of_kind(kind: Kind) -> Token<'static>
    ensures { token_of result ≡ token_of_kind kind }
{
    match kind {
        Kind::Name => Token::Name(b""),
        Kind::Number => Token::Number(1),
        Kind::Keyword(keyword) => Token::Keyword(keyword),
        Kind::Sign(sign) => Token::Sign(sign),
        Kind::End => Token::End,
    }
}
