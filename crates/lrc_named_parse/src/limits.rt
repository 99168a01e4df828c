// What the limits count, over the tokens so far.

ghost use Rattle.std.specs.Prelude.{◌≡◌, ◌↔◌, ◌+◌, ◌-◌, ◌<◌, ◌≤◌, IsTrue};
ghost use Rattle.lrc_named_parse.specs.Counts.{IsOperator, IsOpening, apart, open_with, counted_with, operators_in};
ghost use Rattle.lrc_named_parse.specs.Counts.{apart_with, sign_within, keyword_within};
ghost use Rattle.lrc_named_parse.specs.SeenLimits.{counted_seen, brackets_in, TakesToken};
ghost use Rattle.lrc_named_tokens.specs.View.{token_of};

use lrc_lang::fault::FaultKind;
use lrc_named_tokens::token::{Keyword, Sign, Token};

/// How many `{`, `(` and `[` may be open.
const MOST_OPEN: u32 = 32;

/// How many operators an expression may have.
const MOST_OPERATORS: u32 = 256;

/// Whether the next token stands in an expression that is no part of one.
#[derive(Clone, Copy)]
enum Counted {
    /// It does not.
    Apart,
    /// It does: how many brackets are open within the expression, and how many operators of it have come.
    Within(u32, u32),
}

/// The counts that the limits bound.
#[derive(Clone, Copy)]
pub struct Limits {
    /// How many `{`, `(` and `[` are open.
    nested: u32,
    counted: Counted,
    ghost shallow: { nested ≤ 32 },
    ghost few: { operators_in (counted_seen counted) ≤ 256 },
    ghost within: { brackets_in (counted_seen counted) ≤ nested },
}

// Whether a token opens a bracket.
fn is_opening(token: Token<'_>) -> bool
    ensures { IsTrue result ↔ IsOpening (token_of token.entry) }
{
    match token {
        Token::Sign(Sign::OpenBrace | Sign::OpenParenthesis | Sign::OpenBracket) => true,
        _ => false,
    }
}

// Whether a token is an operator.
fn is_operator(token: Token<'_>) -> bool
    ensures { IsTrue result ↔ IsOperator (token_of token.entry) }
{
    match token {
        Token::Sign(
            Sign::Plus
            | Sign::Minus
            | Sign::Star
            | Sign::Slash
            | Sign::Percent
            | Sign::Equal
            | Sign::NotEqual
            | Sign::Less
            | Sign::LessOrEqual
            | Sign::Greater
            | Sign::GreaterOrEqual,
        ) => true,
        Token::Keyword(Keyword::And | Keyword::Or | Keyword::Not) => true,
        _ => false,
    }
}

// How many brackets are open, once this token has come too.
fn open_with(nested: u32, token: Token<'_>) -> u32
    requires { nested ≤ 32 }
    ensures { result ≡ open_with nested (token_of token.entry) }
{
    match token {
        Token::Sign(Sign::OpenBrace | Sign::OpenParenthesis | Sign::OpenBracket) => nested + 1,
        Token::Sign(Sign::CloseBrace | Sign::CloseParenthesis | Sign::CloseBracket) => {
            nested.saturating_sub(1)
        }
        _ => nested,
    }
}

// Once this token has come outside of expressions.
fn apart_with(token: Token<'_>) -> Counted
    ensures { counted_seen result ≡ apart_with (token_of token.entry) }
{
    match token {
        Token::Sign(Sign::Assign | Sign::AddAssign | Sign::SubtractAssign | Sign::OpenBracket) => {
            Counted::Within(0, 0)
        }
        Token::Keyword(
            Keyword::Print | Keyword::Assert | Keyword::If | Keyword::While | Keyword::In,
        ) => Counted::Within(0, 0),
        _ => Counted::Apart,
    }
}

// Once this sign has come within an expression.
fn sign_within(brackets: u32, operators: u32, sign: Sign) -> Counted
    requires brackets { brackets ≤ 32 }
    requires operators { operators ≤ 256 }
    ensures { counted_seen result ≡ sign_within brackets operators sign }
{
    match sign {
        Sign::OpenParenthesis | Sign::OpenBracket => Counted::Within(brackets + 1, operators),
        Sign::CloseParenthesis | Sign::CloseBracket => {
            if brackets == 0 {
                Counted::Apart
            } else {
                Counted::Within(brackets - 1, operators)
            }
        }
        Sign::Comma => {
            if brackets == 0 {
                Counted::Within(0, 0)
            } else {
                Counted::Within(brackets, operators)
            }
        }
        Sign::Range => Counted::Within(0, 0),
        Sign::Semicolon | Sign::OpenBrace | Sign::CloseBrace => Counted::Apart,
        Sign::Plus
        | Sign::Minus
        | Sign::Star
        | Sign::Slash
        | Sign::Percent
        | Sign::Equal
        | Sign::NotEqual
        | Sign::Less
        | Sign::LessOrEqual
        | Sign::Greater
        | Sign::GreaterOrEqual => Counted::Within(brackets, operators + 1),
        Sign::Assign | Sign::AddAssign | Sign::SubtractAssign => {
            Counted::Within(brackets, operators)
        }
    }
}

// Once this keyword has come within an expression.
fn keyword_within(brackets: u32, operators: u32, keyword: Keyword) -> Counted
    requires { operators ≤ 256 }
    ensures { counted_seen result ≡ keyword_within brackets operators keyword }
{
    match keyword {
        Keyword::And | Keyword::Or | Keyword::Not => Counted::Within(brackets, operators + 1),
        _ => Counted::Within(brackets, operators),
    }
}

impl Counted {
    // How many operators of the expression have come.
    fn operators(self) -> u32
        ensures { result ≡ operators_in (counted_seen self) }
    {
        match self {
            Counted::Apart => 0,
            Counted::Within(_, operators) => operators,
        }
    }

    // Once this token has come too.
    fn with(self, token: Token<'_>) -> Counted
        requires brackets { brackets_in (counted_seen self) ≤ 32 }
        requires operators { operators_in (counted_seen self) ≤ 256 }
        ensures { counted_seen result ≡ counted_with (counted_seen self) (token_of token.entry) }
    {
        match self {
            Counted::Apart => apart_with(token),
            Counted::Within(brackets, operators) => match token {
                Token::Sign(sign) => sign_within(brackets, operators, sign),
                Token::Keyword(keyword) => keyword_within(brackets, operators, keyword),
                _ => self,
            },
        }
    }
}

impl Limits {
    /// Returns the counts before the first token.
    pub fn empty() -> Self
        ensures nested { result.nested ≡ 0 }
        ensures counted { counted_seen result.counted ≡ apart }
    {
        Limits {
            nested: 0,
            counted: Counted::Apart,
        }
    }

    /// Counts a token. It fails if the token passes a limit.
    pub fn take(&mut self, token: Token<'_>) -> Result<(), FaultKind>
        ensures { TakesToken result self.old.nested (counted_seen self.old.counted) (token_of token.entry)
            self.new.nested (counted_seen self.new.counted) }
    {
        if is_opening(token) && self.nested >= MOST_OPEN {
            return Err(FaultKind::TooDeep);
        }
        if is_operator(token) && self.counted.operators() >= MOST_OPERATORS {
            return Err(FaultKind::OverLimit);
        }
        *self = Limits {
            nested: open_with(self.nested, token),
            counted: self.counted.with(token),
        };
        Ok(())
    }
}
