// What a token joins two operands to.

ghost use Rattle.std.specs.Prelude.{◌≡◌, option_map};
ghost use Rattle.lrc_named_expression.specs.Link.{link_of, link_of_sign, link_of_keyword};
ghost use Rattle.lrc_named_expression.specs.Seen.{link_seen};
ghost use Rattle.lrc_named_tokens.specs.View.{token_of};

use lrc_named_tokens::token::{Keyword, Sign, Token};
use lrc_program::Operator;

/// What a token joins two operands to.
#[derive(Clone, Copy)]
pub enum Link {
    /// Two factors, to a term.
    Factors(Operator),
    /// Two terms, to a sum.
    Terms(Operator),
    /// Two sums, which it compares.
    Sums(Operator),
    /// Tests, all of which must hold.
    AllHold,
    /// Tests, one of which must hold.
    OneHolds,
}

/// Returns what this token joins two operands to, or none if it joins none.
pub fn link_of(token: Token<'_>) -> Option<Link>
    ensures { option_map link_seen result ≡ link_of (token_of token.entry) }
{
    match token {
        Token::Sign(sign) => link_of_sign(sign),
        Token::Keyword(keyword) => link_of_keyword(keyword),
        Token::Number(_) | Token::Name(_) | Token::End => None,
    }
}

fn link_of_sign(sign: Sign) -> Option<Link>
    ensures { option_map link_seen result ≡ link_of_sign sign }
{
    match sign {
        Sign::Star => Some(Link::Factors(Operator::Multiply)),
        Sign::Slash => Some(Link::Factors(Operator::Divide)),
        Sign::Percent => Some(Link::Factors(Operator::Remainder)),
        Sign::Plus => Some(Link::Terms(Operator::Add)),
        Sign::Minus => Some(Link::Terms(Operator::Subtract)),
        Sign::Equal => Some(Link::Sums(Operator::Equal)),
        Sign::NotEqual => Some(Link::Sums(Operator::NotEqual)),
        Sign::Less => Some(Link::Sums(Operator::Less)),
        Sign::LessOrEqual => Some(Link::Sums(Operator::LessOrEqual)),
        Sign::Greater => Some(Link::Sums(Operator::Greater)),
        Sign::GreaterOrEqual => Some(Link::Sums(Operator::GreaterOrEqual)),
        _ => None,
    }
}

fn link_of_keyword(keyword: Keyword) -> Option<Link>
    ensures { option_map link_seen result ≡ link_of_keyword keyword }
{
    match keyword {
        Keyword::And => Some(Link::AllHold),
        Keyword::Or => Some(Link::OneHolds),
        _ => None,
    }
}
