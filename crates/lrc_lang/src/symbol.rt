// Symbols: what the grammar sees of tokens.

ghost use Rattle.std.specs.Prelude.{◌≡◌};
ghost use Rattle.lrc_lang.specs.Symbol.{symbol_of_sign};
ghost use Rattle.lrc_lang.specs.Parser.Seen.{symbol_seen};

use crate::token::{Keyword, Sign};
use lrc_program::Operator;

/// A token as the grammar sees it.
#[derive(Clone, Copy)]
pub enum Symbol {
    Number(u64),
    /// A private name, by its number.
    Name(u8),
    /// An operator: a sign that joins two operands.
    Operator(Operator),
    Keyword(Keyword),
    /// Any other sign.
    Sign(Sign),
    /// The end of the text.
    End,
}

/// Returns the symbol that the grammar sees for a sign.
pub fn symbol_of_sign(sign: Sign) -> Symbol
    ensures { symbol_seen result ≡ symbol_of_sign sign }
{
    match sign {
        Sign::Plus => Symbol::Operator(Operator::Add),
        Sign::Minus => Symbol::Operator(Operator::Subtract),
        Sign::Star => Symbol::Operator(Operator::Multiply),
        Sign::Slash => Symbol::Operator(Operator::Divide),
        Sign::Percent => Symbol::Operator(Operator::Remainder),
        Sign::Equal => Symbol::Operator(Operator::Equal),
        Sign::NotEqual => Symbol::Operator(Operator::NotEqual),
        Sign::Less => Symbol::Operator(Operator::Less),
        Sign::LessOrEqual => Symbol::Operator(Operator::LessOrEqual),
        Sign::Greater => Symbol::Operator(Operator::Greater),
        Sign::GreaterOrEqual => Symbol::Operator(Operator::GreaterOrEqual),
        other => Symbol::Sign(other),
    }
}
