// What the limits count, over the tokens so far.

ghost use Rattle.std.specs.Prelude.{◌≡◌, ◌+◌, ◌<◌, ◌≤◌, [], map, length, vec_len, OnOk, IfErr};
ghost use Rattle.lrc_lang.specs.Symbol.{is_among, number_of, symbol_of};
ghost use Rattle.lrc_lang.specs.declared.fault.FaultKind.TheVariants.{TooDeep, OverLimit};
ghost use Rattle.lrc_lang.specs.Parser.Seen.{symbol_seen};
ghost use Rattle.lrc_lang.specs.Token.{name, sign};
ghost use Rattle.lrc_lang.specs.Parser.View.{token_of};

use crate::fault::FaultKind;
use crate::symbol::{Symbol, symbol_of_sign};
use crate::token::{Keyword, Sign, Token};
use std::alloc::Global;

/// How many different names a text may have.
const MOST_NAMES: usize = 32;

/// How many `{` and `(` may be open at once.
const MOST_OPEN: u32 = 32;

/// How many operators an expression may have.
const MOST_OPERATORS: u32 = 256;

/// The counts that the limits bound, over the tokens so far.
#[derive(Drop)]
pub struct Limits<'t> {
    /// The different names, in the order of their first occurrence.
    names: Vec<&'t [u8]>,
    /// How many `{` and `(` are open.
    nested: u32,
    /// How many operators have come since the last symbol that cannot be in an expression.
    operators: u32,
    ghost few_names: { vec_len names ≤ 32 },
}

// The number of a name: how many others came before it.
fn number_of(names: &[&[u8]], name: &[u8]) -> usize
    ensures value { result ≡ number_of (map (λ other. other.now) names.now) name.now }
    ensures bound { result ≤ length names.now }
{
    names
        .iter()
        .position(|other| *other == name)
        .unwrap_or(names.len())
}

// Whether a name is among these.
fn is_among(names: &[&[u8]], name: &[u8]) -> bool
    ensures { result ≡ is_among (map (λ other. other.now) names.now) name.now }
{
    names.iter().any(|other| *other == name)
}

impl<'t> Limits<'t> {
    ghost use Rattle.lrc_lang.specs.Parser.SeenLimits.{names_seen, TakesToken};

    /// Returns the counts before the first token.
    pub fn empty(alloc: Global) -> Self
        ensures names { names_seen result ≡ [] }
        ensures nested { result.nested ≡ 0 }
        ensures operators { result.operators ≡ 0 }
    {
        Limits {
            names: Vec::new(alloc),
            nested: 0,
            operators: 0,
        }
    }

    /// Returns the symbol that the grammar sees for a token.
    pub fn symbol(&self, token: Token<'t>) -> Symbol
        ensures { symbol_seen result ≡ symbol_of (names_seen self.now) (token_of token.entry) }
    {
        match token {
            Token::Number(value) => Symbol::Number(value),
            Token::Name(bytes) => Symbol::Name(number_of(&self.names, bytes) as u8),
            Token::Keyword(keyword) => Symbol::Keyword(keyword),
            Token::Sign(mark) => symbol_of_sign(mark),
            Token::End => Symbol::End,
        }
    }

    /// Counts one more token. It fails if the token exceeds a limit, or if memory runs out.
    pub fn take(&mut self, token: Token<'t>) -> Result<(), FaultKind>
        ensures { TakesToken result self.old (token_of token.entry) self.new }
    {
        match token {
            Token::Number(_) => Ok(()),
            Token::Name(bytes) => self.take_name(bytes),
            Token::Keyword(Keyword::Me | Keyword::Nodes) => Ok(()),
            Token::Sign(mark) => self.take_sign(mark),
            Token::Keyword(_) | Token::End => {
                self.operators = 0;
                Ok(())
            }
        }
    }

    fn take_name(&mut self, bytes: &'t [u8]) -> Result<(), FaultKind>
        ensures { TakesToken result self.old (name bytes.now) self.new }
    {
        if is_among(&self.names, bytes) {
            return Ok(());
        }
        if self.names.len() >= MOST_NAMES {
            return Err(FaultKind::TooManyNames);
        }
        self.names.push(bytes)?;
        Ok(())
    }

    fn take_sign(&mut self, mark: Sign) -> Result<(), FaultKind>
        ensures { TakesToken result self.old (sign mark) self.new }
    {
        match mark {
            Sign::OpenParenthesis => self.nest()?,
            Sign::CloseParenthesis => self.nested = self.nested.saturating_sub(1),
            Sign::OpenBrace => {
                self.nest()?;
                self.operators = 0;
            }
            Sign::CloseBrace => {
                self.nested = self.nested.saturating_sub(1);
                self.operators = 0;
            }
            Sign::Semicolon | Sign::Assign | Sign::OpenBracket | Sign::CloseBracket => {
                self.operators = 0;
            }
            Sign::Plus
            | Sign::Minus
            | Sign::Star
            | Sign::Slash
            | Sign::Percent
            | Sign::Equal
            | Sign::NotEqual
            | Sign::Less
            | Sign::LessOrEqual
            | Sign::Greater
            | Sign::GreaterOrEqual => self.join()?,
        }
        Ok(())
    }

    // One more is open.
    fn nest(&mut self) -> Result<(), FaultKind>
        ensures nested { OnOk result ((self.old.nested < 32)
            × (self.new.nested ≡ self.old.nested + 1)) }
        ensures full { IfErr result (λ kind. (kind ≡ TooDeep) × (32 ≤ self.old.nested)) }
        ensures others { (self.new.names ≡ self.old.names)
            × (self.new.operators ≡ self.old.operators) }
    {
        if self.nested >= MOST_OPEN {
            return Err(FaultKind::TooDeep);
        }
        self.nested += 1;
        Ok(())
    }

    // The expression has one more operator.
    fn join(&mut self) -> Result<(), FaultKind>
        ensures operators { OnOk result
            ((self.old.operators < 256) × (self.new.operators ≡ self.old.operators + 1)) }
        ensures full { IfErr result (λ kind. (kind ≡ OverLimit) × (256 ≤ self.old.operators)) }
        ensures others { (self.new.names ≡ self.old.names) × (self.new.nested ≡ self.old.nested) }
    {
        if self.operators >= MOST_OPERATORS {
            return Err(FaultKind::OverLimit);
        }
        self.operators += 1;
        Ok(())
    }
}
