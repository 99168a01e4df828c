// What the warnings of a program are made of: its tokens, where these stand, and its private names.

ghost use Rattle.std.specs.Prelude.{◌≡◌, IfOk, OnOk, map};
ghost use Rattle.lrc_lang.specs.Counts.{names_of};
ghost use Rattle.lrc_lang.specs.declared.token.Token.TheVariants.{Name};
ghost use Rattle.lrc_lang.specs.Parser.Located.{located_of};
ghost use Rattle.lrc_lang.specs.Parser.View.{lexeme_of, token_of};
ghost use Rattle.lrc_lang.specs.Symbol.{is_among, names_with};
ghost use Rattle.lrc_lint.specs.Linted.{spot_of, spots_of, token_in, tokens_of};

use lrc_lang::positions::Located;
use lrc_lang::token::{Lexeme, Token};
use lrc_lint_warnings::warning::Spot;
use std::alloc::{AllocError, Global};

/// Returns the tokens of a program.
pub fn tokens_of<'t>(alloc: Global, all: &[Located<'t>]) -> Result<Vec<Token<'t>>, AllocError>
    ensures { IfOk result (λ tokens. map token_of tokens.items
        ≡ tokens_of (map located_of all.now)) }
{
    let mut tokens = Vec::new(alloc);
    for found in all {
        tokens.push(token_in(found.lexeme))?;
    }
    Ok(tokens)
}

// All that stands in a program are tokens.
fn token_in<'t>(lexeme: Lexeme<'t>) -> Token<'t>
    ensures { token_of result ≡ token_in (lexeme_of lexeme.entry) }
{
    match lexeme {
        Lexeme::Token(token) => token,
        Lexeme::BadByte | Lexeme::BadNumber => Token::End,
    }
}

/// Returns the lines and columns of the tokens.
pub fn spots_of(alloc: Global, all: &[Located<'_>]) -> Result<Vec<Spot>, AllocError>
    ensures { IfOk result (λ spots. spots.items ≡ spots_of (map located_of all.now)) }
{
    let mut spots = Vec::new(alloc);
    for found in all {
        spots.push(Spot {
            line: found.line,
            column: found.column,
        })?;
    }
    Ok(spots)
}

/// Returns the distinct private names, in the order of their first use.
pub fn names_of<'t>(alloc: Global, tokens: &[Token<'t>]) -> Result<Vec<&'t [u8]>, AllocError>
    ensures { IfOk result (λ names. map (λ name. name.now) names.items
        ≡ names_of (map token_of tokens.now)) }
{
    let mut names = Vec::new(alloc);
    for token in tokens {
        keep(&mut names, *token)?;
    }
    Ok(names)
}

// Keeps the name that a token is, unless it is among these.
fn keep<'t>(names: &mut Vec<&'t [u8]>, token: Token<'t>) -> Result<(), AllocError>
    ensures { OnOk result (map (λ name. name.now) names.new.items
        ≡ names_with (map (λ name. name.now) names.old.items) (token_of token.entry)) }
{
    match token {
        Token::Name(bytes) => keep_name(names, bytes),
        _ => Ok(()),
    }
}

fn keep_name<'t>(names: &mut Vec<&'t [u8]>, bytes: &'t [u8]) -> Result<(), AllocError>
    ensures { OnOk result (map (λ name. name.now) names.new.items
        ≡ names_with (map (λ name. name.now) names.old.items) (token_of (Name bytes.entry))) }
{
    if is_among(names, bytes) {
        return Ok(());
    }
    names.push(bytes)?;
    Ok(())
}

// Whether a name is among these.
fn is_among(names: &[&[u8]], name: &[u8]) -> bool
    ensures { result ≡ is_among (map (λ other. other.now) names.now) name.now }
{
    names.iter().any(|other| *other == name)
}
