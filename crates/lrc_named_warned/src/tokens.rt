// Tokens, and where they stand.

ghost use Rattle.std.specs.Prelude.{◌≡◌, ◌<◌, ◌^◌, IfOk, length, map};
ghost use Rattle.lrc_lang.specs.Parser.Located.{located_of as core_located_of};
ghost use Rattle.lrc_lang.specs.Parser.View.{lexeme_of, token_of};
ghost use Rattle.lrc_lint.specs.Linted.{token_in, tokens_of};
ghost use Rattle.lrc_lint_warned.specs.Found.{statement_seen};
ghost use Rattle.lrc_named_tokens.specs.View.{located_of};
ghost use Rattle.lrc_named.specs.Lines.{lines_of};
ghost use Rattle.lrc_named_warned.specs.Places.{begins_in, numbered, spots_of};

use lrc_lang::positions::Located as CoreLocated;
use lrc_lang::token::{Lexeme, Token};
use lrc_lint_warned::found::StatementAt;
use lrc_lint_warnings::warning::Spot;
use lrc_named_tokens::token::Located;
use std::alloc::{AllocError, Global};

/// Returns the tokens of a core.
pub(crate) fn tokens_of<'t>(
    alloc: Global,
    all: &[CoreLocated<'t>],
) -> Result<Vec<Token<'t>>, AllocError>
    ensures { IfOk result (λ tokens. map token_of tokens.items
        ≡ tokens_of (map core_located_of all.now)) }
{
    let mut tokens = Vec::new(alloc);
    for found in all {
        tokens.push(token_in(found.lexeme))?;
    }
    Ok(tokens)
}

// All that stands in a program are tokens.
fn token_in<'t>(lexeme: Lexeme<'t>) -> Token<'t>
    ensures { token_of result ≡ token_in (lexeme_of lexeme.entry) }
{
    match lexeme {
        Lexeme::Token(token) => token,
        Lexeme::BadByte | Lexeme::BadNumber => Token::End,
    }
}

/// Returns places that say which token stands there: its number is the column.
pub(crate) fn numbered(alloc: Global, tokens: &[Token<'_>]) -> Result<Vec<Spot>, AllocError>
    requires { length tokens.now < 2 ^ 31 }
    ensures { IfOk result (λ spots. spots.items ≡ numbered (map token_of tokens.now)) }
{
    let mut spots = Vec::new(alloc);
    for i in 0..tokens.len() {
        spots.push(Spot {
            line: 0,
            column: i as u32,
        })?;
    }
    Ok(spots)
}

/// Returns with which token each statement of a core begins.
pub(crate) fn begins_in(
    alloc: Global,
    statements: &[StatementAt<'_>],
) -> Result<Vec<u32>, AllocError>
    ensures { IfOk result (λ begins. begins.items ≡ begins_in (map statement_seen statements.now)) }
{
    let mut begins = Vec::new(alloc);
    for statement in statements {
        begins.push(statement.at)?;
    }
    Ok(begins)
}

/// Returns the line and the column of each token of a named program.
pub(crate) fn spots_of(alloc: Global, tokens: &[Located<'_>]) -> Result<Vec<Spot>, AllocError>
    ensures { IfOk result (λ spots. spots.items ≡ spots_of (map located_of tokens.now)) }
{
    let mut spots = Vec::new(alloc);
    for token in tokens {
        spots.push(Spot {
            line: token.place.line,
            column: token.place.column,
        })?;
    }
    Ok(spots)
}

/// Returns the line of each token of a named program.
pub(crate) fn lines_of(alloc: Global, tokens: &[Located<'_>]) -> Result<Vec<u32>, AllocError>
    ensures { IfOk result (λ lines. lines.items ≡ lines_of (map located_of tokens.now)) }
{
    let mut lines = Vec::new(alloc);
    for token in tokens {
        lines.push(token.place.line)?;
    }
    Ok(lines)
}
