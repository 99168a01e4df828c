// What is told of a named program whose core is over a limit.

ghost use Rattle.std.specs.Prelude.{◌≡◌, ◌++◌, get_or, map, IfOk, MatchOption, OnOk};
ghost use Rattle.std.specs.Option.{option_map};
ghost use Rattle.lrc_text.specs.Parts.{whole_text};
ghost use Rattle.lrc_named_tokens.specs.View.{located_of};
ghost use Rattle.lrc_named_lint_core.specs.Told.{IsFaulty, core_long_lines, excess_lines, hint_line, limit_words, nowhere, told_of};

use lrc_lang::fault::FaultKind;
use lrc_lint_fault::{Linted, no_program};
use lrc_lint_lines::{push_excerpt, push_fault, push_place};
use lrc_named_hints::fault::spelling;
use lrc_named_limits::excess::{Excess, Limit};
use lrc_named_lint::push_token_fault;
use lrc_named_tokens::token::{Lexeme, Located, Place, Token};
use lrc_named_written::Written;
use std::alloc::{AllocError, Global};

/// Reports why a named program that has these tokens, and no fault but in its core, has no core as a text; or returns
/// none if it has one. The report names the file as it was given.
pub fn lint_core_fault(
    alloc: Global,
    file: &[u8],
    text: &[u8],
    tokens: &[Located<'_>],
    written: &Written<'_>,
) -> Result<Option<Linted>, AllocError>
    ensures told { IfOk result (λ told. option_map (λ linted. whole_text linted.parts.items) told
        ≡ told_of file.now text.now (map located_of tokens.now) written.now) }
    ensures status { IfOk result IsFaulty }
{
    match written {
        Written::Core(..) => Ok(None),
        Written::Over(excess) => Ok(Some(over(alloc, file, text, tokens, *excess)?)),
        Written::TooLong => Ok(Some(core_too_long(alloc, file)?)),
    }
}

fn over(
    alloc: Global,
    file: &[u8],
    text: &[u8],
    tokens: &[Located<'_>],
    excess: Excess,
) -> Result<Linted, AllocError>
    ensures parts { IfOk result (λ linted. whole_text linted.parts.items
        ≡ excess_lines file.now text.now (get_or (map located_of tokens.now) excess.at nowhere)
        excess.limit) }
    ensures status { IfOk result (λ linted. linted.status ≡ 1) }
{
    let mut out = Vec::new(alloc);
    let found = token_at(tokens, excess.at as usize);
    push_over(&mut out, alloc, file, text, found, excess.limit)?;
    no_program(alloc, out)
}

// The token at this place.
fn token_at<'t>(tokens: &[Located<'t>], place: usize) -> Located<'t>
    ensures { located_of result ≡ get_or (map located_of tokens.now) place nowhere }
{
    if place < tokens.len() {
        tokens[place]
    } else {
        Located {
            place: Place {
                line: 0,
                column: 0,
                offset: 0,
            },
            lexeme: Lexeme::Token(Token::End),
        }
    }
}

fn push_over(
    out: &mut Vec<u8>,
    alloc: Global,
    file: &[u8],
    text: &[u8],
    found: Located<'_>,
    limit: Limit,
) -> Result<(), AllocError>
    ensures { OnOk result (out.new.items ≡ out.old.items
        ++ excess_lines file.now text.now (located_of found.entry) limit) }
{
    let place = found.place;
    push_place(out, file, u64::from(place.line), u64::from(place.column))?;
    push_token_fault(out, b"over a limit", spelling(text, found))?;
    push_excerpt(out, alloc, text, place.line as usize, place.column as usize)?;
    push_line(out, words_of(limit))
}

fn push_line(out: &mut Vec<u8>, words: &[u8]) -> Result<(), AllocError>
    ensures { OnOk result (out.new.items ≡ out.old.items ++ hint_line words.now) }
{
    out.extend_from_slice(b"  ")?;
    out.extend_from_slice(words)?;
    out.extend_from_slice(b"\n")
}

// The words of the hint on what is over a limit.
fn words_of(limit: Limit) -> &'static [u8]
    ensures { result.now ≡ limit_words limit }
{
    match limit {
        Limit::Operators => b"an expression of its core has more than 256 operators",
        Limit::Open => b"its core has more than 32 open `{` and `(`",
        Limit::Names => b"its core has more than 32 names: make it two statements",
    }
}

fn core_too_long(alloc: Global, file: &[u8]) -> Result<Linted, AllocError>
    ensures parts { IfOk result (λ linted. whole_text linted.parts.items
        ≡ core_long_lines file.now) }
    ensures status { IfOk result (λ linted. linted.status ≡ 1) }
{
    let mut out = Vec::new(alloc);
    push_too_long(&mut out, file)?;
    no_program(alloc, out)
}

fn push_too_long(out: &mut Vec<u8>, file: &[u8]) -> Result<(), AllocError>
    ensures { OnOk result (out.new.items ≡ out.old.items ++ core_long_lines file.now) }
{
    push_place(out, file, 1, 1)?;
    push_fault(out, FaultKind::TooLong)?;
    push_line(out, b"its core has at most 65536 bytes")
}
