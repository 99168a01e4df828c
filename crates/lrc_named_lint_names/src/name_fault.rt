// What is told of a named program whose names have a fault.

ghost use Rattle.std.specs.Prelude.{◌≡◌, ◌++◌, get_or, map, IfOk, OnOk, Option, List, ℕ};
ghost use Rattle.lrc_text.specs.Parts.{whole_text};
ghost use Rattle.lrc_lint_fault.specs.Hint.{words_line};
ghost use Rattle.lrc_named_tokens.specs.View.{located_of};
ghost use Rattle.lrc_named_tree.specs.View.{named_of, program_of};
ghost use Rattle.lrc_named_entries.specs.View.{entry_seen};
ghost use Rattle.lrc_named_name_hints.specs.Hint.{words_of};
ghost use Rattle.lrc_named_name_hints.specs.Hints.{IsHintOf};
ghost use Rattle.lrc_named_lint_names.specs.Told.{TellsFault, head_lines, nowhere, seen_by};

use lrc_lint_fault::{Linted, no_program};
use lrc_lint_lines::{push_excerpt, push_place};
use lrc_named_entries::entry::Entry;
use lrc_named_entries::{entries_of, first_nodes, parameters_around};
use lrc_named_expression_faults::fault::{Fault, FaultKind};
use lrc_named_hints::fault::spelling;
use lrc_named_lint::push_token_fault;
use lrc_named_name_hints::hint::{Hint, push_hint};
use lrc_named_name_hints::hint_for;
use lrc_named_name_hints::seen::Seen;
use lrc_named_tokens::token::{Lexeme, Located, Place, Token};
use lrc_named_tree::tree::{Name, NamedProgram};
use std::alloc::{AllocError, Global};

/// Reports a fault of the names of a named program that has these tokens. The report names the file as it was given. It
/// fails only if memory runs out.
pub fn lint_name_fault(
    alloc: Global,
    file: &[u8],
    text: &[u8],
    tokens: &[Located<'_>],
    program: &NamedProgram<'_>,
    fault: Fault,
) -> Result<Linted, AllocError>
    ensures parts { IfOk result (λ linted. TellsFault file.now text.now (map located_of tokens.now)
        (program_of program.now) fault (whole_text linted.parts.items)) }
    ensures status { IfOk result (λ linted. linted.status ≡ 1) }
{
    let mut out = Vec::new(alloc);
    push_name_fault(&mut out, alloc, file, text, tokens, program, fault)?;
    no_program(alloc, out)
}

fn push_name_fault(
    out: &mut Vec<u8>,
    alloc: Global,
    file: &[u8],
    text: &[u8],
    tokens: &[Located<'_>],
    program: &NamedProgram<'_>,
    fault: Fault,
) -> Result<(), AllocError>
    ensures { OnOk result ((lines : List ℕ) × (out.new.items ≡ out.old.items ++ lines)
        × TellsFault file.now text.now (map located_of tokens.now) (program_of program.now) fault lines) }
{
    let entries = entries_of(alloc, &program.declarations)?;
    let parameters = parameters_around(alloc, &program.declarations, fault.at)?;
    let counted = first_nodes(&program.declarations);
    let found = token_at(tokens, fault.at as usize);
    push_head(out, alloc, file, text, found, fault.kind)?;
    push_hint_on(out, alloc, fault, tokens, &entries, &parameters, counted)
}

// The hint on a fault, by the tokens, what is declared, the parameters around the fault, and the first `nodes`.
fn push_hint_on(
    out: &mut Vec<u8>,
    alloc: Global,
    fault: Fault,
    tokens: &[Located<'_>],
    entries: &[Entry<'_>],
    parameters: &[Name<'_>],
    counted: Option<u32>,
) -> Result<(), AllocError>
    ensures { let seen = seen_by (map located_of tokens.now) (map entry_seen entries.now)
        (map named_of parameters.now) counted fault.at in
        OnOk result ((hint : Option (List ℕ)) × IsHintOf fault.kind seen hint
        × (out.new.items ≡ out.old.items ++ words_line hint)) }
{
    let seen = seen_at(tokens, entries, parameters, counted, fault.at);
    let hint = hint_for(alloc, fault.kind, &seen)?;
    push_hint_if_any(out, hint)
}

// What the hint on a fault of a token goes by.
fn seen_at<'t>(
    tokens: &'t [Located<'t>],
    entries: &'t [Entry<'t>],
    parameters: &'t [Name<'t>],
    counted: Option<u32>,
    at: u64,
) -> Seen<'t>
    ensures tokens { result.tokens.now ≡ tokens.entry.now }
    ensures entries { result.entries.now ≡ entries.entry.now }
    ensures parameters { result.parameters.now ≡ parameters.entry.now }
    ensures counted { result.counted ≡ counted }
    ensures at { result.at ≡ at }
{
    Seen {
        tokens,
        entries,
        parameters,
        counted,
        at: at as usize,
    }
}

// Where the fault is, which, and its line.
fn push_head(
    out: &mut Vec<u8>,
    alloc: Global,
    file: &[u8],
    text: &[u8],
    found: Located<'_>,
    kind: FaultKind,
) -> Result<(), AllocError>
    ensures { OnOk result (out.new.items ≡ out.old.items
        ++ head_lines file.now text.now (located_of found.entry) kind) }
{
    let place = found.place;
    push_place(out, file, u64::from(place.line), u64::from(place.column))?;
    push_token_fault(out, kind.words(), spelling(text, found))?;
    push_excerpt(out, alloc, text, place.line as usize, place.column as usize)
}

fn push_hint_if_any(out: &mut Vec<u8>, hint: Option<Hint<'_>>) -> Result<(), AllocError>
    ensures { OnOk result (out.new.items ≡ out.old.items ++ words_line (words_of hint.entry)) }
{
    match hint {
        Some(hint) => push_hint(out, hint),
        None => Ok(()),
    }
}

// The token at this place.
fn token_at<'t>(tokens: &[Located<'t>], place: usize) -> Located<'t>
    ensures { located_of result ≡ get_or (map located_of tokens.now) place nowhere }
{
    if place < tokens.len() {
        tokens[place]
    } else {
        Located {
            place: Place {
                line: 0,
                column: 0,
                offset: 0,
            },
            lexeme: Lexeme::Token(Token::End),
        }
    }
}
