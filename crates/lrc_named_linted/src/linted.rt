// What is told of a text that is read as a named program.

ghost use Rattle.std.specs.Prelude.{◌≡◌, ◌++◌, IfOk, MatchOption, map};
ghost use Rattle.lrc_lang.specs.declared.fault.FaultKind.{FaultKind as FaultKindSeen};
ghost use Rattle.lrc_text.specs.Parts.{whole_text};
ghost use Rattle.lrc_named_check.specs.Program.{IsClean};
ghost use Rattle.lrc_named_expression_faults.specs.Fault.{IsFirstOf};
ghost use Rattle.lrc_named_faults.specs.Program.{IsFaultOf};
ghost use Rattle.lrc_named_linted.specs.Linted.{IsSound, TellsNamed};
ghost use Rattle.lrc_named_parse.specs.Faults.{HasFirstFault, IsNamed};
ghost use Rattle.lrc_named_tokens.specs.Token.{Place as PlaceSeen};
ghost use Rattle.lrc_named_tokens.specs.View.{located_of};
ghost use Rattle.lrc_named_tree.specs.View.{program_of};
ghost use Rattle.lrc_named.specs.Lines.{lines_of};

use lrc_lang::fault::FaultKind;
use lrc_lint_fault::Linted;
use lrc_named_check::names_of;
use lrc_named_expression_faults::fault::Fault;
use lrc_named_faults::layout::Layout;
use lrc_named_faults::values::Found;
use lrc_named_index_hint::index_hint;
use lrc_named_lint::lint_text_fault;
use lrc_named_lint_core::lint_core_fault;
use lrc_named_lint_names::lint_name_fault;
use lrc_named_parse::{Parsed, parse};
use lrc_named_tokens::token::Located;
use lrc_named_tree::tree::NamedProgram;
use lrc_named_written::core_text;
use std::alloc::{AllocError, Global};

/// Reports the first fault of a text that is read as a named program, or returns none if the text has no fault. The report
/// names the file as it was given. It fails only if memory runs out.
pub fn lint_named(alloc: Global, file: &[u8], text: &[u8]) -> Result<Option<Linted>, AllocError>
    ensures { IfOk result (λ told. MatchOption told (IsSound text.now)
        (λ linted. TellsNamed file.now text.now (whole_text linted.parts.items)
        × (linted.status ≡ 1))) }
{
    match lint_text_fault(alloc, file, text)? {
        Some(linted) => Ok(Some(linted)),
        None => lint_parsed(alloc, file, text),
    }
}

// The same, of a text that has no fault as such.
fn lint_parsed(alloc: Global, file: &[u8], text: &[u8]) -> Result<Option<Linted>, AllocError>
    requires { (place : PlaceSeen) (kind : FaultKindSeen) → HasFirstFault text.now place kind → ⊥ }
    ensures { IfOk result (λ told. MatchOption told (IsSound text.now)
        (λ linted. TellsNamed file.now text.now (whole_text linted.parts.items)
        × (linted.status ≡ 1))) }
{
    match parse(alloc, text) {
        Ok(parsed) => {
            let Parsed { program, tokens } = parsed;
            lint_program(alloc, file, text, &tokens, program)
        }
        Err(fault) => match fault.kind {
            FaultKind::NoMemory => Err(AllocError),
            // The text has no fault.
            _ => unreachable!(),
        },
    }
}

fn lint_program(
    alloc: Global,
    file: &[u8],
    text: &[u8],
    tokens: &[Located<'_>],
    program: NamedProgram<'_>,
) -> Result<Option<Linted>, AllocError>
    requires { IsNamed text.now (map located_of tokens.now) (program_of program) }
    ensures { IfOk result (λ told. MatchOption told (IsSound text.now)
        (λ linted. TellsNamed file.now text.now (whole_text linted.parts.items)
        × (linted.status ≡ 1))) }
{
    let fault = match names_of(alloc, &program)? {
        Found::Bad(fault) => fault,
        Found::Good(layout) => return lint_core(alloc, file, text, tokens, &program, &layout),
    };
    lint_names(alloc, file, text, tokens, program, fault)
}

// What is told of the first fault of the names.
fn lint_names(
    alloc: Global,
    file: &[u8],
    text: &[u8],
    tokens: &[Located<'_>],
    program: NamedProgram<'_>,
    fault: Fault,
) -> Result<Option<Linted>, AllocError>
    requires parsed { IsNamed text.now (map located_of tokens.now) (program_of program) }
    requires first { IsFirstOf (λ f. IsFaultOf (program_of program) f) (Some fault) }
    ensures { IfOk result (λ told. MatchOption told (IsSound text.now)
        (λ linted. TellsNamed file.now text.now (whole_text linted.parts.items)
        × (linted.status ≡ 1))) }
{
    let linted = lint_name_fault(alloc, file, text, tokens, &program, fault)?;
    let line = index_hint(alloc, program, fault)?;
    Ok(Some(with_line(linted, line)?))
}

// The answer, with a line behind it.
fn with_line(mut linted: Linted, line: Vec<u8>) -> Result<Linted, AllocError>
    ensures parts { IfOk result (λ all. whole_text all.parts.items
        ≡ whole_text linted.parts.items ++ line.items) }
    ensures status { IfOk result (λ all. all.status ≡ linted.status) }
{
    linted.parts.push(line)?;
    Ok(linted)
}

// What is told of the core.
fn lint_core<'p>(
    alloc: Global,
    file: &[u8],
    text: &[u8],
    tokens: &[Located<'_>],
    program: &NamedProgram<'p>,
    layout: &Layout<'_, 'p>,
) -> Result<Option<Linted>, AllocError>
    requires parsed { IsNamed text.now (map located_of tokens.now) (program_of program.now) }
    requires clean { IsClean (program_of program.now) layout.now }
    ensures { IfOk result (λ told. MatchOption told (IsSound text.now)
        (λ linted. TellsNamed file.now text.now (whole_text linted.parts.items)
        × (linted.status ≡ 1))) }
{
    let lines = lines_of(alloc, tokens)?;
    let written = core_text(alloc, &layout.names, &lines, program)?;
    lint_core_fault(alloc, file, text, tokens, &written)
}

// The line of each token.
fn lines_of(alloc: Global, tokens: &[Located<'_>]) -> Result<Vec<u32>, AllocError>
    ensures { IfOk result (λ lines. lines.items ≡ lines_of (map located_of tokens.now)) }
{
    let mut lines = Vec::new(alloc);
    for token in tokens {
        lines.push(token.place.line)?;
    }
    Ok(lines)
}
