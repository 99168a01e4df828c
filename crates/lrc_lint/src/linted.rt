// What is answered of a text.

ghost use Rattle.std.specs.Prelude.{◌≡◌, ◌++◌, ◌⊎◌, ◌≤◌, [], ℕ, IfOk, OnOk, length, map};
ghost use Rattle.lrc_lang.specs.declared.fault.FaultKind.{FaultKind as FaultKindSeen};
ghost use Rattle.lrc_lang.specs.Faults.{HasFirstFault, IsText};
ghost use Rattle.lrc_program.specs.Tree.{program_of};
ghost use Rattle.lrc_text.specs.Parts.{whole_text};
ghost use Rattle.lrc_lint_fault.specs.Told.{TellsNoProgram};
ghost use Rattle.lrc_lint.specs.Linted.{LintsProgram};

use crate::seen::{names_of, spots_of, tokens_of};
use crate::told::push_warned;
use lrc_labels::read_labels;
use lrc_lang::fault::FaultKind;
use lrc_lang::parse;
use lrc_lang::positions::positions_of;
use lrc_lint_fault::{Linted, lint_fault};
use lrc_lint_warnings::warnings;
use lrc_program::Program;
use std::alloc::{AllocError, Global};

/// Returns what `lint` answers to a text: the first fault with status 1 if it is not a program, else its warnings with
/// status 0. The answer names the file as it was given.
pub fn lint(alloc: Global, file: &[u8], text: &[u8]) -> Result<Linted, AllocError>
    ensures { IfOk result (λ linted.
        (TellsNoProgram file.now text.now (whole_text linted.parts.items) × (linted.status ≡ 1))
        ⊎ (LintsProgram file.now text.now (whole_text linted.parts.items) × (linted.status ≡ 0))) }
{
    match lint_fault(alloc, file, text)? {
        Some(linted) => Ok(linted),
        None => lint_sound(alloc, file, text),
    }
}

// The same of a text that has no fault.
fn lint_sound(alloc: Global, file: &[u8], text: &[u8]) -> Result<Linted, AllocError>
    requires { (line : ℕ) (kind : FaultKindSeen) → HasFirstFault text.now line kind → ⊥ }
    ensures lines { IfOk result (λ linted. LintsProgram file.now text.now
        (whole_text linted.parts.items)) }
    ensures status { IfOk result (λ linted. linted.status ≡ 0) }
{
    match parse(alloc, text) {
        Ok(program) => lint_program(alloc, file, text, &program),
        Err(fault) => match fault.kind {
            FaultKind::NoMemory => Err(AllocError),
            // The text has no fault.
            _ => unreachable!(),
        },
    }
}

fn lint_program(
    alloc: Global,
    file: &[u8],
    text: &[u8],
    program: &Program,
) -> Result<Linted, AllocError>
    requires { IsText text.now (program_of program.now) }
    ensures lines { IfOk result (λ linted. LintsProgram file.now text.now
        (whole_text linted.parts.items)) }
    ensures status { IfOk result (λ linted. linted.status ≡ 0) }
{
    let mut out = Vec::new(alloc);
    push_program(&mut out, alloc, file, text, program)?;
    let mut parts = Vec::new(alloc);
    parts.push(out)?;
    Ok(Linted { parts, status: 0 })
}

// Adds the warnings of a program.
fn push_program(
    out: &mut Vec<u8>,
    alloc: Global,
    file: &[u8],
    text: &[u8],
    program: &Program,
) -> Result<(), AllocError>
    requires program { IsText text.now (program_of program.now) }
    requires empty { out.old.items ≡ [] }
    ensures { OnOk result (LintsProgram file.now text.now out.new.items) }
{
    let all = positions_of(alloc, text)?;
    let tokens = tokens_of(alloc, &all)?;
    let spots = spots_of(alloc, &all)?;
    let names = names_of(alloc, &tokens)?;
    let labels = read_labels(alloc, text, program.words(), program.locks())?;
    let warned = warnings(alloc, program, &tokens, &spots, &labels.idle)?;
    push_warned(out, file, &warned, &names, &labels.said)
}
