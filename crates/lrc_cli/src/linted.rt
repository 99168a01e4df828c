// What the program answers to the command `lint`.

ghost use Rattle.std.specs.Prelude.{◌≡◌, IfErr, IfOk};
ghost use Rattle.lrc_cli.specs.Answer.{IsLinted, IsToldAsNamed};
ghost use Rattle.lrc_cli_answer.specs.declared.fault.Fault.TheVariants.{NoMemory};
ghost use Rattle.lrc_named_linted.specs.Linted.{IsSound};
ghost use Rattle.lrc_text.specs.Parts.{whole_text};

use lrc_cli_answer::fault::Fault;
use lrc_cli_answer::printout::Printout;
use lrc_lint::lint;
use lrc_lint_fault::Linted;
use lrc_named::is_read_as_named;
use lrc_named_linted::lint_named;
use lrc_named_warned::lint_sound;
use std::alloc::{AllocError, Global};

/// Answers the command `lint` for the text of this file. It fails only if memory runs out.
pub(crate) fn linted(alloc: Global, file: &str, text: &[u8]) -> Result<Printout, Fault>
    ensures ok { IfOk result (λ printout. IsLinted file.now text.now
        (whole_text printout.parts.items) printout.status) }
    ensures err { IfErr result (λ fault. fault ≡ NoMemory) }
{
    let linted = linted_as_read(alloc, file.as_bytes(), text)?;
    Ok(Printout {
        parts: linted.parts,
        status: linted.status,
    })
}

// What is said of a text: of a named program, if it is read as one, or else of a text of the core.
fn linted_as_read(alloc: Global, file: &[u8], text: &[u8]) -> Result<Linted, AllocError>
    ensures { IfOk result (λ linted. IsLinted file.now text.now
        (whole_text linted.parts.items) linted.status) }
{
    if is_read_as_named(alloc, text)? {
        linted_as_named(alloc, file, text)
    } else {
        lint(alloc, file, text)
    }
}

// What is said of a text that is read as a named program: its first fault; where it has none, its warnings.
fn linted_as_named(alloc: Global, file: &[u8], text: &[u8]) -> Result<Linted, AllocError>
    ensures { IfOk result (λ linted. IsToldAsNamed file.now text.now
        (whole_text linted.parts.items) linted.status) }
{
    match lint_named(alloc, file, text)? {
        Some(linted) => Ok(linted),
        None => warned(alloc, file, text),
    }
}

// The warnings of a named program without a fault.
fn warned(alloc: Global, file: &[u8], text: &[u8]) -> Result<Linted, AllocError>
    requires { IsSound text.now }
    ensures { IfOk result (λ linted. IsToldAsNamed file.now text.now
        (whole_text linted.parts.items) linted.status) }
{
    match lint_sound(alloc, file, text)? {
        Some(linted) => Ok(linted),
        None => unreachable!(),
    }
}
