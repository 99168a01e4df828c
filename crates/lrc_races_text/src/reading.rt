// Reading a line in either form, and why it is bad.
ghost use Rattle.std.specs.Prelude.{◌≡◌, ℕ, IfOk};
ghost use Rattle.lrc_races_lines.specs.Cause.{why_of, why_text};
ghost use Rattle.lrc_races_text.specs.declared.fault.Fault.TheVariants.{BadEvent};
ghost use Rattle.lrc_races_text.specs.Says.{IsBad, IsCauseIn};
ghost use Rattle.lrc_races_text.specs.Told.{IsOneLine};
ghost use Rattle.lrc_races_text.specs.Session.{ReadsIn, Text};

use crate::acts::read_act;
use crate::fault::Fault;
use crate::form::Form;
use lrc_races_lines::cause::{Cause, cause_of, cause_of_any, push_cause};
use lrc_races_lines::line::Line;
use lrc_races_lines::reading::read_line;
use std::alloc::{AllocError, Global};

/// The greatest length of a line, in bytes.
pub const LONGEST_LINE: usize = 4096;

/// Returns what a line says. Its line feed is left out.
pub fn read(form: Form, line: &[u8]) -> Line<'_>
    ensures { ReadsIn form line.now result }
{
    match form {
        Form::Std => read_line(line),
        Form::Acts => read_act(line),
    }
}

// Why the line with this number is no act.
fn act_cause(number: u64, line: &[u8]) -> Cause<'_>
    ensures { IsCauseIn Form.Acts number line.now (why_of result) }
{
    match cause_of_any(number, line) {
        Some(cause) => cause,
        None => Cause::NoAct,
    }
}

/// Returns why the line with this number is bad.
pub fn cause_in(form: Form, number: u64, line: &[u8]) -> Cause<'_>
    ensures { IsOneLine line.now → IsBad form line.now
        → IsCauseIn form number line.now (why_of result) }
{
    match form {
        Form::Std => cause_of(number, line),
        Form::Acts => act_cause(number, line),
    }
}

// What is said of a cause.
fn text_of(alloc: Global, cause: Cause<'_>) -> Result<Vec<u8>, AllocError>
    ensures { IfOk result (λ text. text.items ≡ why_text (why_of cause.entry)) }
{
    let mut text = Vec::new(alloc);
    push_cause(&mut text, cause)?;
    Ok(text)
}

/// Returns the fault of a bad line, or, if there is no memory for what is said of it, that there is none.
pub fn bad_event(alloc: Global, number: u64, cause: Cause<'_>) -> Fault
    ensures { (line : ℕ) (why : Text) → result ≡ BadEvent line why → (line ≡ number)
        × (why.items ≡ why_text (why_of cause.entry)) }
{
    match text_of(alloc, cause) {
        Ok(text) => Fault::BadEvent(number, text),
        Err(_error) => Fault::NoMemory,
    }
}
