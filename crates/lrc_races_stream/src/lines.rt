// The lines that say why a trace is judged no further.

ghost use Rattle.std.specs.Prelude.{◌≡◌, ℕ, IfOk, List};
ghost use Rattle.lrc_races_stream.specs.Lines.{IsToldOrLacks, bad_line, ill_line, no_event_line, past_line};

use lrc_shell_sources::refusal::{FAULT, refuse_memory, tell_line};
use lrc_text::push_number;
use std::alloc::{AllocError, Global};
use std::io::Write;

// Says a line, or, where there was no memory for it, that there is none.
pub(crate) fn tell_made<E: Write>(made: Result<Vec<u8>, AllocError>, err: &mut E) -> u8
    ensures told { (line : List ℕ) → IfOk made (λ text. text.items ≡ line)
        → IsToldOrLacks (E.contents err.old) (E.contents err.new) line }
    ensures status { result ≡ 1 }
{
    match made {
        Ok(text) => {
            tell_line(&text, err);
            FAULT
        }
        Err(_error) => refuse_memory(err),
    }
}

/// Says which line of a trace is bad, and why, or, if there is no memory for that, that there is none. Returns the exit
/// status.
pub(crate) fn refuse_line<E: Write>(alloc: Global, line: u64, why: &[u8], err: &mut E) -> u8
    ensures told { IsToldOrLacks (E.contents err.old) (E.contents err.new) (bad_line line why.now) }
    ensures status { result ≡ 1 }
{
    tell_made(bad_line(alloc, line, why), err)
}

fn bad_line(alloc: Global, line: u64, why: &[u8]) -> Result<Vec<u8>, AllocError>
    ensures { IfOk result (λ text. text.items ≡ bad_line line why.now) }
{
    let mut text = Vec::new(alloc);
    push_number(&mut text, b"treadmarks: trace line ", line)?;
    text.extend_from_slice(b": bad event: ")?;
    text.extend_from_slice(why)?;
    text.extend_from_slice(b"\n")?;
    Ok(text)
}

/// Says on which line of a trace an event stands that no program would give, and why, or, if there is no memory for that,
/// that there is none. Returns the exit status.
pub(crate) fn refuse_ill<E: Write>(alloc: Global, line: u64, why: &[u8], err: &mut E) -> u8
    ensures told { IsToldOrLacks (E.contents err.old) (E.contents err.new) (ill_line line why.now) }
    ensures status { result ≡ 1 }
{
    tell_made(ill_line(alloc, line, why), err)
}

fn ill_line(alloc: Global, line: u64, why: &[u8]) -> Result<Vec<u8>, AllocError>
    ensures { IfOk result (λ text. text.items ≡ ill_line line why.now) }
{
    let mut text = Vec::new(alloc);
    push_number(&mut text, b"treadmarks: trace line ", line)?;
    text.extend_from_slice(b": not well formed: ")?;
    text.extend_from_slice(why)?;
    text.extend_from_slice(b"\n")?;
    Ok(text)
}

/// Says which line of a trace has no event, or, if there is no memory for that, that there is none. Returns the exit
/// status.
pub(crate) fn refuse_no_event<E: Write>(alloc: Global, line: u64, err: &mut E) -> u8
    ensures told { IsToldOrLacks (E.contents err.old) (E.contents err.new) (no_event_line line) }
    ensures status { result ≡ 1 }
{
    tell_made(no_event_line(alloc, line), err)
}

fn no_event_line(alloc: Global, line: u64) -> Result<Vec<u8>, AllocError>
    ensures { IfOk result (λ text. text.items ≡ no_event_line line) }
{
    let mut text = Vec::new(alloc);
    push_number(&mut text, b"treadmarks: trace line ", line)?;
    text.extend_from_slice(b": no event\n")?;
    Ok(text)
}

/// Says at which line a trace ends, or, if there is no memory for that, that there is none. Returns the exit status.
pub(crate) fn refuse_past<E: Write>(alloc: Global, line: u64, err: &mut E) -> u8
    ensures told { IsToldOrLacks (E.contents err.old) (E.contents err.new) (past_line line) }
    ensures status { result ≡ 1 }
{
    tell_made(past_line(alloc, line), err)
}

fn past_line(alloc: Global, line: u64) -> Result<Vec<u8>, AllocError>
    ensures { IfOk result (λ text. text.items ≡ past_line line) }
{
    let mut text = Vec::new(alloc);
    push_number(&mut text, b"treadmarks: trace ends at line ", line)?;
    text.extend_from_slice(b"\n")?;
    Ok(text)
}
