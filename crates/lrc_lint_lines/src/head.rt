// The lines that say where something was found, and what, and how much.

ghost use Rattle.std.specs.Prelude.{◌≡◌, ◌++◌, OnOk};
ghost use Rattle.lrc_lint_lines.specs.Head.{count_text, fault_text, kind_text, place_text, unexpected_end_text, unexpected_text};

use lrc_lang::fault::FaultKind;
use lrc_text::push_number;
use std::alloc::AllocError;

/// Adds `FILE:LINE:COLUMN: `.
pub fn push_place(out: &mut Vec<u8>, file: &[u8], line: u64, column: u64) -> Result<(), AllocError>
    ensures { OnOk result (out.new.items ≡ out.old.items ++ place_text file.now line column) }
{
    out.extend_from_slice(file)?;
    push_number(out, b":", line)?;
    push_number(out, b":", column)?;
    out.extend_from_slice(b": ")
}

/// Adds the line about an unexpected token, with the token as it is spelled.
pub fn push_unexpected(out: &mut Vec<u8>, token: &[u8]) -> Result<(), AllocError>
    ensures { OnOk result (out.new.items ≡ out.old.items ++ unexpected_text token.now) }
{
    out.extend_from_slice(b"error: unexpected `")?;
    out.extend_from_slice(token)?;
    out.extend_from_slice(b"`\n")
}

/// Adds the line about an unexpected end of the text.
pub fn push_unexpected_end(out: &mut Vec<u8>) -> Result<(), AllocError>
    ensures { OnOk result (out.new.items ≡ out.old.items ++ unexpected_end_text) }
{
    out.extend_from_slice(b"error: unexpected end of the text\n")
}

/// Adds the line about any other fault.
pub fn push_fault(out: &mut Vec<u8>, kind: FaultKind) -> Result<(), AllocError>
    ensures { OnOk result (out.new.items ≡ out.old.items ++ fault_text kind) }
{
    out.extend_from_slice(b"error: ")?;
    out.extend_from_slice(words_of(kind))?;
    out.extend_from_slice(b"\n")
}

// What a fault is called.
fn words_of(kind: FaultKind) -> &'static [u8]
    ensures { result.now ≡ kind_text kind }
{
    match kind {
        FaultKind::TooLong => b"text too long",
        FaultKind::BadByte => b"bad byte",
        FaultKind::BadNumber => b"bad number",
        FaultKind::Unexpected => b"unexpected token",
        FaultKind::TooDeep => b"nested too deep",
        FaultKind::TooManyNames => b"too many names",
        FaultKind::OverLimit => b"over a limit",
        FaultKind::NoMemory => b"out of memory",
    }
}

/// Adds the line with the number of warnings.
pub fn push_count(out: &mut Vec<u8>, count: u64) -> Result<(), AllocError>
    ensures { OnOk result (out.new.items ≡ out.old.items ++ count_text count) }
{
    match count {
        0 => out.extend_from_slice(b"no warnings\n"),
        1 => out.extend_from_slice(b"1 warning\n"),
        _ => {
            push_number(out, b"", count)?;
            out.extend_from_slice(b" warnings\n")
        }
    }
}
