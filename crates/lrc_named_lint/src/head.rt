// The line that says what was found.

ghost use Rattle.std.specs.Prelude.{◌≡◌, ◌++◌, OnOk};
ghost use Rattle.lrc_named_tokens.specs.View.{lexeme_of, located_of};
ghost use Rattle.lrc_named_lint.specs.Told.{kind_of, token_fault_text, unexpected_of};

use lrc_lang::fault::FaultKind;
use lrc_lint_lines::{push_fault, push_unexpected, push_unexpected_end};
use lrc_named_hints::fault::Fault;
use std::alloc::AllocError;

/// Adds the line about a fault of a token, with the token as it is spelled.
pub fn push_token_fault(out: &mut Vec<u8>, words: &[u8], token: &[u8]) -> Result<(), AllocError>
    ensures { OnOk result (out.new.items ≡ out.old.items ++ token_fault_text words.now token.now) }
{
    out.extend_from_slice(b"error: ")?;
    out.extend_from_slice(words)?;
    out.extend_from_slice(b" `")?;
    out.extend_from_slice(token)?;
    out.extend_from_slice(b"`\n")
}

/// Adds the line about the fault of a text as such.
pub fn push_kind(out: &mut Vec<u8>, fault: &Fault<'_>) -> Result<(), AllocError>
    ensures { OnOk result (out.new.items
        ≡ out.old.items ++ kind_of fault.now.kind fault.now.text.now (located_of fault.now.found)) }
{
    match fault.kind {
        FaultKind::Unexpected => push_unexpected_found(out, fault),
        FaultKind::OverLimit => push_token_fault(out, b"over a limit", fault.spelling()),
        other => push_fault(out, other),
    }
}

fn push_unexpected_found(out: &mut Vec<u8>, fault: &Fault<'_>) -> Result<(), AllocError>
    ensures { OnOk result (out.new.items ≡ out.old.items
        ++ unexpected_of fault.now.text.now fault.now.found.place.offset
        (lexeme_of fault.now.found.lexeme)) }
{
    if fault.is_end() {
        push_unexpected_end(out)
    } else {
        push_unexpected(out, fault.spelling())
    }
}
