// Hints for a byte that begins no token, in the order in which they are tried.

ghost use Rattle.std.specs.Prelude.{◌≡◌, slice_get};
ghost use Rattle.lrc_lint_fault.specs.HintTable.{first_row};
ghost use Rattle.lrc_named_hints.specs.Hint.{words_of};
ghost use Rattle.lrc_named_hints.specs.HintTable.{bad_byte_rows, byte_found, byte_rows, colon_row, is_colon_for_block, seen_of};

use crate::fault::Fault;
use crate::hint::Hint;
use lrc_lint_fault::bad_byte::byte_at;
use lrc_lint_fault::hint::Hint as CoreHint;
use lrc_named_tokens::token::Sign;

/// Returns the first hint that applies to a byte that begins no token.
pub fn bad_byte_hint<'t>(fault: &Fault<'t>) -> Option<Hint<'t>>
    ensures { words_of result ≡ first_row (bad_byte_rows (seen_of fault.now)) }
{
    hint_of_byte(byte_found(fault)).or(colon(fault))
}

// The byte that begins no token.
fn byte_found(fault: &Fault<'_>) -> Option<u8>
    ensures { result ≡ byte_found (seen_of fault.now) }
{
    byte_at(fault.text, fault.found.place.offset as usize)
}

fn hint_of_byte<'t>(byte: Option<u8>) -> Option<Hint<'t>>
    ensures { words_of result ≡ first_row (byte_rows byte) }
{
    let byte = byte?;
    if byte == b'&' || byte == b'|' || byte == b'!' {
        Some(Hint::AndOrNot)
    } else if byte == b'.' {
        Some(Hint::Range)
    } else if byte == b'"' || byte == b'\'' {
        Some(Hint::Core(CoreHint::NoTexts))
    } else if byte >= 128 {
        Some(Hint::Core(CoreHint::Ascii))
    } else {
        None
    }
}

fn colon<'t>(fault: &Fault<'t>) -> Option<Hint<'t>>
    ensures { words_of result ≡ colon_row (seen_of fault.now) }
{
    Hint::Block.only_if(is_colon_for_block(fault, byte_found(fault)))
}

// Whether the byte is `:`, where a block may begin.
fn is_colon_for_block(fault: &Fault<'_>, byte: Option<u8>) -> bool
    ensures { result ≡ is_colon_for_block (seen_of fault.now) byte }
{
    match byte {
        Some(byte) => byte == b':' && fault.may_sign(Sign::OpenBrace),
        None => false,
    }
}
