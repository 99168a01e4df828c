// Hints for a byte that begins no token, in the order in which they are tried.

ghost use Rattle.std.specs.Prelude.{◌≡◌, slice_get};
ghost use Rattle.lrc_lint_fault.specs.Hint.{words_of};
ghost use Rattle.lrc_lint_fault.specs.HintTable.{bad_byte_rows, byte_found, byte_rows, colon_row, first_row, header_row, is_colon_for_block, order_mark_row, seen_of};

use crate::fault::Fault;
use crate::hint::Hint;
use lrc_lang::token::Sign;

/// Returns the first hint that applies to a byte that begins no token.
pub fn bad_byte_hint<'t>(fault: &Fault<'t>) -> Option<Hint<'t>>
    ensures { words_of result ≡ first_row (bad_byte_rows (seen_of fault.now)) }
{
    order_mark(fault)
        .or(hint_of_byte(byte_found(fault)))
        .or(header(fault))
        .or(colon(fault))
}

fn order_mark<'t>(fault: &Fault<'t>) -> Option<Hint<'t>>
    ensures { words_of result ≡ order_mark_row (seen_of fault.now) }
{
    Hint::ByteOrderMark.only_if(fault.text.starts_with(&[0xef, 0xbb, 0xbf]))
}

// The byte that begins no token.
fn byte_found(fault: &Fault<'_>) -> Option<u8>
    ensures { result ≡ byte_found (seen_of fault.now) }
{
    byte_at(fault.text, fault.found.offset as usize)
}

/// Returns the byte of a text at a place, if the text has one there.
pub fn byte_at(text: &[u8], place: usize) -> Option<u8>
    ensures { result ≡ slice_get text.now place }
{
    text.get(place).copied()
}

fn hint_of_byte<'t>(byte: Option<u8>) -> Option<Hint<'t>>
    ensures { words_of result ≡ first_row (byte_rows byte) }
{
    let byte = byte?;
    if byte == b'&' || byte == b'|' {
        Some(Hint::AndOr)
    } else if byte == b'!' {
        Some(Hint::Not)
    } else if byte == b'"' || byte == b'\'' {
        Some(Hint::NoTexts)
    } else if byte >= 128 {
        Some(Hint::Ascii)
    } else {
        None
    }
}

/// Returns how a program begins, if the fault is there.
pub fn header<'t>(fault: &Fault<'t>) -> Option<Hint<'t>>
    ensures { words_of result ≡ header_row (seen_of fault.now) }
{
    Hint::Header.only_if(fault.is_in_header())
}

fn colon<'t>(fault: &Fault<'t>) -> Option<Hint<'t>>
    ensures { words_of result ≡ colon_row (seen_of fault.now) }
{
    Hint::Block.only_if(is_colon_for_block(fault, byte_found(fault)))
}

// Whether the byte is `:`, where a block may begin.
fn is_colon_for_block(fault: &Fault<'_>, byte: Option<u8>) -> bool
    ensures { result ≡ is_colon_for_block (seen_of fault.now) byte }
{
    match byte {
        Some(byte) => byte == b':' && fault.may_sign(Sign::OpenBrace),
        None => false,
    }
}
