// The spelling of a text.

ghost use Rattle.std.specs.Prelude.{◌≡◌, ◌<◌, ◌++◌, OnOk};
ghost use Rattle.lrc_json.specs.Spelling.{byte_text, control_text, digit_of, quoted, spelled};

use std::alloc::AllocError;

fn digit_of(number: u8) -> u8
    requires { number < 16 }
    ensures { result ≡ digit_of number }
{
    if number >= 10 {
        b'a' - 10 + number
    } else {
        b'0' + number
    }
}

// Adds a byte below 32 by its number.
fn push_control(text: &mut Vec<u8>, byte: u8) -> Result<(), AllocError>
    requires { byte < 32 }
    ensures { OnOk result (text.new.items ≡ text.old.items ++ control_text byte) }
{
    if byte >= 16 {
        text.extend_from_slice(b"\\u001")?;
        text.push(digit_of(byte - 16))?;
    } else {
        text.extend_from_slice(b"\\u000")?;
        text.push(digit_of(byte))?;
    }
    Ok(())
}

fn push_byte(text: &mut Vec<u8>, byte: u8) -> Result<(), AllocError>
    ensures { OnOk result (text.new.items ≡ text.old.items ++ byte_text byte) }
{
    match byte {
        b'"' => text.extend_from_slice(b"\\\""),
        b'\\' => text.extend_from_slice(b"\\\\"),
        b'<' => text.extend_from_slice(b"\\u003c"),
        b'>' => text.extend_from_slice(b"\\u003e"),
        b'&' => text.extend_from_slice(b"\\u0026"),
        8 => text.extend_from_slice(b"\\b"),
        b'\t' => text.extend_from_slice(b"\\t"),
        b'\n' => text.extend_from_slice(b"\\n"),
        12 => text.extend_from_slice(b"\\f"),
        b'\r' => text.extend_from_slice(b"\\r"),
        32.. => Ok(text.push(byte)?),
        _ => push_control(text, byte),
    }
}

// Adds a text as JSON spells it between quotation marks, without the marks.
fn push_spelled(text: &mut Vec<u8>, of: &[u8]) -> Result<(), AllocError>
    ensures { OnOk result (text.new.items ≡ text.old.items ++ spelled of.now) }
{
    for byte in of {
        push_byte(text, *byte)?;
    }
    Ok(())
}

/// Adds a text as JSON spells it, with its quotation marks.
#[tactic(auto, unfolding(crate::specs::Spelling::quoted))]
pub fn push_quoted(text: &mut Vec<u8>, of: &[u8]) -> Result<(), AllocError>
    ensures { OnOk result (text.new.items ≡ text.old.items ++ quoted of.now) }
{
    text.extend_from_slice(b"\"")?;
    push_spelled(text, of)?;
    text.extend_from_slice(b"\"")
}
