// The source of an expression of a named program.

ghost use Rattle.std.specs.Prelude.{◌≡◌, ◌≤◌, ◌++◌, IfOk, OnOk, drop, length, slice_index, take};
ghost use Rattle.std.specs.List.{position_or_len};
ghost use Rattle.lrc_named_held.specs.Source.{bytes_from, is_gap, quoted, shortened, source, spelled, with_gap};

use std::alloc::{AllocError, Global};

/// How many bytes of a source are told at most.
const MOST: usize = 60;

// Whether no token has this byte.
fn is_gap(byte: u8) -> bool
    ensures { result ≡ is_gap byte }
{
    byte == b' ' || (byte == b'\t' || (byte == b'\n' || (byte == b'\r' || byte == b'#')))
}

// Where the first byte stands that no token has.
fn place_of_gap(bytes: &[u8]) -> usize
    ensures place { result ≡ position_or_len is_gap bytes.now }
    ensures bound { result ≤ length bytes.now }
{
    bytes
        .iter()
        .position(|byte| is_gap(*byte))
        .unwrap_or(bytes.len())
}

// The token at the beginning of these bytes.
fn spelled(bytes: &[u8]) -> &[u8]
    ensures { result.now ≡ spelled bytes.now }
{
    &bytes[..place_of_gap(bytes)]
}

// How many bytes stand before a token; before none that there is, 0.
fn offset(offsets: &[u32], token: usize) -> usize
    ensures { result ≡ slice_index offsets.now token }
{
    match offsets.get(token) {
        Some(offset) => *offset as usize,
        None => 0,
    }
}

// The bytes from a place on, at most so many.
fn part(text: &[u8], from: usize, count: usize) -> &[u8]
    ensures { result.now ≡ take count (drop from text.now) }
{
    let rest = &text[from.min(text.len())..];
    &rest[..count.min(rest.len())]
}

// The bytes from a token on, up to the next one.
fn bytes_from<'t>(text: &'t [u8], offsets: &[u32], token: u32) -> &'t [u8]
    ensures { result.now ≡ bytes_from text.now offsets.now token }
{
    let token = token as usize;
    let from = offset(offsets, token);
    let until = offset(offsets, token + 1);
    part(text, from, until.saturating_sub(from))
}

// Adds the token at the beginning of these bytes, and a blank where something stands behind it.
fn push_token(out: &mut Vec<u8>, bytes: &[u8]) -> Result<(), AllocError>
    ensures { OnOk result (out.new.items ≡ out.old.items ++ with_gap bytes.now) }
{
    let token = spelled(bytes);
    out.extend_from_slice(token)?;
    if token.len() < bytes.len() {
        out.extend_from_slice(b" ")?;
    }
    Ok(())
}

// The tokens from the first to the last one.
fn source(
    alloc: Global,
    text: &[u8],
    offsets: &[u32],
    first: u32,
    last: u32,
) -> Result<Vec<u8>, AllocError>
    ensures { IfOk result (λ out. out.items ≡ source text.now offsets.now first last) }
{
    let mut out = Vec::new(alloc);
    for token in first..last {
        push_token(&mut out, bytes_from(text, offsets, token))?;
    }
    out.extend_from_slice(spelled(bytes_from(text, offsets, last)))?;
    Ok(out)
}

// Adds at most so many bytes, then `..`.
fn push_shortened(out: &mut Vec<u8>, bytes: &[u8]) -> Result<(), AllocError>
    ensures { OnOk result (out.new.items ≡ out.old.items ++ shortened bytes.now) }
{
    if bytes.len() <= MOST {
        return out.extend_from_slice(bytes);
    }
    out.extend_from_slice(part(bytes, 0, MOST))?;
    out.extend_from_slice(b"..")
}

/// Returns the tokens from the first to the last one, as they are told: between back quotes, at most 60 bytes of them.
pub fn quoted(
    alloc: Global,
    text: &[u8],
    offsets: &[u32],
    first: u32,
    last: u32,
) -> Result<Vec<u8>, AllocError>
    ensures { IfOk result (λ out. out.items
        ≡ quoted (source text.now offsets.now first last)) }
{
    let bytes = source(alloc, text, offsets, first, last)?;
    let mut out = Vec::new(alloc);
    out.extend_from_slice(b"`")?;
    push_shortened(&mut out, &bytes)?;
    out.extend_from_slice(b"`")?;
    Ok(out)
}
