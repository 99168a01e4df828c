// Texts cut into pieces.

ghost use Rattle.std.specs.Prelude.{◌≡◌, ◌<◌, [], ◌∷◌, IfOk, IfSome, MatchOption, length, map, position};
ghost use Rattle.lrc_labels.specs.Cut.{cut, divides};

use std::alloc::{AllocError, Global};

/// Where a text is cut.
#[derive(Clone, Copy)]
pub enum Divider {
    /// At each line feed.
    LineFeed,
    /// At each space, tab and carriage return.
    Blank,
    /// At each `#`.
    Hash,
}

/// Returns the pieces of a text between its dividers, in order. It fails only if memory runs out.
pub fn cut(alloc: Global, divider: Divider, text: &[u8]) -> Result<Vec<&[u8]>, AllocError>
    ensures { IfOk result (λ pieces. map (λ piece. piece.now) pieces.items
        ≡ cut (divides divider) text.now) }
{
    let mut pieces = Vec::new(alloc);
    let mut rest = text;
    while let Some((piece, behind)) = first_piece(divider, rest) {
        pieces.push(piece)?;
        rest = behind;
    }
    pieces.push(rest)?;
    Ok(pieces)
}

// What stands in front of the first divider of a text, and what stands behind it.
fn first_piece(divider: Divider, text: &[u8]) -> Option<(&[u8], &[u8])>
    ensures { MatchOption result (cut (divides divider) text.now ≡ text.now ∷ [])
        (λ found. (cut (divides divider) text.now ≡ found.0.now ∷ cut (divides divider) found.1.now)
        × (length found.1.now < length text.now)) }
{
    match first_divider(divider, text) {
        Some(at) => Some((&text[..at], &text[at + 1..])),
        None => None,
    }
}

/// Returns the position of the first divider of a text, or none if there is none.
pub fn first_divider(divider: Divider, text: &[u8]) -> Option<usize>
    ensures place { result ≡ position (divides divider) text.now }
    ensures within { IfSome result (λ at. at < length text.now) }
{
    text.iter().position(|byte| is_divider(divider, *byte))
}

fn is_divider(divider: Divider, byte: u8) -> bool
    ensures { result ≡ divides divider byte }
{
    match divider {
        Divider::LineFeed => byte == b'\n',
        Divider::Blank => byte == b' ' || byte == b'\t' || byte == b'\r',
        Divider::Hash => byte == b'#',
    }
}
