// Label lines: where they stand in a text, and what they are made of.

ghost use Rattle.std.specs.Prelude.{◌≡◌, ◌++◌, ◌∷◌, [], IfOk, OnOk, filter, map, option_map};
ghost use Rattle.lrc_labels.specs.Line.{fields_of, has_bytes, label_line_in, line_seen};

use crate::cut::{Divider, cut, first_divider};
use std::alloc::{AllocError, Global};

/// The comment of a line, if it begins with `#:`.
#[derive(Clone, Copy)]
pub struct LabelLine<'t> {
    /// The column of the `#`, in bytes from 1.
    pub column: usize,
    /// The bytes after the `#:`.
    pub body: &'t [u8],
}

/// Returns the label line in a line of a text, or none if its comment is not one.
pub fn label_line(line: &[u8]) -> Option<LabelLine<'_>>
    ensures { option_map line_seen result ≡ label_line_in line.now }
{
    let at = first_divider(Divider::Hash, line)?;
    match &line[at + 1..] {
        [b':', body @ ..] => Some(LabelLine {
            column: at + 1,
            body,
        }),
        _ => None,
    }
}

/// Returns the pieces of a text between its blanks. It fails only if memory runs out.
pub fn fields(alloc: Global, text: &[u8]) -> Result<Vec<&[u8]>, AllocError>
    ensures { IfOk result (λ fields. map (λ field. field.now) fields.items ≡ fields_of text.now) }
{
    let pieces = cut(alloc, Divider::Blank, text)?;
    let mut fields = Vec::new(alloc);
    for piece in &pieces {
        keep(&mut fields, piece)?;
    }
    Ok(fields)
}

// Keeps a piece that is not empty.
fn keep<'t>(fields: &mut Vec<&'t [u8]>, piece: &'t [u8]) -> Result<(), AllocError>
    ensures { OnOk result (map (λ field. field.now) fields.new.items
        ≡ map (λ field. field.now) fields.old.items ++ filter has_bytes (piece.entry.now ∷ [])) }
{
    match piece {
        [] => Ok(()),
        [_first, ..] => {
            fields.push(piece)?;
            Ok(())
        }
    }
}
