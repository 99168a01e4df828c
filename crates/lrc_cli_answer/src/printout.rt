// What is printed, with its status.

ghost use Rattle.std.specs.Prelude.{◌≡◌, IfOk};
ghost use Rattle.lrc_text.specs.Parts.{whole_text};

use std::alloc::{AllocError, Global};

/// The text to print, and the exit status.
#[derive(Drop)]
pub struct Printout {
    /// The parts of the text.
    pub parts: Vec<Vec<u8>>,
    pub status: u8,
}

/// Returns a text as its one part.
pub fn in_one(alloc: Global, part: Vec<u8>) -> Result<Vec<Vec<u8>>, AllocError>
    ensures { IfOk result (λ parts. whole_text parts.items ≡ part.items) }
{
    let mut parts = Vec::new(alloc);
    parts.push(part)?;
    Ok(parts)
}
