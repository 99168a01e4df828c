// What is told in place of the translation's own names.

ghost use Rattle.std.specs.Prelude.{◌≡◌, IfOk, map};
ghost use Rattle.lrc_named_held.specs.Held.{held_by, held_in, held_of, held_seen};

use crate::owns::Own;
use crate::source::quoted;
use lrc_text::push_number;
use std::alloc::{AllocError, Global};

/// A name of the translation's own in a statement of a core, and what is told in its place: what it holds.
#[derive(Drop)]
pub struct Held {
    /// The name, as it is spelled in the core.
    pub name: Vec<u8>,
    /// The source of what it holds, between back quotes.
    pub source: Vec<u8>,
}

// Of one name.
fn held_by(alloc: Global, text: &[u8], offsets: &[u32], own: Own) -> Result<Held, AllocError>
    ensures { IfOk result (λ held. held_seen held ≡ held_by text.now offsets.now own) }
{
    let mut name = Vec::new(alloc);
    push_number(&mut name, b"_", u64::from(own.number))?;
    let source = quoted(alloc, text, offsets, own.first, own.last)?;
    Ok(Held { name, source })
}

// Of those of a statement.
fn held_in(
    alloc: Global,
    text: &[u8],
    offsets: &[u32],
    owns: &[Own],
) -> Result<Vec<Held>, AllocError>
    ensures { IfOk result (λ held. map held_seen held.items ≡ held_in text.now offsets.now owns.now) }
{
    let mut held = Vec::new(alloc);
    for own in owns {
        let one = held_by(alloc, text, offsets, *own)?;
        held.push(one)?;
    }
    Ok(held)
}

/// Returns what is told in place of the translation's own names in each statement of a core. `text` is that of the named
/// program; `offsets` has for each of its tokens how many bytes stand before it. It fails only if memory runs out.
pub fn held_of(
    alloc: Global,
    text: &[u8],
    offsets: &[u32],
    owns: &[Vec<Own>],
) -> Result<Vec<Vec<Held>>, AllocError>
    ensures { IfOk result (λ held. map (λ one. map held_seen one.items) held.items
        ≡ held_of text.now offsets.now (map (λ one. one.items) owns.now)) }
{
    let mut held = Vec::new(alloc);
    for one in owns {
        let told = held_in(alloc, text, offsets, one)?;
        held.push(told)?;
    }
    Ok(held)
}
