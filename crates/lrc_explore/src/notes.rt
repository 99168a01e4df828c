// The notes of acts.

ghost use Rattle.std.specs.Prelude.{◌≡◌, IfOk, filter};
ghost use Rattle.lrc_orders.specs.Notes.{is_note_of, notes_of};

use lrc_trace::act::{Act, Deed};
use std::alloc::{AllocError, Global};

/// Returns the notes of acts of so many nodes: node by node, each one's in order. It fails if memory runs out.
pub(crate) fn notes_of(alloc: Global, nodes: u8, acts: &[Act]) -> Result<Vec<Act>, AllocError>
    ensures { IfOk result (λ notes. notes.items ≡ notes_of nodes acts.now) }
{
    let mut notes = Vec::new(alloc);
    for node in 0..nodes {
        let own = notes_of_node(alloc, node, acts)?;
        notes.extend_from_slice(&own)?;
    }
    Ok(notes)
}

// What a node notes of acts.
fn notes_of_node(alloc: Global, node: u8, acts: &[Act]) -> Result<Vec<Act>, AllocError>
    ensures { IfOk result (λ own. own.items ≡ filter (is_note_of node) acts.now) }
{
    acts.iter()
        .copied()
        .filter(|act| is_note_of(node, *act))
        .collect(alloc)
}

// Whether this is an act of the node that is noted.
fn is_note_of(node: u8, act: Act) -> bool
    ensures { result ≡ is_note_of node act }
{
    act.node == node && matches!(act.deed, Deed::Print(_) | Deed::Trap(_) | Deed::End)
}
