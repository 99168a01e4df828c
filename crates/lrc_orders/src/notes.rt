// What is noted of a program's acts: what each node prints, in order, and how it ends.

ghost use Rattle.std.specs.Prelude.{◌≡◌, ◌≤◌, OnOk, length};
ghost use Rattle.lrc_orders.specs.Notes.{is_noted_deed, notes_with, place_in};

use lrc_trace::act::{Act, Deed};
use std::alloc::AllocError;

/// Notes an act behind the notes of the nodes up to its own, if it is a print, a trap or the end of the text. It fails
/// if memory runs out.
pub fn note(notes: &mut Vec<Act>, act: Act) -> Result<(), AllocError>
    ensures { OnOk result (notes.new.items ≡ notes_with notes.old.items act) }
{
    if is_noted_deed(act.deed) {
        let place = place_in(notes, act.node);
        notes.insert(place, act)?;
    }
    Ok(())
}

// Whether a deed is noted.
fn is_noted_deed(deed: Deed) -> bool
    ensures { result ≡ is_noted_deed deed }
{
    matches!(deed, Deed::Print(_) | Deed::Trap(_) | Deed::End)
}

// The place behind the notes of the nodes up to this one.
fn place_in(notes: &[Act], node: u8) -> usize
    ensures place { result ≡ place_in node notes.now }
    ensures within { result ≤ length notes.now }
{
    for place in 0..notes.len() {
        if notes[place].node > node {
            return place;
        }
    }
    notes.len()
}
