// The last Write to each word.

ghost use Rattle.std.specs.Prelude.{◌≡◌, ◌++◌, ◌∷◌, [], ℕ, IfOk, List, OnOk};
ghost use Rattle.std.specs.List.{flat_map};
ghost use Rattle.std.specs.Option.{option_to_list};
ghost use Rattle.lrc_replay.specs.Acts.{note_of};
ghost use Rattle.lrc_replay.specs.Courses.{AreNotes};
ghost use Rattle.lrc_replay.specs.declared.notes.Note.{Note as AnyNote};

use lrc_trace::act::Deed;
use std::alloc::{AllocError, Global};

/// The spot of an act: its position in the run, its line in the text, and its interval.
#[derive(Clone, Copy)]
pub struct Spot {
    pub position: u64,
    pub line: u32,
    pub interval: u64,
}

/// One Write: its word and value, its node, and its spot.
#[derive(Clone, Copy)]
pub struct Note {
    pub word: u32,
    pub value: u64,
    pub node: u8,
    pub spot: Spot,
}

/// The last Write to each word.
#[derive(Drop)]
pub(crate) struct Notes {
    last: Vec<Option<Note>>,
}

impl Notes {
    /// Creates notes for `words` words, none of which was written yet.
    pub(crate) fn none(alloc: Global, words: u32) -> Result<Notes, AllocError>
        ensures { IfOk result (AreNotes words []) }
    {
        let mut last = Vec::new(alloc);
        for _word in 0..words {
            last.push(None)?;
        }
        Ok(Notes { last })
    }

    /// Notes the Write of a deed, if it writes a word.
    #[tactic(auto, using(crate::proofs::Coursing::nothing_noted))]
    pub(crate) fn note(&mut self, node: u8, deed: Deed, spot: Spot)
        ensures { (words : ℕ) (all : List AnyNote) → AreNotes words all self.old
            → AreNotes words (all ++ note_of spot node deed) self.new }
    {
        if let Deed::Write(word, value) = deed {
            self.keep(Note {
                word,
                value,
                node,
                spot,
            });
        }
    }

    // The word was written last by this.
    fn keep(&mut self, note: Note)
        ensures { (words : ℕ) (all : List AnyNote) → AreNotes words all self.old
            → AreNotes words (all ++ note ∷ []) self.new }
    {
        let place = note.word as usize;
        if place < self.last.len() {
            self.last[place] = Some(note);
        }
    }

    /// Returns the last Writes, by word.
    pub(crate) fn all(&self, alloc: Global) -> Result<Vec<Note>, AllocError>
        ensures { IfOk result (λ notes. notes.items ≡ flat_map option_to_list self.now.last.items) }
    {
        let mut notes = Vec::new(alloc);
        for last in &self.last {
            add(&mut notes, *last)?;
        }
        Ok(notes)
    }
}

// Adds a Write, if there is one.
fn add(notes: &mut Vec<Note>, last: Option<Note>) -> Result<(), AllocError>
    ensures { OnOk result (notes.new.items ≡ notes.old.items ++ option_to_list last) }
{
    match last {
        Some(note) => notes.push(note)?,
        None => {}
    }
    Ok(())
}
