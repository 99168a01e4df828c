// Notes of states: each note once, behind the one before it of its node.
//
// What was noted on the way to a state is kept as the last note of each node, so a note more costs the same however
// much was noted before.

ghost use Rattle.std.specs.Prelude.{◌≡◌, ◌+◌, ◌<◌, ◌^◌, IfOk};
ghost use Rattle.lrc_orders.specs.Notes.{is_noted_deed};

use indexmap::IndexSet;
use lrc_orders_memory::numbers::short;
use lrc_trace::act::{Act, Deed};
use std::alloc::{AllocError, Global};

/// A note, and the number of the one before it of its node: 0 where there is none, and else one more than its place.
#[derive(Clone, Copy, PartialEq, Eq, Hash)]
pub struct Link {
    pub before: u32,
    pub act: Act,
}

/// The number of the last note of each node, and 0 where there is none.
#[derive(Clone, Copy, PartialEq, Eq, Hash)]
pub struct Lasts {
    pub numbers: [u32; 16],
}

/// The notes of states, node by node, each once, and by number the last ones of each state.
#[derive(Drop)]
pub struct Notes {
    pub links: IndexSet<Link>,
    pub lasts: IndexSet<Lasts>,
}

impl Notes {
    ghost use Rattle.std.specs.Prelude.{◌≡◌, ◌<◌, ◌++◌, [], ◌∷◌, IfOk, List, OnOk, Some, reverse, slice_get};
    ghost use Rattle.lrc_orders.specs.Notes.{notes_of};
    ghost use Rattle.lrc_orders_settling.specs.Gone.{acts_by};
    ghost use Rattle.lrc_trace.specs.declared.act.Act.{Act as ActType};
    ghost use Rattle.lrc_orders_table.specs.Links.{AreNotesAt, AreNotesSound, GrowNotes, HasLasts, HaveChain, HaveLasts, HaveNotes, IsChain, StandByNode};
    ghost use Rattle.lrc_orders_table.specs.Nexts.{notes_on};

    /// No notes.
    pub fn new(alloc: Global) -> Notes
        ensures links { result.links.keys ≡ [] }
        ensures lasts { result.lasts.keys ≡ [] }
        ensures sound { AreNotesSound result }
    {
        Notes {
            links: IndexSet::new(alloc),
            lasts: IndexSet::new(alloc),
        }
    }

    /// The number of notes that stand node by node: their own, where they came before, and else the next. It fails if
    /// memory runs out.
    pub fn add(&mut self, acts: &[Act]) -> Result<u32, AllocError>
        requires sound { AreNotesSound self.old }
        requires stand { StandByNode 16 acts.now }
        ensures sound { OnOk result (AreNotesSound self.new) }
        ensures grows { OnOk result (GrowNotes self.old self.new) }
        ensures there { IfOk result (λ number. AreNotesAt self.new number acts.now) }
    {
        let mut lasts = Lasts { numbers: [0; 16] };
        for act in acts {
            self.note(&mut lasts, *act)?;
        }
        let number = self.number(lasts)?;
        Ok(number)
    }

    /// The number of the notes that a node's deeds make of the notes with this number. It fails if memory runs out.
    pub(crate) fn after(&mut self, number: u32, node: u8, deeds: &[Deed]) -> Result<u32, AllocError>
        requires sound { AreNotesSound self.old }
        requires there { HaveNotes self.old number }
        requires node { node < 16 }
        ensures sound { OnOk result (AreNotesSound self.new) }
        ensures grows { OnOk result (GrowNotes self.old self.new) }
        ensures there { IfOk result (λ after. (acts : List ActType) → AreNotesAt self.old number acts
            → AreNotesAt self.new after (notes_on acts (acts_by node deeds.now))) }
    {
        if deeds.is_empty() {
            return Ok(number);
        }
        let mut lasts = self.lasts.as_slice()[number as usize];
        self.note_all(&mut lasts, node, deeds)?;
        let after = self.number(lasts)?;
        Ok(after)
    }

    // Notes these deeds of a node.
    fn note_all(&mut self, lasts: &mut Lasts, node: u8, deeds: &[Deed]) -> Result<(), AllocError>
        requires sound { AreNotesSound self.old }
        requires there { HaveLasts self.old.links.keys lasts.old }
        requires node { node < 16 }
        ensures sound { OnOk result (AreNotesSound self.new) }
        ensures grows { OnOk result (GrowNotes self.old self.new) }
        ensures has { OnOk result ((made : List ActType)
            → HasLasts self.old.links.keys lasts.old made
            → HasLasts self.new.links.keys lasts.new (made ++ acts_by node deeds.now)) }
    {
        for deed in deeds {
            self.note(lasts, Act { node, deed: *deed })?;
        }
        Ok(())
    }

    // Notes an act of a node, if it is a print, a trap or the end of the text.
    fn note(&mut self, lasts: &mut Lasts, act: Act) -> Result<(), AllocError>
        requires sound { AreNotesSound self.old }
        requires there { HaveLasts self.old.links.keys lasts.old }
        requires node { act.node < 16 }
        ensures sound { OnOk result (AreNotesSound self.new) }
        ensures grows { OnOk result (GrowNotes self.old self.new) }
        ensures has { OnOk result ((made : List ActType)
            → HasLasts self.old.links.keys lasts.old made
            → HasLasts self.new.links.keys lasts.new (made ++ act ∷ [])) }
    {
        if !is_noted_deed(act.deed) {
            return Ok(());
        }
        let node = act.node as usize;
        let link = Link {
            before: lasts.numbers[node],
            act,
        };
        let (place, _new) = self.links.insert_full(link)?;
        let number = number_at(place)?;
        lasts.numbers[node] = number;
        Ok(())
    }

    // The number of the notes with these last ones.
    fn number(&mut self, lasts: Lasts) -> Result<u32, AllocError>
        requires { AreNotesSound self.old }
        ensures sound { OnOk result (AreNotesSound self.new) }
        ensures grows { OnOk result (GrowNotes self.old self.new) }
        ensures there { IfOk result (λ number. slice_get self.new.lasts.keys number ≡ Some lasts) }
        ensures links { self.new.links.keys ≡ self.old.links.keys }
    {
        let (place, _new) = self.lasts.insert_full(lasts)?;
        let number = short(place)?;
        Ok(number)
    }

    /// The notes with a number. It fails if memory runs out.
    pub fn acts(&self, alloc: Global, number: u32) -> Result<Vec<Act>, AllocError>
        requires { HaveNotes self.now number }
        ensures { IfOk result (λ acts. AreNotesAt self.now number acts.items) }
    {
        let mut acts = self.back(alloc, &self.lasts.as_slice()[number as usize])?;
        acts.reverse();
        Ok(acts)
    }

    // The notes of all nodes, the last one first.
    fn back(&self, alloc: Global, lasts: &Lasts) -> Result<Vec<Act>, AllocError>
        requires { HaveLasts self.now.links.keys lasts.now }
        ensures { IfOk result (λ acts. (made : List ActType)
            → HasLasts self.now.links.keys lasts.now made
            → acts.items ≡ reverse (notes_of 16 made)) }
    {
        let mut acts = Vec::new(alloc);
        for step in 0..16 {
            self.put_back(&mut acts, lasts.numbers[15 - step])?;
        }
        Ok(acts)
    }

    // Puts the notes of a node behind others, from the one with this number back to the first.
    fn put_back(&self, acts: &mut Vec<Act>, number: u32) -> Result<(), AllocError>
        requires { HaveChain self.now.links.keys number }
        ensures { OnOk result ((late : List ActType) → IsChain self.now.links.keys number late
            → acts.new.items ≡ acts.old.items ++ late) }
    {
        let mut at = number;
        while at > 0 {
            let link = self.links.as_slice()[at as usize - 1];
            acts.push(link.act)?;
            at = link.before;
        }
        Ok(())
    }
}

// The number of the note at a place. For one that does not fit there is no memory.
fn number_at(place: usize) -> Result<u32, AllocError>
    ensures is { IfOk result (λ number. number ≡ place + 1) }
    ensures small { IfOk result (λ number. number < 2 ^ 32) }
{
    let before = short(place)?;
    before.checked_add(1).ok_or(AllocError)
}

// Whether a deed is noted.
fn is_noted_deed(deed: Deed) -> bool
    ensures { result ≡ is_noted_deed deed }
{
    matches!(deed, Deed::Print(_) | Deed::Trap(_) | Deed::End)
}
