// States of the machine that makes lazy runs, and how they were found.

ghost use Rattle.std.specs.Prelude.{◌≡◌, ◌++◌, OnOk, reverse};

use crate::along::{act_by, go_along};
use crate::sought::Sought;
use indexmap::IndexSet;
use lrc_lazy_known::word::copied;
use lrc_lazy_search::state::{LONG_WAYS, LazyState};
use lrc_orders::search::ExploreFault;
use lrc_trace::act::{Act, Deed};
use std::alloc::{AllocError, Global};

/// How a state was found: from the state at which place, and by which acts, one after another.
#[derive(Drop)]
pub struct Origin {
    pub parent: usize,
    pub acts: Vec<Act>,
}

/// States, each once, in the order in which they were found; how each was found; the places of those from which steps
/// lead on; and how many long ways are to spare. Of a way on which each act is the only one that can be made, the last
/// state alone is kept.
#[derive(Drop)]
pub struct Ways {
    pub states: IndexSet<LazyState>,
    pub origins: Vec<Origin>,
    pub settled: Vec<usize>,
    pub spare: u32,
}

impl Ways {
    ghost use Rattle.std.specs.Prelude.{◌≡◌, ◌<◌, ◌↔◌, ℕ, IfOk, IfErr, OnOk, IsTrue, Some, length, slice_get};
    ghost use Rattle.lrc_trace.specs.declared.act.Deed.{Deed as DeedType};
    ghost use Rattle.lrc_orders.specs.Kept.{Grows};
    ghost use Rattle.lrc_lazy_search.specs.Searching.{HasKey, IsReached};
    ghost use Rattle.lrc_lazy_run.specs.Ways.{AreKept, AreWays, CanMakeAt, ComesFrom, HasNotesAt, HasStepAt, IsAfterAt, IsEndWith, IsFound, IsPut, IsSought, IsStillAt, LeadTo, MayFail};

    /// Returns the beginning of the program as the only state. It fails if memory runs out.
    pub fn begin(alloc: Global, sought: &Sought<'_>) -> Result<Ways, AllocError>
        requires { IsSought sought.now }
        ensures ways { IfOk result (AreWays sought.now) }
        ensures none { IfOk result (λ ways. length ways.settled.items < length ways.states.keys) }
    {
        let first = LazyState::start(alloc, &sought.flat, sought.start)?;
        let mut states = IndexSet::new(alloc);
        states.insert_full(first)?;
        let mut origins = Vec::new(alloc);
        let acts = Vec::new(alloc);
        origins.push(Origin { parent: 0, acts })?;
        Ok(Ways {
            states,
            origins,
            settled: Vec::new(alloc),
            spare: LONG_WAYS,
        })
    }

    /// Returns what a node can do at a state, with a read for each value that it may give. It fails if memory runs out.
    pub fn deeds_at(
        &self,
        alloc: Global,
        sought: &Sought<'_>,
        place: usize,
        node: usize,
    ) -> Result<Vec<Deed>, AllocError>
        requires ways { AreWays sought.now self.now }
        requires within { place < length self.now.states.keys }
        ensures sound { IfOk result (λ deeds. (k : ℕ) (deed : DeedType)
            → slice_get deeds.items k ≡ Some deed
            → CanMakeAt sought.now.flat self.now.states.keys place node deed) }
        ensures all { IfOk result (λ deeds. (deed : DeedType)
            → CanMakeAt sought.now.flat self.now.states.keys place node deed
            → (k : ℕ) × (slice_get deeds.items k ≡ Some deed)) }
    {
        self.states.as_slice()[place].deeds(alloc, &sought.flat, node)
    }

    /// Adds the state after a deed of a node, and returns its place if it is new. It gives up with `TooMany` if there
    /// are then more states than the task allows, and fails if memory runs out.
    pub fn step(
        &mut self,
        alloc: Global,
        sought: &Sought<'_>,
        place: usize,
        node: usize,
        deed: Deed,
    ) -> Result<Option<usize>, ExploreFault>
        requires ways { AreWays sought.now self.old }
        requires within { place < length self.old.states.keys }
        requires can { CanMakeAt sought.now.flat self.old.states.keys place node deed }
        ensures ways { OnOk result (AreWays sought.now self.new) }
        ensures grows { OnOk result (Grows self.old.states.keys self.new.states.keys) }
        ensures same { OnOk result (self.new.settled ≡ self.old.settled) }
        ensures has { OnOk result (HasStepAt sought.now.flat self.new.states.keys place node deed) }
        ensures found { IfOk result (IsFound sought.now.most self.old.states.keys
            self.new.states.keys) }
        ensures fails { IfErr result (MayFail sought.now) }
    {
        let mut next = self.after_at(alloc, sought, place, node, deed)?;
        next.renew(alloc, &sought.flat)?;
        let acts = copied(alloc, &[act_by(node, deed)])?;
        let origin = Origin {
            parent: place,
            acts,
        };
        let added = self.keep(sought, next, origin)?;
        Ok(added)
    }

    /// Adds the state after a deed of a node and the free acts behind it, up to an arrive, and returns its place if it is
    /// new. Where it sees that these acts turn for ever, it adds none. It gives up with `TooMany` if there are then more
    /// states than the task allows, and fails if memory runs out.
    pub fn stride(
        &mut self,
        alloc: Global,
        sought: &Sought<'_>,
        place: usize,
        node: usize,
        deed: Deed,
    ) -> Result<Option<usize>, ExploreFault>
        requires ways { AreWays sought.now self.old }
        requires within { place < length self.old.states.keys }
        requires can { CanMakeAt sought.now.flat self.old.states.keys place node deed }
        ensures ways { OnOk result (AreWays sought.now self.new) }
        ensures grows { OnOk result (Grows self.old.states.keys self.new.states.keys) }
        ensures same { OnOk result (self.new.settled ≡ self.old.settled) }
        ensures found { IfOk result (IsFound sought.now.most self.old.states.keys
            self.new.states.keys) }
        ensures fails { IfErr result (MayFail sought.now) }
    {
        let mut next = self.after_at(alloc, sought, place, node, deed)?;
        let mut acts = copied(alloc, &[act_by(node, deed)])?;
        let mut spare = self.spare;
        let turns = go_along(alloc, sought, &mut next, &mut acts, &mut spare)?;
        self.spare = spare;
        if turns {
            return Ok(None);
        }
        next.renew(alloc, &sought.flat)?;
        let origin = Origin {
            parent: place,
            acts,
        };
        let added = self.keep(sought, next, origin)?;
        Ok(added)
    }

    // The state after a deed of a node.
    fn after_at(
        &self,
        alloc: Global,
        sought: &Sought<'_>,
        place: usize,
        node: usize,
        deed: Deed,
    ) -> Result<LazyState, AllocError>
        requires ways { AreWays sought.now self.now }
        requires within { place < length self.now.states.keys }
        requires can { CanMakeAt sought.now.flat self.now.states.keys place node deed }
        ensures { IfOk result (IsAfterAt sought.now self.now.states.keys place node deed) }
    {
        let next = self.states.as_slice()[place].after(alloc, &sought.flat, node, deed)?;
        Ok(next)
    }

    // Adds a state that was found so, and returns its place if it is new. It gives up if there are then too many.
    fn keep(
        &mut self,
        sought: &Sought<'_>,
        state: LazyState,
        origin: Origin,
    ) -> Result<Option<usize>, ExploreFault>
        requires ways { AreWays sought.now self.old }
        requires reached { IsReached sought.now.program.now sought.now.flat state
            (length self.old.states.keys) }
        requires comes { ComesFrom sought.now self.old.states.keys
            (length self.old.states.keys) origin state }
        ensures ways { OnOk result (AreWays sought.now self.new) }
        ensures grows { OnOk result (Grows self.old.states.keys self.new.states.keys) }
        ensures same { OnOk result (self.new.settled ≡ self.old.settled) }
        ensures has { OnOk result (HasKey self.new.states.keys state) }
        ensures found { IfOk result (IsFound sought.now.most self.old.states.keys
            self.new.states.keys) }
        ensures fails { IfErr result (MayFail sought.now) }
    {
        let added = self.put(sought, state, origin)?;
        if self.states.len() > sought.most {
            return Err(ExploreFault::TooMany);
        }
        Ok(added)
    }

    // Adds a state that was found so, and returns its place if it is new.
    fn put(
        &mut self,
        sought: &Sought<'_>,
        state: LazyState,
        origin: Origin,
    ) -> Result<Option<usize>, AllocError>
        requires kept { AreKept sought.now self.old }
        requires reached { IsReached sought.now.program.now sought.now.flat state
            (length self.old.states.keys) }
        requires comes { ComesFrom sought.now self.old.states.keys
            (length self.old.states.keys) origin state }
        ensures kept { OnOk result (AreKept sought.now self.new) }
        ensures grows { OnOk result (Grows self.old.states.keys self.new.states.keys) }
        ensures same { OnOk result (self.new.settled ≡ self.old.settled) }
        ensures has { OnOk result (HasKey self.new.states.keys state) }
        ensures found { IfOk result (IsPut self.old.states.keys self.new.states.keys) }
    {
        let _sought = sought;
        let (at, new) = self.states.insert_full(state)?;
        if !new {
            return Ok(None);
        }
        self.origins.push(origin)?;
        Ok(Some(at))
    }

    /// Notes that steps lead on from the state at a place. It fails if memory runs out.
    pub fn note_settled(&mut self, sought: &Sought<'_>, place: usize) -> Result<(), AllocError>
        requires ways { AreWays sought.now self.old }
        requires within { place < length self.old.states.keys }
        requires room { length self.old.settled.items < length self.old.states.keys }
        ensures ways { OnOk result (AreWays sought.now self.new) }
        ensures same { self.new.states ≡ self.old.states }
    {
        let _sought = sought;
        self.settled.push(place)?;
        Ok(())
    }

    /// Returns whether no node can act at a state, and it has these notes. It fails if memory runs out.
    pub fn is_end_with(
        &self,
        alloc: Global,
        sought: &Sought<'_>,
        place: usize,
        notes: &[Act],
    ) -> Result<bool, AllocError>
        requires ways { AreWays sought.now self.now }
        requires within { place < length self.now.states.keys }
        ensures { IfOk result (λ ends. IsTrue ends
            ↔ IsEndWith sought.now.flat self.now.states.keys place notes.now) }
    {
        let still = self.is_still_at(alloc, sought, place)?;
        Ok(still && self.has_notes_at(place, notes))
    }

    // Whether no node can act at a state.
    fn is_still_at(
        &self,
        alloc: Global,
        sought: &Sought<'_>,
        place: usize,
    ) -> Result<bool, AllocError>
        requires ways { AreWays sought.now self.now }
        requires within { place < length self.now.states.keys }
        ensures { IfOk result (λ still. IsTrue still
            ↔ IsStillAt sought.now.flat self.now.states.keys place) }
    {
        for node in 0..sought.flat.nodes as usize {
            let deeds = self.deeds_at(alloc, sought, place, node)?;
            if !deeds.is_empty() {
                return Ok(false);
            }
        }
        Ok(true)
    }

    // Whether a state has these notes.
    fn has_notes_at(&self, place: usize, notes: &[Act]) -> bool
        requires { place < length self.now.states.keys }
        ensures { IsTrue result ↔ HasNotesAt self.now.states.keys place notes.now }
    {
        self.states.as_slice()[place].notes.as_slice() == notes
    }

    /// Returns the acts that lead to a state. It fails if memory runs out.
    pub fn acts_to(
        &self,
        alloc: Global,
        sought: &Sought<'_>,
        place: usize,
    ) -> Result<Vec<Act>, AllocError>
        requires ways { AreWays sought.now self.now }
        requires within { place < length self.now.states.keys }
        ensures { IfOk result (λ acts. LeadTo sought.now self.now.states.keys acts.items place) }
    {
        let mut acts = Vec::new(alloc);
        let mut at = place;
        while at > 0 {
            let origin = &self.origins[at];
            push_back(alloc, &mut acts, &origin.acts)?;
            at = origin.parent;
        }
        acts.reverse();
        Ok(acts)
    }
}

// Appends acts, the last one first.
fn push_back(alloc: Global, acts: &mut Vec<Act>, more: &[Act]) -> Result<(), AllocError>
    ensures { OnOk result (acts.new.items ≡ acts.old.items ++ reverse more.now) }
{
    let mut turned = copied(alloc, more)?;
    turned.reverse();
    acts.extend_from_slice(&turned)
}
