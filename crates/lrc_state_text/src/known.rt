// The intervals of a node that were shown before.

ghost use Rattle.std.specs.Prelude.{◌≡◌, ◌<◌, ◌∷◌, ◌++◌, [], IfOk, OnOk, is_some};
ghost use Rattle.std.specs.List.{position};
ghost use Rattle.lrc_state_text.specs.Intervals.{is_at, is_known, is_same, not_known, stored_in};

use crate::stored::{StoredInterval, stored_in};
use lrc_node::NodeState;
use std::alloc::{AllocError, Global};
use std::marker::Model;

/// The intervals of a node that were shown before, with the changes that they had then.
#[derive(Drop)]
pub struct Known {
    list: Vec<StoredInterval>,
}

impl Model for Known {
    ghost use Rattle.std.specs.Prelude.{List};
    ghost use Rattle.lrc_state_text.specs.Intervals as intervals;

    ghost Value = { List intervals.StoredInterval };

    ghost view = { λ known. known.list.items };
}

impl Known {
    /// Returns the value for a node of which no interval was shown.
    pub fn none(alloc: Global) -> Self
        ensures { result ≡ [] }
    {
        Known {
            list: Vec::new(alloc),
        }
    }

    /// Returns the value after every interval that this state stores was shown.
    pub fn of(alloc: Global, state: &NodeState<'_>) -> Result<Self, AllocError>
        ensures { IfOk result (λ known. known ≡ stored_in state.now.memory) }
    {
        let list = all_stored(alloc, state)?;
        Ok(Known { list })
    }

    // Whether an interval stands at a place with these changes.
    fn is_at(&self, place: usize, stored: &StoredInterval) -> bool
        ensures { result ≡ is_at self.now place stored.now }
    {
        match self.list.get(place) {
            Some(known) => stored.is_same(known),
            None => false,
        }
    }

    // The first place at which an interval stands with these changes.
    fn first_place(&self, stored: &StoredInterval) -> Option<usize>
        ensures { result ≡ position (is_same stored.now) self.now }
    {
        self.list.iter().position(|known| stored.is_same(known))
    }

    // A place at which an interval stands with these changes, if there is one. The given place is looked at first.
    fn place_of(&self, likely: usize, stored: &StoredInterval) -> Option<usize>
        ensures { is_some result ≡ is_known self.now stored.now }
    {
        if self.is_at(likely, stored) {
            return Some(likely);
        }
        self.first_place(stored)
    }

    // Adds a copy of an interval to others, unless it was shown with these changes. Returns at which place the next one is
    // likely to have been shown.
    fn push_new(
        &self,
        found: &mut Vec<StoredInterval>,
        likely: usize,
        stored: &StoredInterval,
    ) -> Result<usize, AllocError>
        ensures { OnOk result (found.new.items
            ≡ found.old.items ++ not_known self.now (stored.now ∷ [])) }
    {
        match self.place_of(likely, stored) {
            Some(place) => Ok(place.saturating_add(1)),
            None => {
                found.push(stored.duplicate(*found.allocator())?)?;
                Ok(likely)
            }
        }
    }

    // Copies of those of these intervals that were not shown before, or that have other changes now.
    fn new_among(
        &self,
        alloc: Global,
        all: &[StoredInterval],
    ) -> Result<Vec<StoredInterval>, AllocError>
        ensures { IfOk result (λ found. found.items ≡ not_known self.now all.now) }
    {
        let mut found = Vec::new(alloc);
        let mut likely = 0;
        for stored in all {
            likely = self.push_new(&mut found, likely, stored)?;
        }
        Ok(found)
    }

    /// Returns the intervals of a state that were not shown before, or that have other changes now.
    pub(crate) fn new_in(
        &self,
        alloc: Global,
        state: &NodeState<'_>,
    ) -> Result<Vec<StoredInterval>, AllocError>
        ensures { IfOk result (λ found. found.items
            ≡ not_known self.now (stored_in state.now.memory)) }
    {
        let all = all_stored(alloc, state)?;
        self.new_among(alloc, &all)
    }

    /// Returns the intervals of a state that were not shown before, or that have other changes now. From then on all that
    /// the state stores were shown.
    pub(crate) fn renew(
        &mut self,
        alloc: Global,
        state: &NodeState<'_>,
    ) -> Result<Vec<StoredInterval>, AllocError>
        ensures found { IfOk result (λ found. found.items
            ≡ not_known self.old (stored_in state.now.memory)) }
        ensures known { OnOk result (self.new ≡ stored_in state.now.memory) }
    {
        let all = all_stored(alloc, state)?;
        let found = self.new_among(alloc, &all)?;
        self.list = all;
        Ok(found)
    }
}

// All intervals that are stored in a state.
fn all_stored(alloc: Global, state: &NodeState<'_>) -> Result<Vec<StoredInterval>, AllocError>
    ensures { IfOk result (λ stored. stored.items ≡ stored_in state.now.memory) }
{
    // For the proof: the node is one of its nodes.
    let _here = state.me();
    stored_in(alloc, state.memory(), state.nodes(), state.pages())
}
