// The places of one node's intervals.

ghost use Rattle.std.specs.Prelude.{◌≡◌, ◌<◌, ◌≤◌, OnOk, [], ◌∷◌, ◌++◌, length, reverse, slice_get};

use std::alloc::{AllocError, Global};
use std::marker::Model;

/// The places of one node's intervals, oldest first.
#[derive(Drop)]
pub(crate) struct NodePlaces {
    places: Vec<u32>,
}

impl Model for NodePlaces {
    ghost use Rattle.std.specs.Prelude.{vec_capacity};
    ghost use Rattle.lrc_store.specs.Rows.{RowRecord};

    ghost Value = { RowRecord };

    ghost view = { λ r. record { places = r.places.items; room = vec_capacity r.places } };
}

impl NodePlaces {
    /// Returns an empty row.
    pub(crate) fn new(alloc: Global) -> Self
        ensures { result.places ≡ [] }
    {
        NodePlaces {
            places: Vec::new(alloc),
        }
    }

    /// Makes room for one more place. It fails if memory runs out, and then no place changes.
    pub(crate) fn reserve(&mut self) -> Result<(), AllocError>
        ensures places { self.new.places ≡ self.old.places }
        ensures ok { OnOk result (length self.old.places < self.new.room) }
    {
        self.places.reserve(1)
    }

    /// Adds a place. There is room for it.
    pub(crate) fn push(&mut self, place: u32)
        requires { length self.old.places < self.old.room }
        ensures places { self.new.places ≡ self.old.places ++ place ∷ [] }
        ensures room { self.old.room ≤ self.new.room }
    {
        let Ok(()) = self.places.push(place) else {
            unreachable!();
        };
    }

    /// Removes all places, but keeps their room.
    pub(crate) fn clear(&mut self)
        ensures places { self.new.places ≡ [] }
        ensures room { self.old.room ≤ self.new.room }
        ensures fits { length self.old.places ≤ self.new.room }
    {
        // For the proof: there are no more places than their room.
        let _count = self.places.len();
        self.places.clear();
    }

    /// Returns the place that `back` more places follow, or none if there is none.
    pub(crate) fn from_last(&self, back: u32) -> Option<u32>
        ensures { result ≡ slice_get (reverse self.now.places) back }
    {
        let count = self.places.len();
        let back = back as usize;
        if back < count {
            Some(self.places[count - 1 - back])
        } else {
            None
        }
    }
}
