// Places that are reached, each once, in the order in which they are.

use std::alloc::{AllocError, Global};

/// Places that were reached: of each place whether it was, and those that were, in the order in which they were.
#[derive(Drop)]
pub struct Reached {
    pub is: Vec<bool>,
    pub places: Vec<usize>,
}

impl Reached {
    ghost use Rattle.std.specs.Prelude.{◌≡◌, ◌<◌, ℕ, Contains, IfOk, OnOk, length};
    ghost use Rattle.lrc_graph.specs.Reached.{Adds, AreListed, Has};

    /// No place of so many.
    pub(crate) fn none(alloc: Global, count: usize) -> Result<Reached, AllocError>
        ensures listed { IfOk result AreListed }
        ensures count { IfOk result (λ reached. length reached.is.items ≡ count) }
        ensures none { IfOk result (λ reached. (place : ℕ) → ¬ Has reached place) }
    {
        Ok(Reached {
            is: vec![in alloc; false; count]?,
            places: Vec::new(alloc),
        })
    }

    /// Adds a place, if it was not reached before.
    pub(crate) fn add(&mut self, place: usize) -> Result<(), AllocError>
        requires listed { AreListed self.old }
        requires within { place < length self.old.is.items }
        ensures listed { OnOk result (AreListed self.new) }
        ensures adds { OnOk result (Adds self.old self.new (λ p. p ≡ place)) }
    {
        if !self.is[place] {
            self.is[place] = true;
            self.places.push(place)?;
        }
        Ok(())
    }

    /// Adds those places that were not reached before.
    pub(crate) fn add_all(&mut self, places: &[usize]) -> Result<(), AllocError>
        requires listed { AreListed self.old }
        requires within { (place : ℕ) → Contains places.now place
            → place < length self.old.is.items }
        ensures listed { OnOk result (AreListed self.new) }
        ensures adds { OnOk result (Adds self.old self.new (Contains places.now)) }
    {
        for place in places {
            self.add(*place)?;
        }
        Ok(())
    }
}
