// A graph, and the places from which edges lead to some of its places.

ghost use Rattle.std.specs.Prelude.{◌≡◌, ◌↔◌, ℕ, false, true, IfOk, length, slice_index_or};
ghost use Rattle.lrc_graph.specs.Reached.{AreListed, Has};

use crate::reached::Reached;
use std::alloc::{AllocError, Global};

/// A graph of places 0, 1, .., with edges between them. Of each place it has those from which an edge leads to it.
#[derive(Drop)]
pub struct Graph {
    pub before: Vec<Vec<usize>>,
}

impl Graph {
    ghost use Rattle.std.specs.Prelude.{◌≡◌, ◌<◌, ◌≤◌, ◌⊎◌, ◌↔◌, ℕ, false, true, IfOk, OnOk, length, slice_index_or};
    ghost use Rattle.lrc_graph.specs.Graph.{HasEdge, IsWithin, LeadsToSome, place_count};

    /// Makes a graph without places.
    pub fn new(alloc: Global) -> Graph
        ensures count { place_count result ≡ 0 }
        ensures edges { (from to : ℕ) → ¬ HasEdge result from to }
    {
        Graph {
            before: Vec::new(alloc),
        }
    }

    /// Adds places without edges until there are so many. It fails if memory runs out.
    pub fn widen(&mut self, alloc: Global, count: usize) -> Result<(), AllocError>
        requires { place_count self.old ≤ count }
        ensures count { OnOk result (place_count self.new ≡ count) }
        ensures edges { OnOk result ((from to : ℕ) → (HasEdge self.new from to
            ↔ HasEdge self.old from to)) }
    {
        while self.before.len() < count {
            self.before.push(Vec::new(alloc))?;
        }
        Ok(())
    }

    /// Adds an edge from a place to another. It fails if memory runs out.
    pub fn link(&mut self, from: usize, to: usize) -> Result<(), AllocError>
        requires { to < place_count self.old }
        ensures count { OnOk result (place_count self.new ≡ place_count self.old) }
        ensures edges { OnOk result ((a b : ℕ) → (HasEdge self.new a b
            ↔ (HasEdge self.old a b ⊎ ((a ≡ from) × (b ≡ to))))) }
    {
        self.before[to].push(from)?;
        Ok(())
    }

    /// Returns of each place whether edges lead from it to one of the places at which `ends` says yes. It fails if
    /// memory runs out.
    pub fn leading_to(&self, alloc: Global, ends: &[bool]) -> Result<Vec<bool>, AllocError>
        requires within { IsWithin self.now }
        requires ends { length ends.now ≡ place_count self.now }
        ensures count { IfOk result (λ leading. length leading.items ≡ place_count self.now) }
        ensures exact { IfOk result (λ leading. (from : ℕ)
            → ((slice_index_or leading.items from false ≡ true)
            ↔ LeadsToSome self.now ends.now from)) }
    {
        let mut reached = reached_ends(alloc, ends)?;
        let mut at = 0;
        while at < reached.places.len() {
            let place = reached.places[at];
            reached.add_all(&self.before[place])?;
            at += 1;
        }
        Ok(reached.is)
    }
}

// The places at which a table says yes.
fn reached_ends(alloc: Global, ends: &[bool]) -> Result<Reached, AllocError>
    ensures listed { IfOk result AreListed }
    ensures count { IfOk result (λ reached. length reached.is.items ≡ length ends.now) }
    ensures exact { IfOk result (λ reached. (place : ℕ)
        → (Has reached place ↔ (slice_index_or ends.now place false ≡ true))) }
{
    let mut reached = Reached::none(alloc, ends.len())?;
    for place in 0..ends.len() {
        if ends[place] {
            reached.add(place)?;
        }
    }
    Ok(reached)
}
