// Interval records.

ghost use Rattle.std.specs.Prelude.{◌≡◌, ◌<◌, ◌≤◌, IfOk, length};
ghost use Rattle.lrc_time.specs.Time.{entry};

use lrc_page::Pages;
use lrc_time::Time;
use std::alloc::AllocError;
use std::marker::Model;

/// One interval of a node, as other nodes learn of it. It has the node, which is below the number of the stamp's
/// entries, and the pages that the node wrote in the interval. The stamp is the node's time just after it closed the
/// interval: its own entry there is the interval's index, at least 1.
#[derive(Drop)]
pub struct Interval {
    pub node: u8,
    pub stamp: Time,
    pub pages: Pages,
}

impl Model for Interval {
    ghost use Rattle.lrc_store.specs.Interval.{IntervalRecord, IsInterval};

    ghost Value = { IntervalRecord };

    ghost view = { λ i. record { node = i.node; stamp = i.stamp; pages = i.pages } };

    ghost invariant = { λ i.
        IsInterval (record { node = i.node; stamp = i.stamp; pages = i.pages }) };
}

impl PartialEq for Interval {
    ghost use Rattle.std.specs.Prelude.{◌≡◌, ◌↔◌, IsTrue};
    ghost use Rattle.std.specs.Cmp.Rules.{comparing};
    ghost use Rattle.std.proofs.Common.{rules};
    ghost use Rattle.lrc_store.specs.Interval.{same_interval};

    ghost eq = { same_interval };

    ghost laws = { Prim.search (comparing, rules) };

    fn eq(&self, other: &Interval) -> bool
        ensures eq { result ≡ same_interval self.now other.now }
        ensures same { IsTrue result ↔ (self.now ≡ other.now) }
    {
        self.node == other.node && self.stamp == other.stamp && self.pages == other.pages
    }
}

impl Eq for Interval {
    ghost use Rattle.std.specs.Cmp.Rules.{comparing};
    ghost use Rattle.std.proofs.Common.{rules};

    ghost laws = { Prim.search (comparing, rules) };
}

impl Interval {
    ghost use Rattle.lrc_store.specs.Interval.{IsInterval, index_of};
    ghost use Rattle.lrc_store.specs.Arena.{is_interval_at};
    ghost use Rattle.lrc_store.specs.Store.{is_covered};

    /// Returns the interval with the given node, stamp and pages.
    pub fn new(node: u8, stamp: Time, pages: Pages) -> Self
        requires counted { node < length stamp }
        requires begun { 1 ≤ entry stamp node }
        ensures { result ≡ record { node = node; stamp = stamp; pages = pages } }
    {
        // For the proof: the pages ascend, below `MOST_PAGES`.
        let _few = pages.len();
        Interval { node, stamp, pages }
    }

    /// Returns the interval's index: its number among those of its node, from 1.
    pub fn index(&self) -> u32
        ensures index { result ≡ index_of self.now }
        ensures interval { IsInterval self.now }
    {
        self.stamp.at(self.node)
    }

    /// Returns the interval's node.
    pub(crate) fn node(&self) -> u8
        ensures { result ≡ self.now.node }
    {
        self.node
    }

    /// Returns whether this is the given node's interval with the given index.
    pub(crate) fn is_at(&self, node: u8, index: u32) -> bool
        ensures { result ≡ is_interval_at node index self.now }
    {
        self.node == node && self.index() == index
    }

    /// Returns whether the time knows the interval. It knows no interval of a node that it has no entry for.
    pub(crate) fn is_known(&self, time: &Time) -> bool
        ensures { result ≡ is_covered time.now self.now }
    {
        self.node < time.nodes() && self.index() <= time.at(self.node)
    }

    /// Returns a copy of the interval. It fails if memory runs out.
    pub fn duplicate(&self) -> Result<Interval, AllocError>
        ensures { IfOk result (λ interval. interval ≡ self.now) }
    {
        Ok(Interval {
            node: self.node,
            stamp: self.stamp.copy(),
            pages: self.pages.duplicate()?,
        })
    }
}
