// Lists of interval records.

ghost use Rattle.std.specs.Prelude.{◌≡◌, ◌<◌, ◌↔◌, AllPairs, IfOk, IsTrue, OnErr, OnOk, Some, [], ◌∷◌, ◌++◌, length, slice_get};
ghost use Rattle.std.specs.Option.{ForSome};
ghost use Rattle.std.specs.Cmp.{partial_equiv_from_equiv};
ghost use Rattle.std.specs.Cmp.Lexicographic.{pointwise};
ghost use Rattle.lrc_store.specs.Interval.{by_node, same_interval, same_intervals_equiv, last_interval};

use crate::interval::Interval;
use std::alloc::{AllocError, Global};
use std::marker::Model;

/// A list of intervals as one node sends it to another: strictly ascending by node, then index, so none occurs twice.
#[derive(Drop)]
pub struct Intervals {
    list: Vec<Interval>,
}

impl Model for Intervals {
    ghost use Rattle.std.specs.Prelude.{List, AllPairs, IsTrue};
    ghost use Rattle.lrc_store.specs.Interval.{IntervalRecord, by_node};

    ghost Value = { List IntervalRecord };

    ghost view = { λ i. i.list.items };

    ghost invariant = { λ i. AllPairs (λ a b. IsTrue (by_node a b)) i.list.items };
}

impl PartialEq for Intervals {
    ghost eq = { pointwise same_interval };

    ghost laws = { partial_equiv_from_equiv same_intervals_equiv };

    fn eq(&self, other: &Intervals) -> bool
        ensures eq { result ≡ pointwise same_interval self.now other.now }
        ensures same { IsTrue result ↔ (self.now ≡ other.now) }
    {
        self.as_slice() == other.as_slice()
    }
}

impl Eq for Intervals {
    ghost laws = { same_intervals_equiv };
}

impl Intervals {
    /// Returns an empty list of intervals.
    pub fn empty(alloc: Global) -> Self
        ensures { result ≡ [] }
    {
        Intervals {
            list: Vec::new(alloc),
        }
    }

    /// Returns a list of the given intervals, which ascend strictly by node, then index.
    pub fn from_ascending(list: Vec<Interval>) -> Self
        requires { AllPairs (λ a b. IsTrue (by_node a b)) list.items }
        ensures { result ≡ list.items }
    {
        Intervals { list }
    }

    /// Adds an interval that comes after all others by node, then index. It fails if memory runs out, and then nothing
    /// changes.
    pub fn push(&mut self, interval: Interval) -> Result<(), AllocError>
        requires above { ForSome (last_interval self.old) (λ last. IsTrue (by_node last interval)) }
        ensures ok { OnOk result (self.new ≡ self.old ++ interval ∷ []) }
        ensures err { OnErr result (self.new ≡ self.old) }
    {
        self.list.push(interval)?;
        Ok(())
    }

    /// Returns the number of intervals.
    pub fn len(&self) -> usize
        ensures count { result ≡ length self.now }
        ensures ascending { AllPairs (λ a b. IsTrue (by_node a b)) self.now }
    {
        self.list.len()
    }

    /// Returns whether there is no interval.
    pub fn is_empty(&self) -> bool
        ensures { IsTrue result ↔ (self.now ≡ []) }
    {
        self.list.is_empty()
    }

    /// Returns the interval at a place, counted from 0 in the order of nodes and indices.
    pub fn at(&self, place: usize) -> &Interval
        requires { place < length self.now }
        ensures { slice_get self.now place ≡ Some result.now }
    {
        &self.list[place]
    }

    /// Returns the intervals in order.
    pub fn as_slice(&self) -> &[Interval]
        ensures all { result.now ≡ self.now }
        ensures ascending { AllPairs (λ a b. IsTrue (by_node a b)) self.now }
    {
        self.list.as_slice()
    }

    /// Turns the list into a vector of the intervals, in order.
    pub fn into_vec(self) -> Vec<Interval>
        ensures all { result.items ≡ self }
        ensures ascending { AllPairs (λ a b. IsTrue (by_node a b)) self }
    {
        let Intervals { list } = self;
        list
    }

    /// Returns a copy of the list, with copies of its intervals. It fails if memory runs out.
    pub fn duplicate(&self) -> Result<Self, AllocError>
        ensures { IfOk result (λ intervals. intervals ≡ self.now) }
    {
        let mut list = Vec::with_capacity(*self.list.allocator(), self.list.len())?;
        for interval in &self.list {
            list.push(interval.duplicate()?)?;
        }
        Ok(Intervals { list })
    }
}
