// The accesses of a run by lanes: those of one node to one word.

ghost use Rattle.std.specs.Prelude.{◌≡◌, ◌<◌, IfOk, length, slice_index, unwrap_or};
ghost use Rattle.std.specs.BTreeMap.{get};
ghost use Rattle.lrc_why.specs.Deeds.{word_accessed};
ghost use Rattle.lrc_why.specs.Lanes.{AreLanes, lane_cmp, lane_of};

use crate::positions::accessed;
use lrc_trace::act::{Act, Deed};
use std::alloc::{AllocError, Global};
use std::collections::BTreeMap;

/// The accesses of one node to one word.
#[derive(Clone, Copy, PartialEq, Eq, PartialOrd, Ord)]
pub struct Lane {
    pub word: u32,
    pub node: u8,
}

/// Of each lane its first access, and of each access the next one of its lane.
#[derive(Drop)]
pub struct Lanes {
    firsts: BTreeMap<Lane, usize>,
    nexts: Vec<usize>,
}

/// Returns a node's lane of the word that a deed accesses, if it is an access.
pub(crate) fn lane_of(node: u8, deed: Deed) -> Option<Lane>
    ensures { result ≡ lane_of node (word_accessed deed) }
{
    let word = accessed(deed)?;
    Some(Lane { word, node })
}

// The first access of a lane so far, or the end.
fn first_or(firsts: &BTreeMap<Lane, usize>, lane: Lane, end: usize) -> usize
    ensures { result ≡ unwrap_or (get lane_cmp firsts.now lane) end }
{
    match firsts.get(&lane) {
        Some(first) => *first,
        None => end,
    }
}

/// Returns the accesses of a run by lanes. It fails if memory runs out.
pub fn lanes_of(alloc: Global, acts: &[Act]) -> Result<Lanes, AllocError>
    ensures { IfOk result (AreLanes acts.now) }
{
    let end = acts.len();
    let mut firsts = BTreeMap::new(alloc);
    let mut nexts = vec![in alloc; end; end]?;
    for k in (0..end).rev() {
        if let Some(lane) = lane_of(acts[k].node, acts[k].deed) {
            nexts[k] = first_or(&firsts, lane, end);
            firsts.insert(lane, k)?;
        }
    }
    Ok(Lanes { firsts, nexts })
}

impl Lanes {
    /// Returns the position of the first access of a lane, or the end of a run of so many acts.
    pub(crate) fn first(&self, lane: Lane, end: usize) -> usize
        ensures { result ≡ unwrap_or (get lane_cmp self.now.firsts lane) end }
    {
        first_or(&self.firsts, lane, end)
    }

    /// Returns the position of the next access of the lane of the access at a position.
    pub(crate) fn next(&self, k: usize) -> usize
        requires { k < length self.now.nexts.items }
        ensures { result ≡ slice_index self.now.nexts.items k }
    {
        self.nexts[k]
    }
}
