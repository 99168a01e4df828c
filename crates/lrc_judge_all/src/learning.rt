// What a node knows of the writes, as it goes on.

ghost use Rattle.std.specs.Prelude.{◌≡◌, ◌+◌, ◌<◌, ◌≤◌, ℕ, List, All, IfOk, OnOk, MatchBool, length, slice_index};
ghost use Rattle.lrc_trace.specs.declared.act.Act.{Act};
ghost use Rattle.lrc_trace.specs.declared.act.Deed.{Deed};
ghost use Rattle.lrc_trace.specs.Run.{Does};
ghost use Rattle.lrc_judge.specs.declared.TheConstants.{NODES};
ghost use Rattle.lrc_judge.specs.Order.{IsOrderOf};
ghost use Rattle.lrc_judge_all.specs.Known.{IsBatch, IsGathered, IsReader, IsWriteOf, Knows};

use crate::kept::note_all;
use crate::reader::Reader;
use lrc_judge::NODES;
use lrc_judge::order::Order;
use lrc_trace::act::{Act, Deed};
use std::alloc::{AllocError, Global};
use std::collections::BTreeMap;

/// Returns what is known at the start, which is nothing.
pub(crate) fn nothing_known(alloc: Global) -> Reader
    ensures { (run : List Act) (node : ℕ) → IsReader run node 0 result }
{
    Reader {
        next: [0; NODES],
        words: BTreeMap::new(alloc),
    }
}

// Whether the node writes at this position.
fn is_write_of(acts: &[Act], node: usize, position: usize) -> bool
    requires { position < length acts.now }
    ensures { MatchBool result (IsWriteOf acts.now node position)
        (¬ IsWriteOf acts.now node position) }
{
    let act = acts[position];
    usize::from(act.node) == node && matches!(act.deed, Deed::Write(_, _))
}

// Adds the node's writes from a position on, up to the first that does not happen before the position, and returns
// where that one is, or the end of the run.
fn gather(
    batch: &mut Vec<usize>,
    order: &Order,
    acts: &[Act],
    node: usize,
    from: usize,
    position: usize,
) -> Result<usize, AllocError>
    requires { from ≤ length acts.now }
    ensures { IfOk result (λ end. IsGathered order.now acts.now node position from end
        batch.old.items batch.new.items) }
{
    for k in from..acts.len() {
        if is_write_of(acts, node, k) {
            if !order.is_before(k, position) {
                return Ok(k);
            }
            batch.push(k)?;
        }
    }
    Ok(acts.len())
}

// Moves on behind the writes that happen before the position, and returns those that were passed, ascending.
fn newly_known(
    alloc: Global,
    next: &mut [usize; NODES],
    order: &Order,
    acts: &[Act],
    position: usize,
) -> Result<Vec<usize>, AllocError>
    requires { (node : ℕ) → node < NODES → slice_index next.old node ≤ length acts.now }
    ensures { IfOk result (λ batch. IsBatch order.now acts.now position next.old next.new
        batch.items) }
{
    let mut batch = Vec::new(alloc);
    for node in 0..NODES {
        next[node] = gather(&mut batch, order, acts, node, next[node], position)?;
    }
    batch.sort_unstable();
    batch.dedup();
    Ok(batch)
}

/// Takes in the writes that happen before a position, at which this node acts. It fails if memory runs out.
pub(crate) fn learn(
    alloc: Global,
    reader: &mut Reader,
    order: &Order,
    acts: &[Act],
    position: usize,
) -> Result<(), AllocError>
    requires order { IsOrderOf acts.now order.now }
    requires nodes { All (λ act. act.node < NODES) acts.now }
    requires within { position < length acts.now }
    requires known { (node : ℕ) (deed : Deed) → Does acts.now position node deed → IsReader acts.now node position reader.old }
    ensures known { OnOk result (Knows acts.now position reader.new.words) }
    ensures reader { OnOk result ((node : ℕ) (deed : Deed) → Does acts.now position node deed
        → IsReader acts.now node (position + 1) reader.new) }
{
    let batch = newly_known(alloc, &mut reader.next, order, acts, position)?;
    note_all(alloc, &mut reader.words, order, acts, batch.as_slice())?;
    Ok(())
}
