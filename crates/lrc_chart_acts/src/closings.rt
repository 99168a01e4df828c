// The acts that close an interval, by nodes, and how many of them are known at an act.

ghost use Rattle.std.specs.Prelude.{◌≡◌, ◌<◌, ◌+◌, ◌∷◌, ◌++◌, ◌==◌, ◌&&◌, [], IfOk, OnOk, count_by, if◌then◌else◌, length, map};
ghost use Rattle.std.specs.List.Sorted.{IsPartitionedBy};
ghost use Rattle.lrc_judge.specs.Order.{IsOrderOf};
ghost use Rattle.lrc_trace.specs.Interval.{closes};
ghost use Rattle.lrc_chart_acts.specs.Times.{all_closings, closings, count_closed, is_known};

use lrc_judge::order::Order;
use lrc_trace::act::{Act, Deed};
use std::alloc::{AllocError, Global};

// Whether an act closes an interval of the node.
fn is_closing(act: Act, node: u8) -> bool
    ensures { result ≡ ((act.node == node) && closes act.deed) }
{
    act.node == node && matches!(act.deed, Deed::Acquire(_) | Deed::Release(_) | Deed::Arrive)
}

fn push_if(found: &mut Vec<usize>, k: usize, is_wanted: bool) -> Result<(), AllocError>
    ensures { OnOk result (found.new.items
        ≡ found.old.items ++ (if is_wanted then k ∷ [] else [])) }
{
    if is_wanted {
        found.push(k)?;
    }
    Ok(())
}

// The positions of the node's acts that close an interval, in order.
fn closings_of(alloc: Global, acts: &[Act], node: u8) -> Result<Vec<usize>, AllocError>
    ensures { IfOk result (λ found. found.items ≡ closings acts.now node) }
{
    let mut found = Vec::new(alloc);
    for (k, act) in acts.iter().enumerate() {
        push_if(&mut found, k, is_closing(*act, node))?;
    }
    Ok(found)
}

fn push_closings(
    alloc: Global,
    all: &mut Vec<Vec<usize>>,
    acts: &[Act],
    node: u8,
) -> Result<(), AllocError>
    ensures { OnOk result (map (λ found. found.items) all.new.items
        ≡ map (λ found. found.items) all.old.items ++ closings acts.now node ∷ []) }
{
    all.push(closings_of(alloc, acts, node)?)?;
    Ok(())
}

/// Returns for each node the positions of its acts that close an interval, in order. It fails if memory runs out.
pub(crate) fn all_closings(
    alloc: Global,
    acts: &[Act],
    nodes: u8,
) -> Result<Vec<Vec<usize>>, AllocError>
    ensures { IfOk result (λ all. map (λ found. found.items) all.items
        ≡ all_closings acts.now nodes) }
{
    let mut all = Vec::new(alloc);
    for node in 0..nodes {
        push_closings(alloc, &mut all, acts, node)?;
    }
    Ok(all)
}

// Whether the act at k is known at a position or stands there.
fn is_known(order: &Order, position: usize, k: usize) -> bool
    ensures { result ≡ is_known order.now position k }
{
    k == position || order.is_before(k, position)
}

// How many of these positions are so, where those that are stand first.
fn count_known(order: &Order, found: &[usize], position: usize) -> usize
    requires { IsPartitionedBy (is_known order.now position) found.now }
    ensures { result ≡ count_by (is_known order.now position) found.now }
{
    found.partition_point(
        |k: &usize| -> bool
            ensures { result ≡ is_known order.entry.now position k.now }
        { is_known(order, position, *k) },
    )
}

/// Returns how many acts of a node close an interval, and are known at a position or stand there.
pub(crate) fn count_closed(
    order: &Order,
    acts: &[Act],
    closings: &[Vec<usize>],
    position: usize,
    node: u8,
) -> u32
    requires order { IsOrderOf acts.now order.now }
    requires closings { map (λ found. found.items) closings.now
        ≡ all_closings acts.now (length closings.now) }
    requires node { node < length closings.now }
    requires position { position < length acts.now }
    requires few { position < 4294967295 }
    ensures { result ≡ count_closed order.now acts.now position node (position + 1) }
{
    let found = closings[usize::from(node)].as_slice();
    count_known(order, found, position) as u32
}
