// Settling the nodes of a state.

ghost use Rattle.std.specs.Prelude.{◌≡◌, ◌<◌, ◌≤◌, ◌⊎◌, ◌++◌, ℕ, MatchOption, IfOk, OnOk, length, true, false, slice_index_or, slice_set, None};
ghost use Rattle.lrc_exec.specs.Plain.{thread_in, with_thread};
ghost use Rattle.lrc_exec.specs.Spots.{spot_thread, IsFlat};
ghost use Rattle.lrc_exec.specs.States.{plain_at, IsStateOf};
ghost use Rattle.lrc_orders_laws.specs.Settling.{IsSettledAt};
ghost use Rattle.lrc_orders_settling.specs.Settling.{MakesFree};
ghost use Rattle.lrc_orders_settling.specs.Gone.{HasSettled, IsSettledSpot, NodeSettles, acts_by, freed, freed_by, kept_spot};

use crate::settling::{Settling, settle_thread};
use lrc_exec::spot::{Flat, Spot};
use lrc_exec::state::State;
use lrc_trace::act::{Act, Deed};
use std::alloc::{AllocError, Global};

// A settled thread, and the deeds by which it came there.
#[derive(Drop)]
struct Settled {
    spot: Spot,
    deeds: Vec<Deed>,
}

/// Settles the nodes from `first` on and below `last`; the other nodes must be settled. It appends the acts of the
/// nodes to `acts`. It returns false if a node makes so many free acts that the limit `most` is reached. It fails if
/// memory runs out.
pub fn settle(
    alloc: Global,
    flat: &Flat,
    state: &mut State,
    first: usize,
    last: usize,
    most: u64,
    acts: &mut Vec<Act>,
) -> Result<bool, AllocError>
    requires flat { IsFlat flat.now }
    requires state { IsStateOf flat.now state.old }
    requires within { last ≤ length state.old.spots.items }
    requires others { (node : ℕ) → (node < first) ⊎ (last ≤ node)
        → IsSettledAt (plain_at flat.now state.old) node }
    ensures state { OnOk result (IsStateOf flat.now state.new) }
    ensures settled { IfOk result (λ done. done ≡ true
        → HasSettled flat.now state.old state.new acts.old.items acts.new.items) }
    ensures open { IfOk result (λ done. done ≡ false
        → (node : ℕ) × MakesFree most (thread_in (plain_at flat.now state.old) node)) }
{
    for node in first..last {
        if !settle_node(alloc, flat, state, node, most, acts)? {
            return Ok(false);
        }
    }
    Ok(true)
}

// Settles a node.
fn settle_node(
    alloc: Global,
    flat: &Flat,
    state: &mut State,
    node: usize,
    most: u64,
    acts: &mut Vec<Act>,
) -> Result<bool, AllocError>
    requires flat { IsFlat flat.now }
    requires state { IsStateOf flat.now state.old }
    requires within { node < length state.old.spots.items }
    ensures state { OnOk result (IsStateOf flat.now state.new) }
    ensures settled { IfOk result (λ done. done ≡ true
        → NodeSettles flat.now state.old node state.new acts.old.items acts.new.items) }
    ensures open { IfOk result (λ done. done ≡ false
        → MakesFree most (thread_in (plain_at flat.now state.old) node)) }
{
    let Some(settled) = settled_spot(alloc, flat, &state.spots[node], most)? else {
        return Ok(false);
    };
    let _nodes = flat.nodes;
    put_acts(acts, node as u8, &settled.deeds)?;
    put_spot(flat, state, node, settled.spot);
    give_back(&mut state.holders, &settled.deeds);
    Ok(true)
}

// Where a thread settles; none, where it makes as many free acts as are to be looked at.
fn settled_spot(
    alloc: Global,
    flat: &Flat,
    spot: &Spot,
    most: u64,
) -> Result<Option<Settled>, AllocError>
    requires flat { IsFlat flat.now }
    requires within { spot.now.place ≤ length flat.now.code.now }
    ensures { IfOk result (λ settled. MatchOption settled
        (MakesFree most (spot_thread flat.now spot.now)) (IsSettledSpot flat.now spot.now)) }
{
    match settle_thread(alloc, flat, spot, most)? {
        Settling::Waits(there, deeds) => Ok(Some(Settled { spot: there, deeds })),
        Settling::Turns(there, deeds) => Ok(Some(Settled { spot: there, deeds })),
        Settling::Open => Ok(None),
    }
}

// A node's thread is this one now.
fn put_spot(flat: &Flat, state: &mut State, node: usize, spot: Spot)
    requires state { IsStateOf flat.now state.old }
    requires within { node < length state.old.spots.items }
    requires placed { spot.place ≤ length flat.now.code.now }
    requires number { spot.stopped ≡ false → spot.me
        ≡ (slice_index_or state.old.spots.items node spot).me }
    ensures state { IsStateOf flat.now state.new }
    ensures put { plain_at flat.now state.new
        ≡ with_thread (plain_at flat.now state.old) node (spot_thread flat.now spot) }
{
    let _flat = flat;
    let me = state.spots[node].me;
    state.spots[node] = kept_spot(spot, me);
}

/// Returns what is kept of a thread: of a node that has stopped nothing but its number, so that states do not differ by
/// what it knew.
pub fn kept_spot(spot: Spot, me: u8) -> Spot
    ensures { result ≡ kept_spot spot me }
{
    if spot.stopped {
        Spot {
            me,
            place: 0,
            privates: [0; 32],
            held: [false; 64],
            arrived: false,
            stopped: true,
        }
    } else {
        spot
    }
}

/// Frees the locks that these deeds give back.
#[tactic(auto, using(crate::proofs::Parts::freed_more))]
pub fn give_back(holders: &mut Vec<Option<usize>>, deeds: &[Deed])
    ensures { holders.new.items ≡ freed deeds.now holders.old.items }
{
    for deed in deeds {
        free_by(holders, *deed);
    }
}

// The lock that a deed gives back is free now.
fn free_by(holders: &mut Vec<Option<usize>>, deed: Deed)
    ensures { holders.new.items ≡ freed_by deed holders.old.items }
{
    if let Deed::Release(lock) = deed {
        free(holders, lock as usize);
    }
}

// A lock is free now, if there is one of this number.
fn free(holders: &mut Vec<Option<usize>>, lock: usize)
    ensures { holders.new.items ≡ slice_set holders.old.items lock None }
{
    if lock < holders.len() {
        holders[lock] = None;
    }
}

// Puts the acts of a node that are these deeds behind others.
fn put_acts(acts: &mut Vec<Act>, node: u8, deeds: &[Deed]) -> Result<(), AllocError>
    ensures { OnOk result (acts.new.items ≡ acts.old.items ++ acts_by node deeds.now) }
{
    for deed in deeds {
        acts.push(Act { node, deed: *deed })?;
    }
    Ok(())
}
