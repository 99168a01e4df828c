// Steps from a settled state.

ghost use Rattle.std.specs.Prelude.{◌≡◌, ◌<◌, ◌-◌, ◌^◌, ◌↔◌, ◌++◌, ◌&&◌, ℕ, MatchOption, IfOk, OnOk, IsTrue, Some, length, option_map, true, false, not, slice_index, map};
ghost use Rattle.lrc_trace.specs.declared.act.Deed.{Deed as DeedType};
ghost use Rattle.lrc_exec.specs.Plain.{Plain, plain_step};
ghost use Rattle.lrc_exec.specs.Spots.{IsFlat};
ghost use Rattle.lrc_exec.specs.States.{plain_at, IsStateOf};
ghost use Rattle.lrc_orders_laws.specs.Free.{is_contended};
ghost use Rattle.lrc_orders_laws.specs.Rows.{AreAlike};
ghost use Rattle.lrc_orders_laws.specs.Settling.{IsSettled};
ghost use Rattle.lrc_orders_laws.specs.Steps.{AllWait};
ghost use Rattle.lrc_orders_settling.specs.Taking.{ComputesLong, HasTaken, HaveDeparted, IsCounted, count_of};

use crate::settle::settle;
use lrc_exec::spot::{Flat, Spot};
use lrc_exec::state::State;
use lrc_trace::act::{Act, Deed};
use std::alloc::{AllocError, Global};

/// A step from one settled state to the next.
#[derive(Clone, Copy, PartialEq, Eq)]
pub enum Step {
    /// A read, a write or an acquire of this node.
    Alone(u8),
    /// The departs of all nodes.
    Together,
}

/// Returns the read, the write or the acquire that a node can make now, or none.
pub fn contended_deed(flat: &Flat, state: &State, node: usize) -> Option<Deed>
    requires flat { IsFlat flat.now }
    requires state { IsStateOf flat.now state.now }
    ensures { MatchOption result
        ((deed : DeedType) (after : Plain)
        → plain_step (plain_at flat.now state.now) node ≡ Some (deed, after)
        → is_contended deed ≡ false)
        (λ deed. (is_contended deed ≡ true)
        × (option_map (λ step. step.0) (plain_step (plain_at flat.now state.now) node)
        ≡ Some deed)) }
{
    let deed = state.next_deed(flat, node)?;
    if is_contended(deed) { Some(deed) } else { None }
}

// Whether a deed is a read, a write or an acquire.
fn is_contended(deed: Deed) -> bool
    ensures { result ≡ is_contended deed }
{
    matches!(deed, Deed::Read(..) | Deed::Write(..) | Deed::Acquire(_))
}

/// Returns whether every node has arrived and none has departed.
pub fn all_wait(flat: &Flat, state: &State) -> bool
    ensures { IsTrue result ↔ AllWait (plain_at flat.now state.now) }
{
    let _flat = flat;
    for node in 0..state.spots.len() {
        if !waits(&state.spots[node]) {
            return false;
        }
    }
    true
}

// Whether a thread has arrived and not departed.
fn waits(spot: &Spot) -> bool
    ensures { result ≡ (not spot.now.stopped && spot.now.arrived) }
{
    !spot.stopped && spot.arrived
}

/// Takes the step of one node with this deed, and appends its acts to `acts`. It returns false if the node then makes
/// so many free acts that the limit `most` is reached. It fails if memory runs out.
pub fn take_alone(
    alloc: Global,
    flat: &Flat,
    state: &mut State,
    node: usize,
    deed: Deed,
    most: u64,
    acts: &mut Vec<Act>,
) -> Result<bool, AllocError>
    requires flat { IsFlat flat.now }
    requires state { IsStateOf flat.now state.old }
    requires counted { IsCounted state.old }
    requires settled { IsSettled (plain_at flat.now state.old) }
    requires contended { is_contended deed ≡ true }
    requires can { option_map (λ step. step.0) (plain_step (plain_at flat.now state.old) node)
        ≡ Some deed }
    ensures state { OnOk result (IsStateOf flat.now state.new) }
    ensures taken { IfOk result (λ done. done ≡ true
        → HasTaken flat.now state.old (Step.Alone node) state.new acts.old.items acts.new.items) }
    ensures open { IfOk result (λ done. done ≡ false
        → ComputesLong (plain_at flat.now state.old) most) }
{
    let _nodes = flat.nodes;
    acts.push(Act {
        node: node as u8,
        deed,
    })?;
    state.make(flat, node, deed);
    settle(alloc, flat, state, node, node + 1, most, acts)
}

/// Takes the step of all nodes; all must have arrived. It appends the acts to `acts`. It returns false if a node then
/// makes so many free acts that the limit `most` is reached. It fails if memory runs out.
pub fn take_together(
    alloc: Global,
    flat: &Flat,
    state: &mut State,
    most: u64,
    acts: &mut Vec<Act>,
) -> Result<bool, AllocError>
    requires flat { IsFlat flat.now }
    requires state { IsStateOf flat.now state.old }
    requires counted { IsCounted state.old }
    requires wait { AllWait (plain_at flat.now state.old) }
    ensures state { OnOk result (IsStateOf flat.now state.new) }
    ensures taken { IfOk result (λ done. done ≡ true
        → HasTaken flat.now state.old Step.Together state.new acts.old.items acts.new.items) }
    ensures open { IfOk result (λ done. done ≡ false
        → ComputesLong (plain_at flat.now state.old) most) }
{
    depart(flat, state, acts)?;
    let nodes = state.spots.len();
    settle(alloc, flat, state, 0, nodes, most, acts)
}

// All nodes depart, one after another.
fn depart(flat: &Flat, state: &mut State, acts: &mut Vec<Act>) -> Result<(), AllocError>
    requires flat { IsFlat flat.now }
    requires state { IsStateOf flat.now state.old }
    requires counted { IsCounted state.old }
    requires wait { AllWait (plain_at flat.now state.old) }
    ensures state { OnOk result (IsStateOf flat.now state.new) }
    ensures departed { OnOk result (HaveDeparted flat.now state.old state.new acts.old.items
        acts.new.items) }
{
    let _nodes = flat.nodes;
    for node in 0..state.spots.len() {
        acts.push(Act {
            node: node as u8,
            deed: Deed::Depart,
        })?;
        state.make(flat, node, Deed::Depart);
    }
    Ok(())
}

/// Resets how often the nodes of a state have arrived: 1 for a node that waits at a barrier, 0 for any other. So states
/// that go on alike become equal. It fails if memory runs out.
pub fn count(flat: &Flat, state: &mut State) -> Result<(), AllocError>
    requires { IsStateOf flat.now state.old }
    ensures state { OnOk result (IsStateOf flat.now state.new) }
    ensures counted { OnOk result (IsCounted state.new) }
    ensures alike { OnOk result (AreAlike (plain_at flat.now state.new)
        (plain_at flat.now state.old)) }
{
    let _flat = flat;
    count_spots(&mut state.arrivals, &state.spots)
}

// How often nodes have arrived: once where they wait, and else never.
fn count_spots(arrivals: &mut Vec<u64>, spots: &[Spot]) -> Result<(), AllocError>
    ensures { OnOk result (arrivals.new.items ≡ map count_of spots.now) }
{
    arrivals.clear();
    for spot in spots {
        arrivals.push(count_of(spot))?;
    }
    Ok(())
}

fn count_of(spot: &Spot) -> u64
    ensures { result ≡ count_of spot.now }
{
    if spot.arrived { 1 } else { 0 }
}
