// Free acts, made one after another from a state on.

ghost use Rattle.std.specs.Prelude.{◌≡◌, ◌<◌, ◌^◌, ℕ, IfOk, OnOk, Some, slice_index};
ghost use Rattle.lrc_trace.specs.declared.act.Deed.{Deed as DeedType};
ghost use Rattle.lrc_trace.specs.Run.{act_of};
ghost use Rattle.lrc_exec.specs.Spots.{IsFlat};
ghost use Rattle.lrc_exec.specs.States.{IsStateOf};
ghost use Rattle.lrc_lazy_search.specs.Fit.{IsFit};
ghost use Rattle.lrc_lazy_search.specs.Searching.{IsNeat};
ghost use Rattle.lrc_lazy_run.specs.Ways.{IsAlong, IsFree, IsFreeIfAny, IsSought};

use crate::sought::Sought;
use lrc_exec::spot::Flat;
use lrc_lazy_search::state::{LONGEST, LazyState, SHORT};
use lrc_trace::act::{Act, Deed};
use std::alloc::{AllocError, Global};

/// Makes free acts from a state on, as long as some node can make one that is no arrive, and appends them. It makes no
/// more than `LONGEST`, and no more than `SHORT` where no long ways are to spare. It returns whether they turn for ever,
/// and fails if memory runs out. To see that they do, it compares the state with an earlier one (Brent 1980); it takes a
/// new earlier state each time that twice as many acts were made.
pub(crate) fn go_along(
    alloc: Global,
    sought: &Sought<'_>,
    state: &mut LazyState,
    acts: &mut Vec<Act>,
    spare: &mut u32,
) -> Result<bool, AllocError>
    requires task { IsSought sought.now }
    requires state { IsStateOf sought.now.flat state.old.state }
    requires room { (node : ℕ) → slice_index state.old.state.arrivals.items node < 2 ^ 63 }
    ensures along { OnOk result (IsAlong sought.now state.old acts.old.items state.new
        acts.new.items) }
    ensures neat { OnOk result (IsNeat sought.now.flat state.old
        → IsNeat sought.now.flat state.new) }
{
    let mut earlier = state.seen(alloc)?;
    let mut again = SHORT;
    for step in 0..most_acts(*spare) {
        if !step_along(alloc, sought, state, acts)? {
            return Ok(false);
        }
        if state.is_again(&earlier) {
            return Ok(true);
        }
        if step >= again {
            earlier = state.seen(alloc)?;
            again = step.saturating_add(step);
        }
    }
    *spare = spare.saturating_sub(1);
    Ok(false)
}

// How many free acts are made one after another, with so many long ways to spare.
fn most_acts(spare: u32) -> usize {
    if spare == 0 { SHORT } else { LONGEST }
}

// Makes the free act of the lowest node that can make one, unless it is an arrive, and appends it; and whether it was
// made.
fn step_along(
    alloc: Global,
    sought: &Sought<'_>,
    state: &mut LazyState,
    acts: &mut Vec<Act>,
) -> Result<bool, AllocError>
    requires task { IsSought sought.now }
    requires state { IsStateOf sought.now.flat state.old.state }
    requires room { (node : ℕ) → slice_index state.old.state.arrivals.items node < 2 ^ 63 }
    ensures along { OnOk result (IsAlong sought.now state.old acts.old.items state.new
        acts.new.items) }
    ensures neat { OnOk result (IsNeat sought.now.flat state.old
        → IsNeat sought.now.flat state.new) }
{
    let Some((node, deed)) = free_act(alloc, &sought.flat, state)? else {
        return Ok(false);
    };
    match deed {
        Deed::Arrive => return Ok(false),
        _ => {}
    }
    state.make(alloc, &sought.flat, node, deed)?;
    acts.push(act_by(node, deed))?;
    Ok(true)
}

/// Returns the free act of the lowest node that can make one at a state. It fails if memory runs out.
pub(crate) fn free_act(
    alloc: Global,
    flat: &Flat,
    state: &LazyState,
) -> Result<Option<(usize, Deed)>, AllocError>
    requires flat { IsFlat flat.now }
    requires fit { IsFit flat.now state.now }
    ensures { IfOk result (IsFreeIfAny flat.now state.now) }
{
    for node in 0..flat.nodes as usize {
        if let Some(deed) = free_deed(alloc, flat, state, node)? {
            return Ok(Some((node, deed)));
        }
    }
    Ok(None)
}

// What the node can do, where that is one deed alone that depends on nothing that another node does.
fn free_deed(
    alloc: Global,
    flat: &Flat,
    state: &LazyState,
    node: usize,
) -> Result<Option<Deed>, AllocError>
    requires flat { IsFlat flat.now }
    requires fit { IsFit flat.now state.now }
    ensures { IfOk result (λ found. (deed : DeedType) → found ≡ Some deed
        → IsFree flat.now state.now node deed) }
{
    let deeds = state.deeds(alloc, flat, node)?;
    if deeds.len() != 1 {
        return Ok(None);
    }
    match deeds[0] {
        Deed::Acquire(_) | Deed::Depart => Ok(None),
        deed => Ok(Some(deed)),
    }
}

/// Returns the act of a node.
pub(crate) fn act_by(node: usize, deed: Deed) -> Act
    requires { node < 2 ^ 8 }
    ensures { result ≡ act_of node deed }
{
    Act {
        node: node as u8,
        deed,
    }
}
