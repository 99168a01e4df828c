// A short run in which the nodes act in turn: whether there is something to tell of it.

ghost use Rattle.std.specs.Prelude.{◌<◌, IfOk, IfSome, OnOk};
ghost use Rattle.lrc_orders_table.specs.Rows.{row_count};
ghost use Rattle.lrc_explore.specs.Reached.{AreFound, IsStepOf, IsTask};

use lrc_explore::task::{Found, Origin, Task};
use lrc_orders::search::ExploreFault;
use lrc_orders_settling::step::Step;
use std::alloc::{AllocError, Global};

// The run has so many rounds: it takes a few milliseconds at most, where no thread computes for long.
const ROUNDS: usize = 200;

/// Lets the nodes act in turn, for a while. Returns whether two nodes meet on the way, if `races` is true, the program gets
/// stuck, or a node traps; not, if a node makes so many free acts that the limit is reached. It fails if memory runs out.
pub(crate) fn tells_soon(alloc: Global, task: &Task<'_>, races: bool) -> Result<bool, AllocError>
    requires { IsTask task.now }
{
    match tells_in_turn(alloc, task, races) {
        Ok(told) => Ok(told),
        Err(ExploreFault::NoMemory) => Err(AllocError),
        Err(_) => Ok(false),
    }
}

// The same, but that it fails at the limit too.
fn tells_in_turn(alloc: Global, task: &Task<'_>, races: bool) -> Result<bool, ExploreFault>
    requires { IsTask task.now }
{
    let mut found = Found::none(alloc, task.flat.nodes as usize);
    let traps = found.begin(alloc, task)?;
    if traps || is_told(&found, task, 0, races) {
        return Ok(true);
    }
    let mut place = 0;
    for _round in 0..ROUNDS {
        match after_round(&mut found, alloc, task, place, races)? {
            Some(next) => place = next,
            None => return Ok(true),
        }
    }
    Ok(false)
}

// Lets each node act that can, and then all depart together if they can, from the state at a place: the place of the
// state to which that leads. None: there is something to tell on the way.
fn after_round(
    found: &mut Found,
    alloc: Global,
    task: &Task<'_>,
    place: usize,
    races: bool,
) -> Result<Option<usize>, ExploreFault>
    requires task { IsTask task.now }
    requires found { AreFound task.now found.old }
    requires within { place < row_count found.old.table.rows }
    ensures found { OnOk result (AreFound task.now found.new) }
    ensures within { IfOk result (λ next. IfSome next (λ there. there < row_count found.new.table.rows)) }
{
    let mut at = place;
    for node in 0..task.flat.nodes {
        match moved(found, alloc, task, at, Step::Alone(node), races)? {
            Some(next) => at = next,
            None => return Ok(None),
        }
    }
    moved(found, alloc, task, at, Step::Together, races)
}

// The place of the state to which a step leads from that at a place: the same if it cannot be taken. None: there is
// something to tell of it.
fn moved(
    found: &mut Found,
    alloc: Global,
    task: &Task<'_>,
    place: usize,
    step: Step,
    races: bool,
) -> Result<Option<usize>, ExploreFault>
    requires task { IsTask task.now }
    requires found { AreFound task.now found.old }
    requires within { place < row_count found.old.table.rows }
    requires step { IsStepOf task.now step }
    ensures found { OnOk result (AreFound task.now found.new) }
    ensures within { IfOk result (λ next. IfSome next (λ there. there < row_count found.new.table.rows)) }
{
    let Some(led) = found.row_after(alloc, task, place, step)? else {
        return Ok(Some(place));
    };
    let origin = Origin {
        parent: place,
        step,
    };
    let next = found.put(task, led.row, origin)?;
    if led.traps || is_told(found, task, next, races) {
        return Ok(None);
    }
    Ok(Some(next))
}

// Whether two nodes meet at the state at a place, if that is looked for, or the program is stuck there.
fn is_told(found: &Found, task: &Task<'_>, place: usize, races: bool) -> bool
    requires found { AreFound task.now found.now }
    requires within { place < row_count found.now.table.rows }
{
    let _most = task.most;
    let row = found.table.rows.row(place);
    if found.table.is_stuck(&row) {
        return true;
    }
    races && found.table.meeting(&row).is_some()
}
