// From where on turns are shown.

ghost use Rattle.std.specs.Prelude.{◌≡◌, ◌≤◌, IfOk, Some, length};
ghost use Rattle.std.specs.Option.{option_to_list};
ghost use Rattle.lrc_protocol.specs.Run.{World, run_of};
ghost use Rattle.lrc_states.specs.States.{IsStart};

use crate::told::Told;
use lrc_exec::code::Code;
use lrc_replay::Replay;
use lrc_trace::act::Act;
use std::alloc::{AllocError, Global};

// How many acts of these a turn makes.
fn acts_of(act: Option<Act>) -> u64
    ensures { result ≡ length (option_to_list act) }
{
    if act.is_some() { 1 } else { 0 }
}

// How many events of a run come before the one that makes the act at a position: all, where there is no such act.
fn events_before(
    alloc: Global,
    code: &Code<'_>,
    told: &Told<'_>,
    position: u64,
) -> Result<usize, AllocError>
    requires few { told.now.nodes ≤ 16 }
    ensures within { IfOk result (λ count. count ≤ length told.now.events.now) }
    ensures start { (made : World) → run_of code.now told.now.nodes told.now.options
        told.now.events.now ≡ Some made
        → IfOk result (IsStart code.now told.now.nodes told.now.options
        (Some position) told.now.events.now) }
{
    let mut replay = Replay::start(alloc, code, told.nodes, &told.options)?;
    let mut left = position;
    for (place, event) in told.events.iter().enumerate() {
        let Some(turn) = replay.make(*event)? else {
            continue;
        };
        let acts = acts_of(turn.act);
        if left < acts {
            return Ok(place);
        }
        left -= acts;
        replay.post(turn.out)?;
    }
    Ok(told.events.len())
}

/// Returns how many events of a run come before those whose turns are shown.
pub(crate) fn events_skipped(
    alloc: Global,
    code: &Code<'_>,
    told: &Told<'_>,
    from: Option<u64>,
) -> Result<usize, AllocError>
    requires few { told.now.nodes ≤ 16 }
    ensures within { IfOk result (λ count. count ≤ length told.now.events.now) }
    ensures start { (made : World) → run_of code.now told.now.nodes told.now.options
        told.now.events.now ≡ Some made
        → IfOk result (IsStart code.now told.now.nodes told.now.options from told.now.events.now) }
{
    match from {
        Some(position) => events_before(alloc, code, told, position),
        None => Ok(0),
    }
}
