// The first race of a run.
ghost use Rattle.std.specs.Prelude.{ℕ, ◌<◌, All, IfOk, MatchOption};
ghost use Rattle.lrc_trace.specs.Conflict.{IsFirstRace, IsRaceFree};
ghost use Rattle.lrc_judge.specs.declared.TheConstants.{NODES};

use crate::NODES;
use crate::accesses::{note, races};
use crate::past::Past;
use lrc_trace::act::Act;
use std::alloc::{AllocError, Global};
use std::collections::BTreeMap;

/// Returns the least position of a run whose act races with an earlier one, or none if no two acts race. It takes one
/// pass over the acts, and keeps for each word where each node accessed it last. It fails only if memory runs out.
pub fn first_race(alloc: Global, acts: &[Act]) -> Result<Option<usize>, AllocError>
    requires { All (λ act. act.node < NODES) acts.now }
    ensures { IfOk result (λ first. MatchOption first (IsRaceFree acts.now)
        (IsFirstRace acts.now)) }
{
    let mut past = Past::new(alloc)?;
    let mut words = BTreeMap::new(alloc);
    for position in 0..acts.len() {
        let reach = past.reach_of(acts, position);
        if races(&words, acts, position, &reach) {
            return Ok(Some(position));
        }
        past.note(acts, position, reach)?;
        note(&mut words, acts, position)?;
    }
    Ok(None)
}
