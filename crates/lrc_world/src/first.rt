// The first race of a run.

ghost use Rattle.std.specs.Prelude.{◌≡◌, ◌<◌, [], All, IfOk, MatchOption};
ghost use Rattle.lrc_judge.specs.declared.TheConstants.{NODES};
ghost use Rattle.lrc_trace.specs.Conflict.{IsFirstRace, IsRaceFree};

use lrc_race::first_race;
use lrc_trace::act::Act;
use lrc_trace::race::Race;
use std::alloc::{AllocError, Global};

/// Returns the least position of an act that races with an earlier act, in a run with these races.
pub fn first_of(alloc: Global, races: &[Race], acts: &[Act]) -> Result<Option<usize>, AllocError>
    requires acts { All (λ act. act.node < NODES) acts.now }
    requires raceless { races.now ≡ [] → IsRaceFree acts.now }
    ensures { IfOk result (λ first. MatchOption first (IsRaceFree acts.now)
        (IsFirstRace acts.now)) }
{
    if races.is_empty() {
        return Ok(None);
    }
    first_race(alloc, acts)
}
