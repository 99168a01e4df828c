// Events along a run that has one of the outcomes of a program.

ghost use Rattle.std.specs.Prelude.{◌≡◌, ◌≢◌, ◌≤◌, IfErr, IfOk, false, option_map, true};
ghost use Rattle.lrc_exec.specs.Nodes.{AreNodes};
ghost use Rattle.lrc_explore.specs.Answers.{MetTooMany};
ghost use Rattle.lrc_explore_events_text.specs.Shows.{ShowsRunOfNumber};

use crate::showing::events_shown;
use lrc_explore_text::outcome_run::outcome_run;
use lrc_orders::search::ExploreFault;
use lrc_program::Program;
use std::alloc::Global;

/// Returns the events along a run that has the outcome with this number, counted from 1, among the outcomes of a program,
/// or none if there are fewer. There must be 1 to 16 nodes. Gives up with `TooMany` only if there are more than `most`
/// states to tell apart, or if a thread makes 1,000,000 + 20 * `most` free acts one after another. Fails if memory runs
/// out.
pub fn outcome_shown(
    alloc: Global,
    program: &Program,
    nodes: u32,
    most: usize,
    number: u64,
) -> Result<Option<Vec<u8>>, ExploreFault>
    requires nodes { AreNodes nodes }
    requires number { 1 ≤ number }
    ensures shows { IfOk result (λ shown. ShowsRunOfNumber program.now nodes number
        (option_map (λ text. text.items) shown)) }
    ensures nodes { IfErr result (λ fault. fault ≢ ExploreFault.BadNodes) }
    ensures too_many { IfErr result (λ fault. fault ≡ ExploreFault.TooMany
        → MetTooMany program.now nodes most true false) }
{
    let count = nodes as u8;
    match outcome_run(alloc, program, count, most, number)? {
        Some(acts) => {
            let text = events_shown(alloc, program, count, &acts)?;
            Ok(Some(text))
        }
        None => Ok(None),
    }
}
