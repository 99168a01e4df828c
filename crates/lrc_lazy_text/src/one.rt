// A lazy run that has one of the outcomes of a program, as it is printed.

ghost use Rattle.std.specs.Prelude.{◌≡◌, ◌≢◌, ◌≤◌, ◌<◌, IfErr, IfOk, length, option_map};
ghost use Rattle.lrc_lazy_text.specs.Listed.{AreLazyOutcomes, FitLazyRuns, MetTooManyLazily};
ghost use Rattle.lrc_lazy_text.specs.One.{IsLazyRunAt, TellsLazyRunOfNumber};

use lrc_explore_text::orders::acts_told;
use lrc_explore_text::outcome_run::place_of;
use lrc_lazy_run::run::lazy_run_with;
use lrc_lazy_search::search::lazy_outcomes;
use lrc_orders::outcomes::Outcome;
use lrc_orders::search::ExploreFault;
use lrc_program::Program;
use lrc_setting::setting::Nodes;
use lrc_trace::act::Act;
use std::alloc::Global;

/// Returns what is printed of the outcome with this number, counted from 1, among the outcomes of the lazy runs of a
/// program: the acts of a lazy run that has it. Returns none if there are fewer outcomes. `lines` has the lines of the
/// program's statements, and of the text's end behind them. Gives up with `TooMany` only if lazy runs lead to more than
/// `most` different states. Fails if memory runs out.
pub fn lazy_run_told(
    alloc: Global,
    program: &Program,
    lines: &[u32],
    nodes: Nodes,
    most: usize,
    number: u64,
) -> Result<Option<Vec<u8>>, ExploreFault>
    requires { 1 ≤ number }
    ensures told { IfOk result (λ told. TellsLazyRunOfNumber program.now nodes.count lines.now
        number (option_map (λ text. text.items) told)) }
    ensures fits { IfOk result (λ _. FitLazyRuns program.now nodes.count most) }
    ensures nodes { IfErr result (λ fault. fault ≢ ExploreFault.BadNodes) }
    ensures too_many { IfErr result (λ fault. fault ≡ ExploreFault.TooMany
        → MetTooManyLazily program.now nodes.count most) }
{
    let count = nodes.number();
    let found = lazy_outcomes(alloc, program, nodes.count, most)?;
    let outcomes = found.as_slice();
    let place = place_of(alloc, count, outcomes, number)?;
    match place {
        Some(place) => {
            let acts = run_at(alloc, program, nodes, most, outcomes, place)?;
            let text = acts_told(alloc, program, lines, count, &acts)?;
            Ok(Some(text))
        }
        None => Ok(None),
    }
}

// The acts of a lazy run that has the outcome at a place.
fn run_at(
    alloc: Global,
    program: &Program,
    nodes: Nodes,
    most: usize,
    outcomes: &[Outcome],
    place: usize,
) -> Result<Vec<Act>, ExploreFault>
    requires are { AreLazyOutcomes program.now nodes.count outcomes.now }
    requires within { place < length outcomes.now }
    ensures run { IfOk result (λ acts. IsLazyRunAt program.now nodes.count outcomes.now place
        acts.items) }
    ensures nodes { IfErr result (λ fault. fault ≢ ExploreFault.BadNodes) }
    ensures too_many { IfErr result (λ fault. fault ≡ ExploreFault.TooMany
        → MetTooManyLazily program.now nodes.count most) }
{
    match lazy_run_with(alloc, program, nodes.number(), most, &outcomes[place].notes)? {
        Some(acts) => Ok(acts),
        None => unreachable!(),
    }
}
