// Events by which the nodes make an exact run that has one of the outcomes of a program.

ghost use Rattle.std.specs.Prelude.{◌≡◌, ◌≢◌, ◌≤◌, IfErr, IfOk, option_map};
ghost use Rattle.lrc_node.specs.Options.{options_of};
ghost use Rattle.lrc_exact_judge.specs.Shape.{shape_of};
ghost use Rattle.lrc_exact_search.specs.Searching.{MeetsMore};
ghost use Rattle.lrc_exact_text.specs.Events.{ShowsEvents, TellsExactEventsOfNumber};
ghost use Rattle.lrc_exact_text.specs.Layout.{shape_in};
ghost use Rattle.lrc_exact_text.specs.Listed.{FitExactRuns};

use crate::layout::layout_in;
use crate::one::run_of;
use lrc_events::events_part;
use lrc_exact_events::drained::events_in_turn;
use lrc_exact_judge::layout::Layout;
use lrc_node::{Options, options_of};
use lrc_orders::search::ExploreFault;
use lrc_program::Program;
use lrc_setting::setting::Setting;
use lrc_trace::act::Act;
use std::alloc::{AllocError, Global};

/// Returns a line for each of the events by which the nodes, with this setting, make an exact run that has the outcome with
/// this number, counted from 1, among the outcomes of the exact runs of a program. As long as a message is in flight, the
/// oldest is delivered; then the node of the run's next act goes on. The text ends before the first event that would not
/// make the next act of the run. Returns none if there are fewer outcomes. Gives up with `TooMany` only if there are more
/// than `most` different exact runs, or different exact runs that have more than 1,000,000 + 20 · `most` acts together.
/// Fails if memory runs out.
pub fn exact_events_told(
    alloc: Global,
    program: &Program,
    setting: &Setting,
    most: usize,
    number: u64,
) -> Result<Option<Vec<u8>>, ExploreFault>
    requires { 1 ≤ number }
    ensures told { IfOk result (λ told. TellsExactEventsOfNumber program.now (shape_in setting.now)
        (options_of setting.now) number (option_map (λ text. text.items) told)) }
    ensures fits { IfOk result (λ _. FitExactRuns program.now (shape_in setting.now) most) }
    ensures nodes { IfErr result (λ fault. fault ≢ ExploreFault.BadNodes) }
    ensures too_many { IfErr result (λ fault. fault ≡ ExploreFault.TooMany
        → MeetsMore program.now (shape_in setting.now) most) }
{
    let layout = layout_in(setting);
    let options = options_of(setting);
    told_in(alloc, program, layout, &options, most, number)
}

// The same, where the memory is laid out so, and the nodes have these options.
fn told_in(
    alloc: Global,
    program: &Program,
    layout: Layout,
    options: &Options,
    most: usize,
    number: u64,
) -> Result<Option<Vec<u8>>, ExploreFault>
    requires { 1 ≤ number }
    ensures told { IfOk result (λ told. TellsExactEventsOfNumber program.now (shape_of layout)
        options.now number (option_map (λ text. text.items) told)) }
    ensures fits { IfOk result (λ _. FitExactRuns program.now (shape_of layout) most) }
    ensures nodes { IfErr result (λ fault. fault ≢ ExploreFault.BadNodes) }
    ensures too_many { IfErr result (λ fault. fault ≡ ExploreFault.TooMany
        → MeetsMore program.now (shape_of layout) most) }
{
    match run_of(alloc, program, layout, most, number)? {
        Some(acts) => {
            let text = events_shown(alloc, program, layout.nodes, options, &acts)?;
            Ok(Some(text))
        }
        None => Ok(None),
    }
}

// A line for each of the events by which the nodes make these acts.
fn events_shown(
    alloc: Global,
    program: &Program,
    nodes: u8,
    options: &Options,
    acts: &[Act],
) -> Result<Vec<u8>, AllocError>
    requires { nodes ≤ 16 }
    ensures { IfOk result (λ text. ShowsEvents program.now nodes options.now acts.now text.items) }
{
    let events = events_in_turn(alloc, program, nodes, options, acts)?;
    let text = events_part(alloc, &events)?;
    Ok(text)
}
