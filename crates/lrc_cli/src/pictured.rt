// What the program answers to the command `chart` of acts.

ghost use Rattle.std.specs.Prelude.{◌≡◌, ◌≤◌, IfErr, IfOk, IfSome};
ghost use Rattle.lrc_cli.specs.Answer.{IsActsChartFault, IsActsCharted, charted_nodes};
ghost use Rattle.lrc_text.specs.Parts.{whole_text};

use lrc_chart_acts::portrait_of_acts;
use lrc_chart_title::title_of_acts;
use lrc_cli_answer::fault::Fault;
use lrc_cli_answer::printout::{Printout, in_one};
use lrc_cli_args::choice::{ChartedActs, Charting};
use lrc_cli_runs::charted::{drawn, part_of};
use std::alloc::Global;

/// Answers the command `chart` for a text of acts.
pub(crate) fn pictured(
    alloc: Global,
    acts: &ChartedActs<'_>,
    charting: &Charting,
    text: &[u8],
) -> Result<Printout, Fault>
    ensures ok { IfOk result (λ printout. IsActsCharted acts.now charting.now text.now
        (whole_text printout.parts.items) printout.status) }
    ensures err { IfErr result (IsActsChartFault acts.now charting.now text.now) }
{
    let charting = *charting;
    let title = title_of_acts(alloc, acts, &charting)?;
    let nodes = nodes_of(acts);
    let picture = portrait_of_acts(alloc, &title, text, nodes, part_of(charting))?;
    let part = drawn(alloc, charting.text, &picture)?;
    let parts = in_one(alloc, part)?;
    Ok(Printout { parts, status: 0 })
}

// How many nodes the acts are of, where that is said.
fn nodes_of(acts: &ChartedActs<'_>) -> Option<u32>
    ensures value { result ≡ charted_nodes acts.now }
    ensures some { IfSome result (λ count. 1 ≤ count) }
    ensures few { IfSome result (λ count. count ≤ 16) }
{
    match acts.nodes {
        Some(nodes) => Some(nodes.count),
        None => None,
    }
}
