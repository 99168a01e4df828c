// What the program answers to the command `why` with a text of acts.

ghost use Rattle.std.specs.Prelude.{◌≡◌, ◌≤◌, IfErr, IfOk, IfSome};
ghost use Rattle.lrc_cli.specs.Answer.{IsReasoned, IsWhyFault, foreign_nodes};
ghost use Rattle.lrc_text.specs.Parts.{whole_text};

use lrc_cli_answer::fault::Fault;
use lrc_cli_answer::printout::Printout;
use lrc_cli_args::choice::{Asking, ForeignActs};
use lrc_cli_runs::reasoned::asked_of;
use lrc_why_text::acts::why_acts;
use std::alloc::Global;

/// Answers the command `why` for a text of acts.
pub(crate) fn reasoned(
    alloc: Global,
    acts: &ForeignActs<'_>,
    asking: &Asking,
    text: &[u8],
) -> Result<Printout, Fault>
    ensures ok { IfOk result (λ printout. IsReasoned acts.now asking.now text.now
        (whole_text printout.parts.items) printout.status) }
    ensures err { IfErr result (IsWhyFault acts.now asking.now text.now) }
{
    let parts = why_acts(alloc, text, nodes_of(acts), acts.size, asked_of(asking))?;
    Ok(Printout { parts, status: 0 })
}

// How many nodes the acts are of, where that is said.
fn nodes_of(acts: &ForeignActs<'_>) -> Option<u32>
    ensures value { result ≡ foreign_nodes acts.now }
    ensures few { IfSome result (λ count. count ≤ 16) }
{
    match acts.nodes {
        Some(nodes) => Some(nodes.count),
        None => None,
    }
}
