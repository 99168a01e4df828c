// The lines of reasons.

ghost use Rattle.std.specs.Prelude.{◌≡◌, ◌<◌, ◌≤◌, All, IfOk};
ghost use Rattle.lrc_judge.specs.declared.TheConstants.{NODES};
ghost use Rattle.lrc_judge.specs.Order.{IsOrderOf};
ghost use Rattle.lrc_step.specs.ReasonLines.{TellsWhys};

use crate::Part;
use crate::given::given_of_each;
use crate::reason_lines::{asked_of, push_whys};
use crate::rivals::rivals_of_each;
use crate::told::positions_told;
use lrc_judge::order::Order;
use lrc_lines::walks::lines_of_acts;
use lrc_page::Size;
use lrc_source::source::Source;
use lrc_trace::act::Act;
use lrc_why_run::why_each;
use std::alloc::{AllocError, Global};

/// Returns the lines of reasons for a part of a run of the program of this source, on so many nodes and with this page
/// size: for each act that gets reasons, the output of `why`, by nodes the acts that race with it, and of a read the writes
/// that it gives what it gives by.
pub fn reasons_part(
    alloc: Global,
    source: &Source<'_>,
    nodes: u8,
    page: Size,
    acts: &[Act],
    order: &Order,
    part: Part,
) -> Result<Vec<u8>, AllocError>
    requires few { nodes ≤ NODES }
    requires nodes { All (λ act. act.node < nodes) acts.now }
    requires order { IsOrderOf acts.now order.now }
    ensures { IfOk result (λ told. TellsWhys source.now.text source.now.program nodes page
        acts.now part told.items) }
{
    let positions = positions_told(alloc, acts, order, nodes, part)?;
    let asked = asked_of(alloc, &positions)?;
    let printed = why_each(alloc, source, nodes, page, acts, order, &asked)?;
    let lines = lines_of_acts(alloc, source.code(), source.lines(), nodes, acts)?;
    let rivals = rivals_of_each(alloc, acts, &lines, order, nodes, &positions)?;
    let given = given_of_each(alloc, acts, order, &positions)?;
    let mut told = Vec::new(alloc);
    push_whys(alloc, &mut told, &positions, &printed, &rivals, &given)?;
    Ok(told)
}
