// The plain machine in a given order: one flat memory.

ghost use Rattle.std.specs.Prelude.{◌≡◌, ◌≤◌, IfOk, option_map};
ghost use Rattle.lrc_exec.specs.Plain.{plain};

use crate::code::Code;
use crate::spot::Flat;
use crate::state::State;
use lrc_program::Program;
use lrc_trace::act::Act;
use std::alloc::{AllocError, Global};

/// Runs a program on the plain machine, and returns one act for each entry of `order`, which names the node that makes
/// it. There are 1 to 16 nodes.
///
/// Returns none if an entry names no node, or a node that cannot step: it has trapped or ended, waits for a lock that
/// another node holds, or waits at a barrier. It fails only if memory runs out.
pub fn plain_run(
    alloc: Global,
    program: &Program,
    nodes: u8,
    order: &[usize],
) -> Result<Option<Vec<Act>>, AllocError>
    requires some_nodes { 1 ≤ nodes }
    requires few_nodes { nodes ≤ 16 }
    ensures { IfOk result (λ run. option_map (λ acts. acts.items) run
        ≡ plain program.now nodes order.now) }
{
    let code = Code::new(alloc, program)?;
    let (flat, place) = Flat::of(&code, nodes);
    let mut state = State::start(alloc, &flat, place)?;
    let mut acts = Vec::new(alloc);
    for &node in order {
        let Some(step) = state.next_step(&flat, node) else {
            return Ok(None);
        };
        state.take(&flat, node, step);
        acts.push(Act {
            node: node as u8,
            deed: step.deed,
        })?;
    }
    Ok(Some(acts))
}
