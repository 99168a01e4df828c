// Events along an order, as they are printed.

ghost use Rattle.std.specs.Prelude.{◌≡◌, ◌≤◌, IfOk, IfSome, IsSome, Some, option_map};
ghost use Rattle.lrc_exec.specs.Nodes.{AreNodes};
ghost use Rattle.lrc_exec.specs.Plain.{plain};
ghost use Rattle.lrc_explore_events_text.specs.Shows.{ShowsEvents, ShowsOrder, bare_options};

use lrc_events::events_part;
use lrc_explore_events::order::events_along;
use lrc_explore_text::orders::acts_of;
use lrc_node::Options;
use lrc_page::Size;
use lrc_program::Program;
use lrc_trace::act::Act;
use std::alloc::{AllocError, Global};

// The options of a run of which none is named.
fn bare_options() -> Options
    ensures { result ≡ bare_options }
{
    Options {
        steps: 1_000_000,
        collect: 0,
        first: 0,
        size: Size::Words64,
    }
}

/// Returns a line for each of the events that lead the nodes along these acts.
pub(crate) fn events_shown(
    alloc: Global,
    program: &Program,
    nodes: u8,
    acts: &[Act],
) -> Result<Vec<u8>, AllocError>
    requires { nodes ≤ 16 }
    ensures { IfOk result (λ text. ShowsEvents program.now nodes acts.now text.items) }
{
    let events = events_along(alloc, program, nodes, &bare_options(), acts)?;
    let text = events_part(alloc, &events)?;
    Ok(text)
}

/// Returns the same of the acts that the plain machine makes in an order, and an empty text if there is none.
pub(crate) fn order_shown(
    alloc: Global,
    program: &Program,
    nodes: u8,
    order: Option<&[usize]>,
) -> Result<Vec<u8>, AllocError>
    requires nodes { AreNodes nodes }
    requires led { IfSome order (λ order. IsSome (plain program.now nodes order.now)) }
    ensures { IfOk result (λ text. ShowsOrder program.now nodes
        (option_map (λ order. order.now) order.entry) text.items) }
{
    match order {
        Some(order) => made_shown(alloc, program, nodes, order),
        None => Ok(Vec::new(alloc)),
    }
}

// The same, where there is an order.
fn made_shown(
    alloc: Global,
    program: &Program,
    nodes: u8,
    order: &[usize],
) -> Result<Vec<u8>, AllocError>
    requires nodes { AreNodes nodes }
    requires led { IsSome (plain program.now nodes order.now) }
    ensures { IfOk result (λ text. ShowsOrder program.now nodes (Some order.now) text.items) }
{
    let acts = acts_of(alloc, program, nodes, order)?;
    events_shown(alloc, program, nodes, &acts)
}
