// How the nodes of a run ended.

ghost use Rattle.std.specs.Prelude.{◌≡◌, IfOk, slice_set};
ghost use Rattle.lrc_node.specs.Logged.{end_after};
ghost use Rattle.lrc_world.specs.Ends.{ends_of};

use lrc_node::End;
use lrc_trace::act::{Act, Deed};
use std::alloc::{AllocError, Global};

/// Returns how each node ended, from node 0 up, as its last act says. Acts of nodes that are not below `nodes` are
/// ignored.
pub fn ends(alloc: Global, nodes: u8, acts: &[Act]) -> Result<Vec<End>, AllocError>
    ensures { IfOk result (λ ends. ends.items ≡ ends_of nodes acts.now) }
{
    let mut ends = vec![in alloc; End::Unfinished; nodes as usize]?;
    for act in acts {
        note_end(&mut ends, *act);
    }
    Ok(ends)
}

// Notes that this is the last act of its node so far.
fn note_end(ends: &mut Vec<End>, act: Act)
    ensures { ends.new.items ≡ slice_set ends.old.items act.node (end_after act.deed) }
{
    let node = act.node as usize;
    if node < ends.len() {
        ends[node] = end_by(act.deed);
    }
}

// How a node ended whose last deed is this.
fn end_by(deed: Deed) -> End
    ensures { result ≡ end_after deed }
{
    match deed {
        Deed::Trap(cause) => End::Trapped(cause),
        Deed::End => End::Ended,
        _ => End::Unfinished,
    }
}
