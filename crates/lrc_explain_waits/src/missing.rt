// Who has not come to a barrier.

ghost use Rattle.std.specs.Prelude.{◌≡◌, IfOk};
ghost use Rattle.lrc_explain_waits.specs.Missing.{first_of, has_not_come, missing_nodes};

use crate::stand::{Fate, Stand};
use std::alloc::{AllocError, Global};

/// A node that has not reached a barrier.
#[derive(Clone, Copy)]
pub struct Missing {
    pub node: usize,
    pub fate: Fate,
}

// Whether a node has not come to the barrier of node `me`, another one, that has this number.
fn has_not_come(number: usize, me: usize, node: usize, stand: Stand) -> bool
    ensures { result ≡ has_not_come number me node stand }
{
    node != me && stand.arrives < number
}

// The nodes that have not come to the barrier of node `me` that has this number, ascending.
pub(crate) fn missing_nodes(
    alloc: Global,
    number: usize,
    me: usize,
    stands: &[Stand],
) -> Result<Vec<Missing>, AllocError>
    ensures { IfOk result (λ missing. missing.items ≡ missing_nodes number me stands.now) }
{
    let mut missing = Vec::new(alloc);
    for node in 0..stands.len() {
        let stand = stands[node];
        if has_not_come(number, me, node, stand) {
            missing.push(Missing {
                node,
                fate: stand.fate,
            })?;
        }
    }
    Ok(missing)
}

// The first of these nodes.
pub(crate) fn first_of(missing: &[Missing]) -> Option<usize>
    ensures { result ≡ first_of missing.now }
{
    match missing {
        [first, ..] => Some(first.node),
        [] => None,
    }
}
