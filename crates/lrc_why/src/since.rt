// Since when a position is known.

ghost use Rattle.std.specs.Prelude.{IfOk};
ghost use Rattle.lrc_judge.specs.Order.{IsOrderOf};
ghost use Rattle.lrc_why.specs.Since.{IsSinceIfKnown};

use crate::reasons::Since;
use lrc_judge::order::Order;
use lrc_trace::act::Act;
use lrc_why_chains::chains::chain_told;
use lrc_why_chains::known::first_knowing;
use std::alloc::{AllocError, Global};

/// Returns since when the node knows the position, or none if it never does. It fails if memory runs out.
pub(crate) fn since_of(
    alloc: Global,
    acts: &[Act],
    order: &Order,
    node: u8,
    position: usize,
) -> Result<Option<Since>, AllocError>
    requires { IsOrderOf acts.now order.now }
    ensures { IfOk result (IsSinceIfKnown acts.now node position) }
{
    let Some(first) = first_knowing(acts, order, node, position) else {
        return Ok(None);
    };
    match chain_told(alloc, acts, position, first)? {
        Some(chain) => Ok(Some(Since { first, chain })),
        None => Ok(None),
    }
}
