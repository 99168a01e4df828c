// The acts that happen before one of two.

ghost use Rattle.std.specs.Prelude.{◌≡◌, ◌<◌, ◌||◌, All, IfOk};
ghost use Rattle.lrc_judge.specs.declared.TheConstants.{NODES};
ghost use Rattle.lrc_judge.specs.Order.{is_before};
ghost use Rattle.lrc_explore_causes.specs.Causes.{AreCauses};

use lrc_judge::order::{Order, happens_before};
use lrc_trace::act::Act;
use std::alloc::{AllocError, Global};

/// Returns, in their order, those acts that happen before one of two positions. It fails if memory runs out.
pub fn causes_of(
    alloc: Global,
    acts: &[Act],
    first: usize,
    second: usize,
) -> Result<Vec<Act>, AllocError>
    requires { All (λ act. act.node < NODES) acts.now }
    ensures { IfOk result (λ told. AreCauses acts.now first second told.items) }
{
    let order = happens_before(alloc, acts)?;
    let mut told = Vec::new(alloc);
    for position in 0..acts.len() {
        if is_cause(&order, first, second, position) {
            told.push(acts[position])?;
        }
    }
    Ok(told)
}

// Whether a position happens before one of two others.
fn is_cause(order: &Order, first: usize, second: usize, position: usize) -> bool
    ensures { result ≡ (is_before order.now position first || is_before order.now position second) }
{
    order.is_before(position, first) || order.is_before(position, second)
}
