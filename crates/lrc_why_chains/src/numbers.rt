// The numbers of arrives and departs.
ghost use Rattle.std.specs.Prelude.{IfOk};
ghost use Rattle.lrc_why_chains.specs.Numbers.{AreNumbers};

use crate::NAMES;
use lrc_trace::act::{Act, Deed};
use std::alloc::{AllocError, Global};

/// Returns a number for each act: for an arrive how often its node has arrived before, for a depart how often its node
/// has departed before, and 0 for any other act. It fails if memory runs out.
pub fn barrier_numbers(alloc: Global, acts: &[Act]) -> Result<Vec<usize>, AllocError>
    ensures { IfOk result (λ numbers. AreNumbers acts.now numbers.items) }
{
    let mut arrives = vec![in alloc; 0; NAMES]?;
    let mut departs = vec![in alloc; 0; NAMES]?;
    let mut numbers = Vec::new(alloc);
    for position in 0..acts.len() {
        let node = usize::from(acts[position].node);
        let mut number = 0;
        match acts[position].deed {
            Deed::Arrive => {
                number = arrives[node];
                arrives[node] = number + 1;
            }
            Deed::Depart => {
                number = departs[node];
                departs[node] = number + 1;
            }
            _ => {}
        }
        numbers.push(number)?;
    }
    Ok(numbers)
}
