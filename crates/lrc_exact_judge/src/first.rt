// The first read that does not give what the exact memory has.

ghost use Rattle.std.specs.Prelude.{◌<◌, ◌≤◌, All, IfOk, MatchOption, length};
ghost use Rattle.lrc_trace.specs.Synchronization.{IsWellSynchronized, WaitsAtBarriers};
ghost use Rattle.lrc_exact.specs.Rule.{ReadsExactly};
ghost use Rattle.lrc_exact_judge.specs.First.{IsFirstInexact, IsFound};
ghost use Rattle.lrc_exact_judge.specs.Shape.{shape_of};

use crate::layout::Layout;
use crate::looked_at::looked_at;
use crate::memory::Memory;
use lrc_trace::act::{Act, Deed};
use std::alloc::{AllocError, Global};

/// A read that does not give what the exact memory has.
#[derive(Clone, Copy)]
pub struct Inexact {
    /// The position of the read, counted from 0.
    pub position: usize,
    /// The value that it gives, and the value that the memory has for its node.
    pub read: u64,
    pub given: u64,
}

/// Returns the first read that does not give what the exact memory has for its node, or none. Looked at are the acts
/// before the first at which they are no longer well synchronized, or at which a node acts between an arrive and its
/// next depart. It fails if memory runs out; there is no memory for 2^32 acts or more.
pub fn first_inexact(
    alloc: Global,
    acts: &[Act],
    layout: Layout,
) -> Result<Option<Inexact>, AllocError>
    requires { All (λ act. act.node < layout.nodes) acts.now }
    ensures { IfOk result (IsFound (shape_of layout) acts.now) }
{
    if acts.len() > u32::MAX as usize {
        return Err(AllocError);
    }
    first_in(alloc, &acts[..looked_at(acts, layout.nodes)], layout)
}

// The same in acts that are well synchronized, and of which none stands between an arrive of its node and its depart.
fn first_in(alloc: Global, acts: &[Act], layout: Layout) -> Result<Option<Inexact>, AllocError>
    requires nodes { All (λ act. act.node < layout.nodes) acts.now }
    requires short { length acts.now ≤ 4294967295 }
    requires synchronized { IsWellSynchronized layout.nodes acts.now }
    requires waits { WaitsAtBarriers acts.now }
    ensures { IfOk result (λ found. MatchOption found (ReadsExactly (shape_of layout) acts.now)
        (IsFirstInexact (shape_of layout) acts.now (length acts.now))) }
{
    let mut memory = Memory::new(alloc, layout)?;
    for position in 0..acts.len() {
        if let Deed::Read(word, read) = acts[position].deed {
            let given = memory.value(&acts[..position], acts[position].node, word);
            if read != given {
                return Ok(Some(Inexact {
                    position,
                    read,
                    given,
                }));
            }
        }
        memory.step(alloc, &acts[..position], acts[position])?;
    }
    Ok(None)
}
