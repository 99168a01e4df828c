// The writes that a read gives what it gives by.

ghost use Rattle.std.specs.Prelude.{◌≡◌, ◌<◌, ℕ, All, IfOk, Some, length, slice_get};
ghost use Rattle.lrc_trace.specs.Run.{IsDone};
ghost use Rattle.lrc_trace.specs.declared.act.Deed.TheVariants.{Read};
ghost use Rattle.lrc_judge.specs.Order.{IsOrderOf};
ghost use Rattle.lrc_why.specs.Spread.{OfEach};
ghost use Rattle.lrc_step.specs.Given.{IsGiven, IsGivenIfRead};

use lrc_judge::order::Order;
use lrc_trace::act::{Act, Deed};
use lrc_why_chains::writes::{known_writes, last_written, unfollowed};
use std::alloc::{AllocError, Global};

/// The writes that a read gives what it gives by, as positions among the acts of the run.
#[derive(Drop)]
pub struct Given {
    /// The writes to its word that it knows and that happen before no other one that it knows, ascending.
    pub last: Vec<usize>,
    /// The last write to its word that was made before it, where it does not know that one.
    pub unknown: Option<usize>,
}

// Those of the read at the position, which is of this word.
fn writes_given(
    alloc: Global,
    acts: &[Act],
    order: &Order,
    position: usize,
    word: u32,
) -> Result<Given, AllocError>
    requires order { IsOrderOf acts.now order.now }
    ensures { (value : ℕ) → IsDone acts.now position (Read word value)
        → IfOk result (IsGiven acts.now position) }
{
    let writes = known_writes(alloc, acts, order, position, word)?;
    let last = unfollowed(alloc, order, &writes)?;
    let unknown = last_written(acts, order, position, word);
    Ok(Given { last, unknown })
}

// Those of the act at the position, if it is a read.
fn given_at(
    alloc: Global,
    acts: &[Act],
    order: &Order,
    position: usize,
) -> Result<Option<Given>, AllocError>
    requires order { IsOrderOf acts.now order.now }
    requires within { position < length acts.now }
    ensures { IfOk result (IsGivenIfRead acts.now position) }
{
    match acts[position].deed {
        Deed::Read(word, _) => {
            let given = writes_given(alloc, acts, order, position, word)?;
            Ok(Some(given))
        }
        _ => Ok(None),
    }
}

/// Returns those of the act at each of these positions.
pub(crate) fn given_of_each(
    alloc: Global,
    acts: &[Act],
    order: &Order,
    positions: &[usize],
) -> Result<Vec<Option<Given>>, AllocError>
    requires order { IsOrderOf acts.now order.now }
    requires within { All (λ position. position < length acts.now) positions.now }
    ensures { IfOk result (λ each. OfEach (length positions.now)
        (λ place given. (position : ℕ) → slice_get positions.now place ≡ Some position
        → IsGivenIfRead acts.now position given) each.items) }
{
    let mut each = Vec::new(alloc);
    for position in positions {
        let given = given_at(alloc, acts, order, *position)?;
        each.push(given)?;
    }
    Ok(each)
}
