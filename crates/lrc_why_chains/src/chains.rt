// Chains: by which acts one act happens before another.
ghost use Rattle.std.specs.Prelude.{◌≡◌, ℕ, ◌<◌, ◌≤◌, IfOk, MatchOption, length, vec_len};
ghost use Rattle.lrc_trace.specs.Order.{HappensBefore};
ghost use Rattle.lrc_why_chains.specs.Chains.{IsTold};
ghost use Rattle.lrc_why_chains.specs.Numbers.{AreNumbers};
ghost use Rattle.lrc_why_chains.specs.Starts.{AreNext};

use crate::numbers::barrier_numbers;
use crate::onward::Onward;
use crate::starts::{Start, from_here};
use lrc_trace::act::Act;
use std::alloc::{AllocError, Global};

/// Returns the least of the shortest chains from one position to another. Returns none if the first position does not
/// happen before the second, or if there are no such acts. It takes one pass over all acts, and one from the second
/// position back to the first. It fails if memory runs out.
pub fn chain_told(
    alloc: Global,
    acts: &[Act],
    from: usize,
    to: usize,
) -> Result<Option<Vec<usize>>, AllocError>
    ensures { IfOk result (λ told. MatchOption told (¬ HappensBefore acts.now from to)
        (λ chain. IsTold acts.now from to chain.items)) }
{
    if from >= to || to >= acts.len() {
        return Ok(None);
    }
    let numbers = barrier_numbers(alloc, acts)?;
    let next = starts_from(alloc, acts, &numbers, from, to)?;
    follow(alloc, acts, &next, from, to)
}

// For each position between the two, where the chain that is told from it to the second goes on.
fn starts_from(
    alloc: Global,
    acts: &[Act],
    numbers: &[usize],
    from: usize,
    to: usize,
) -> Result<Vec<Option<Start>>, AllocError>
    requires numbers { AreNumbers acts.now numbers.now }
    requires earlier { from < to }
    requires within { to < length acts.now }
    ensures { IfOk result (λ next. AreNext acts.now to from next.items) }
{
    let mut onward = Onward::new(alloc, acts.len())?;
    let mut next = vec![in alloc; None; to]?;
    onward.note(
        acts,
        numbers,
        to,
        Some(Start {
            acts: 1,
            position: to,
        }),
        to,
    );
    for position in (from..to).rev() {
        let best = onward.best_from(acts, numbers, position, to);
        next[position] = best;
        onward.note(acts, numbers, position, from_here(best, position), to);
    }
    Ok(next)
}

// The chain along the positions at which it goes on.
fn follow(
    alloc: Global,
    acts: &[Act],
    next: &[Option<Start>],
    from: usize,
    to: usize,
) -> Result<Option<Vec<usize>>, AllocError>
    requires earlier { from < to }
    requires next { AreNext acts.now to from next.now }
    ensures { IfOk result (λ told. MatchOption told (¬ HappensBefore acts.now from to)
        (λ chain. IsTold acts.now from to chain.items)) }
{
    let mut chain = Vec::new(alloc);
    let mut at = from;
    while at < to {
        chain.push(at)?;
        match next[at] {
            Some(start) => at = start.position,
            None => return Ok(None),
        }
    }
    chain.push(to)?;
    Ok(Some(chain))
}
