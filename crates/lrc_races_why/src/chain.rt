// Chains: by which events one event happens before another.
ghost use Rattle.std.specs.Prelude.{◌≡◌, ◌<◌, IfOk, MatchOption, length};
ghost use Rattle.lrc_races_trace.specs.Order.{Precedes, HappensBefore};
ghost use Rattle.lrc_chains.specs.Chains.{IsTold};
ghost use Rattle.lrc_chains.specs.Starts.{AreNext};
ghost use Rattle.lrc_races_why.specs.Cycles.{AreNumbers};

use crate::cycles::cycles_of;
use crate::onward::Onward;
use lrc_chains::starts::{Start, from_here};
use lrc_races_trace::event::Event;
use std::alloc::{AllocError, Global};

// For each position between the two, where the chain that is told from it to the second goes on.
fn starts_from(
    alloc: Global,
    events: &[Event],
    numbers: &[Option<usize>],
    from: usize,
    to: usize,
) -> Result<Vec<Option<Start>>, AllocError>
    requires numbers { AreNumbers events.now numbers.now }
    requires earlier { from < to }
    requires within { to < length events.now }
    ensures { IfOk result (λ next. AreNext (Precedes events.now) to from next.items) }
{
    let mut onward = Onward::new(alloc);
    let mut next = vec![in alloc; None; to]?;
    let last_event = events[to];
    let last_number = numbers[to];
    let last = Start {
        size: 1,
        position: to,
    };
    onward.note(last_event, last_number, Some(last))?;
    for position in (from..to).rev() {
        let event = events[position];
        let number = numbers[position];
        let best = onward.best_from(event, number);
        next[position] = best;
        onward.note(event, number, from_here(best, position))?;
    }
    Ok(next)
}

// The chain along the positions at which it goes on.
fn follow(
    alloc: Global,
    events: &[Event],
    next: &[Option<Start>],
    from: usize,
    to: usize,
) -> Result<Option<Vec<usize>>, AllocError>
    requires earlier { from < to }
    requires next { AreNext (Precedes events.now) to from next.now }
    ensures { IfOk result (λ told. MatchOption told (¬ HappensBefore events.now from to)
        (λ chain. IsTold (Precedes events.now) from to chain.items)) }
{
    let mut chain = Vec::new(alloc);
    let mut at = from;
    while at < to {
        chain.push(at)?;
        match next[at] {
            Some(start) => at = start.position,
            None => return Ok(None),
        }
    }
    chain.push(to)?;
    Ok(Some(chain))
}

/// Returns the least of the shortest chains from one position to a later one, or none if the event at the first does not
/// happen before that at the second. It takes one pass over the events, and one from the second position back to the
/// first. It fails if memory runs out.
pub fn chain_told(
    alloc: Global,
    events: &[Event],
    from: usize,
    to: usize,
) -> Result<Option<Vec<usize>>, AllocError>
    requires earlier { from < to }
    requires within { to < length events.now }
    ensures { IfOk result (λ told. MatchOption told (¬ HappensBefore events.now from to)
        (λ chain. IsTold (Precedes events.now) from to chain.items)) }
{
    let numbers = cycles_of(alloc, events)?;
    let next = starts_from(alloc, events, numbers.as_slice(), from, to)?;
    follow(alloc, events, next.as_slice(), from, to)
}
