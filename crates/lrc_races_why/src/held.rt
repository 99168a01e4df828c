// The locks that a thread holds.
ghost use Rattle.std.specs.Prelude.{◌≡◌, ◌≢◌, ℕ, ◌+◌, ◌-◌, ◌<◌, ◌≤◌, ◌^◌, List, [], ◌∷◌, ◌++◌, IfOk, MatchOption, OnOk, Some, None, length};
ghost use Rattle.lrc_races_trace.specs.declared.event.Event.{Event as AnyEvent};
ghost use Rattle.lrc_races_trace.specs.Trace.{At};
ghost use Rattle.lrc_races_why.specs.Held.{holding_at, after_event, AreHoldings, IsSince, AreHeld, IsHoldingSet};

use lrc_races_trace::event::{Event, Operation};
use std::alloc::{AllocError, Global};

/// How a thread holds a lock.
#[derive(Clone, Copy)]
pub struct Holding {
    /// How many of its acquires it has not released.
    pub depth: u64,
    /// If there are any, the position at which it came to hold the lock.
    pub since: usize,
}

// What is kept of a lock; of one of which nothing is kept, that the thread does not hold it.
fn holding_at(holdings: &[Holding], lock: usize) -> Holding
    ensures { result ≡ holding_at holdings.now lock }
{
    match holdings.get(lock) {
        Some(holding) => *holding,
        None => Holding { depth: 0, since: 0 },
    }
}

// Sets what is kept of a lock.
fn set(holdings: &mut Vec<Holding>, lock: usize, holding: Holding) -> Result<(), AllocError>
    ensures { OnOk result (IsHoldingSet holdings.old.items holdings.new.items lock holding) }
{
    while holdings.len() <= lock {
        holdings.push(Holding { depth: 0, since: 0 })?;
    }
    holdings[lock] = holding;
    Ok(())
}

// A lock that the thread acquires at this position.
fn acquired(holding: Holding, position: usize) -> Holding
    ensures depth { holding.depth + 1 < 2 ^ 64 → result.depth ≡ holding.depth + 1 }
    ensures first { holding.depth ≡ 0 → result.since ≡ position }
    ensures again { holding.depth ≢ 0 → result.since ≡ holding.since }
{
    let since = if holding.depth == 0 {
        position
    } else {
        holding.since
    };
    Holding {
        depth: holding.depth.saturating_add(1),
        since,
    }
}

// A lock that it releases.
fn released(holding: Holding) -> Holding
    ensures depth { result.depth ≡ holding.depth - 1 }
    ensures since { result.since ≡ holding.since }
{
    Holding {
        depth: holding.depth.saturating_sub(1),
        since: holding.since,
    }
}

// Takes the thread's event at a position.
fn take(holdings: &mut Vec<Holding>, event: Event, position: usize) -> Result<(), AllocError>
    ensures { OnOk result ((events : List AnyEvent) → position + 1 < 2 ^ 64 → At events position event
        → AreHoldings events event.thread position holdings.old.items
        → AreHoldings events event.thread (position + 1) holdings.new.items) }
{
    match event.operation {
        Operation::Acquire(lock) => {
            let holding = holding_at(holdings.as_slice(), lock as usize);
            set(holdings, lock as usize, acquired(holding, position))?;
            Ok(())
        }
        Operation::Release(lock) => {
            let holding = holding_at(holdings.as_slice(), lock as usize);
            set(holdings, lock as usize, released(holding))?;
            Ok(())
        }
        _ => Ok(()),
    }
}

// Takes the event at a position, of any thread.
fn take_of(
    holdings: &mut Vec<Holding>,
    event: Event,
    thread: u32,
    position: usize,
) -> Result<(), AllocError>
    ensures { OnOk result ((events : List AnyEvent) → position + 1 < 2 ^ 64
        → At events position event → AreHoldings events thread position holdings.old.items
        → AreHoldings events thread (position + 1) holdings.new.items) }
{
    if event.thread != thread {
        return Ok(());
    }
    take(holdings, event, position)?;
    Ok(())
}

// What is kept of the locks of a thread before a position.
fn holdings_of(
    alloc: Global,
    events: &[Event],
    thread: u32,
    position: usize,
) -> Result<Vec<Holding>, AllocError>
    requires { position ≤ length events.now }
    ensures { IfOk result (λ holdings. AreHoldings events.now thread position holdings.items) }
{
    let mut holdings = Vec::new(alloc);
    for at in 0..position {
        let event = events[at];
        take_of(&mut holdings, event, thread, at)?;
    }
    Ok(holdings)
}

// The lock that the thread came to hold by the event at a position, and has held since.
fn held_since(holdings: &[Holding], event: Event, thread: u32, position: usize) -> Option<u32>
    ensures { (events : List AnyEvent) (n : ℕ) → position < n → At events position event
        → AreHoldings events thread n holdings.now
        → MatchOption result ((lock : ℕ) → ¬ IsSince events thread lock n position)
        (λ lock. IsSince events thread lock n position) }
{
    if event.thread != thread {
        return None;
    }
    let Operation::Acquire(lock) = event.operation else {
        return None;
    };
    let holding = holding_at(holdings, lock as usize);
    if holding.depth == 0 {
        return None;
    }
    if holding.since != position {
        return None;
    }
    Some(lock)
}

// Adds a lock, if there is one.
fn add(locks: &mut Vec<u32>, lock: Option<u32>) -> Result<(), AllocError>
    ensures some { OnOk result ((added : ℕ) → lock ≡ Some added
        → locks.new.items ≡ locks.old.items ++ added ∷ []) }
    ensures none { OnOk result (lock ≡ None → locks.new.items ≡ locks.old.items) }
{
    match lock {
        Some(lock) => {
            locks.push(lock)?;
            Ok(())
        }
        None => Ok(()),
    }
}

/// Returns the locks that a thread holds at a position, in the order in which it came to hold them. It fails if memory
/// runs out.
pub fn held_at(
    alloc: Global,
    events: &[Event],
    thread: u32,
    position: usize,
) -> Result<Vec<u32>, AllocError>
    requires { position ≤ length events.now }
    ensures { IfOk result (λ locks. AreHeld events.now thread position locks.items) }
{
    let holdings = holdings_of(alloc, events, thread, position)?;
    let mut locks = Vec::new(alloc);
    for at in 0..position {
        let event = events[at];
        let lock = held_since(holdings.as_slice(), event, thread, at);
        add(&mut locks, lock)?;
    }
    Ok(locks)
}
