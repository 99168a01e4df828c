// The steps of chains.
ghost use Rattle.std.specs.Prelude.{ℕ, List, ◌≡◌, ◌≢◌, ◌↔◌, IsTrue, MatchOption, Some, None};
ghost use Rattle.lrc_races_trace.specs.declared.event.Event.{Event as AnyEvent};
ghost use Rattle.lrc_races_trace.specs.Trace.{At, given};
ghost use Rattle.lrc_races_trace.specs.Order.{Precedes};
ghost use Rattle.lrc_races_why.specs.Links.{IsBy};

use lrc_races_trace::event::{Event, Operation};

/// By what an event comes directly before a later one. If several apply, it is the first in this order.
#[derive(Clone, Copy, PartialEq, Eq)]
pub enum Link {
    /// Both are of this thread.
    Thread(u32),
    /// The earlier one releases or posts this lock, which the later one acquires or waits for.
    Lock(u32),
    /// The earlier one forks this thread, of which the later one is.
    Fork(u32),
    /// The later one joins this thread, of which the earlier one is, or which it forks.
    Join(u32),
    /// The earlier one arrives at this barrier, from which the later one departs.
    Barrier(u32),
}

// Whether the event forks the thread.
fn forks(event: Event, thread: u32) -> bool
    ensures { IsTrue result ↔ (event.operation ≡ Operation.Fork thread) }
{
    match event.operation {
        Operation::Fork(other) => other == thread,
        _ => false,
    }
}

// The lock that an event releases or posts.
fn given(event: Event) -> Option<u32>
    ensures { MatchOption result (given event.operation ≡ None)
        (λ lock. given event.operation ≡ Some lock) }
{
    match event.operation {
        Operation::Release(lock) | Operation::Post(lock) => Some(lock),
        _ => None,
    }
}

// The barrier at which an event arrives.
fn arrived(event: Event) -> Option<u32>
    ensures { MatchOption result ((barrier : ℕ) → event.operation ≢ Operation.Arrive barrier)
        (λ barrier. event.operation ≡ Operation.Arrive barrier) }
{
    match event.operation {
        Operation::Arrive(barrier) => Some(barrier),
        _ => None,
    }
}

/// Returns by what an event comes directly before a later one.
pub fn link_of(earlier: Event, later: Event) -> Link
    ensures { (events : List AnyEvent) (i j : ℕ) → Precedes events i j → At events i earlier
        → At events j later → IsBy earlier later result }
{
    if earlier.thread == later.thread {
        return Link::Thread(later.thread);
    }
    if let Operation::Join(thread) = later.operation {
        if forks(earlier, later.thread) {
            return Link::Fork(later.thread);
        }
        return Link::Join(thread);
    }
    if let Some(lock) = given(earlier) {
        return Link::Lock(lock);
    }
    if let Some(barrier) = arrived(earlier) {
        return Link::Barrier(barrier);
    }
    Link::Fork(later.thread)
}
