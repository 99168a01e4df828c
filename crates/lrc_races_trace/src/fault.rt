// What is wrong with an event that no program would give.

use crate::event::Event;

/// Why no program would give an event. If several reasons apply, the first in this order is given. A line is that of
/// the event to blame.
#[derive(Clone, Copy, PartialEq, Eq)]
pub enum Reason {
    /// Its thread was joined on this line.
    Joined { line: u64 },
    /// Its thread has been waiting at this barrier since this line.
    Waits { barrier: u32, line: u64 },
    /// It departs from this barrier, at which its thread has not arrived.
    NotArrived { barrier: u32 },
    /// It acquires this lock, which this other thread has held since this line.
    Held { lock: u32, thread: u32, line: u64 },
    /// It releases this lock, which its thread does not hold.
    NotHeld { lock: u32 },
    /// It forks this thread, which has been known since this line.
    Known { thread: u32, line: u64 },
}

/// An event that no program would give, and why.
#[derive(Clone, Copy, PartialEq, Eq)]
pub struct Fault {
    /// The event.
    pub event: Event,
    /// What is wrong with it.
    pub reason: Reason,
}

/// The holder of a lock.
#[derive(Clone, Copy, PartialEq, Eq)]
pub struct Holder {
    /// The thread.
    pub thread: u32,
    /// How many of its acquires have not been released yet.
    pub depth: u64,
    /// The line of the acquire by which it got the lock.
    pub line: u64,
}
