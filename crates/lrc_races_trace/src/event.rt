// Events of a trace, and the pairs of them that are told.

/// What a thread does in one event. Variables, locks, threads and barriers are numbered, each kind separately.
#[derive(Clone, Copy, PartialEq, Eq)]
pub enum Operation {
    /// Reads a variable.
    Read(u32),
    /// Writes a variable.
    Write(u32),
    /// Acquires a lock. What was done before the lock was released or posted earlier happens before this event.
    Acquire(u32),
    /// Releases a lock.
    Release(u32),
    /// Orders events as a release does, but releases nothing.
    Post(u32),
    /// Orders events as an acquire does, but acquires nothing.
    Wait(u32),
    /// Starts a thread.
    Fork(u32),
    /// Waits for the end of a thread.
    Join(u32),
    /// Arrives at a barrier.
    Arrive(u32),
    /// Departs from a barrier.
    Depart(u32),
    /// Does nothing.
    Idle,
}

/// One event of a trace. A trace is a list of events, and positions in it count from 0.
#[derive(Clone, Copy, PartialEq, Eq)]
pub struct Event {
    /// The thread.
    pub thread: u32,
    /// What the thread does.
    pub operation: Operation,
    /// The line of the file with the event.
    pub line: u64,
    /// Where in its program the thread does it, if that is known.
    pub location: Option<u32>,
}

/// An event with its position.
#[derive(Clone, Copy, PartialEq, Eq)]
pub struct Placed {
    /// The number of events before it.
    pub position: u64,
    /// The event.
    pub event: Event,
}

/// Two accesses.
#[derive(Clone, Copy, PartialEq, Eq)]
pub struct Pair {
    /// The earlier one.
    pub earlier: Placed,
    /// The later one.
    pub later: Placed,
}
