// Acts: what one node does in one step, as every definition on runs sees it.

/// Why a statement trapped. `cause as u8` is the number that a report prints.
#[derive(Clone, Copy, Debug, PartialEq, Eq, Hash)]
pub enum Cause {
    /// A division or a remainder by zero.
    DivisionByZero = 1,
    /// A word number that is not below the program's number of words.
    WordOutOfRange = 2,
    /// A lock number that is not below the program's number of locks.
    LockOutOfRange = 3,
    /// An acquire of a lock that this node holds.
    LockHeld = 4,
    /// A release of a lock that this node does not hold.
    LockNotHeld = 5,
}

/// What a node does in one act.
#[derive(Clone, Copy, PartialEq, Eq, Hash)]
pub enum Deed {
    /// Takes a step that only this node sees: an assignment, or a condition.
    Quiet,
    /// Prints a value.
    Print(u64),
    /// Reads a word of the shared memory, and gets this value.
    Read(u32, u64),
    /// Writes this value to a word of the shared memory.
    Write(u32, u64),
    /// Acquires a lock.
    Acquire(u8),
    /// Releases a lock.
    Release(u8),
    /// Arrives at a barrier.
    Arrive,
    /// Departs from a barrier, once every node has arrived at it.
    Depart,
    /// Stops forever, in place of a statement that cannot be carried out.
    Trap(Cause),
    /// Stops forever, at the end of the text.
    End,
}

/// One act of one node. A run is a list of acts, and positions in it are counted from 0.
#[derive(Clone, Copy, PartialEq, Eq, Hash)]
pub struct Act {
    /// The node, 0 to 15.
    pub node: u8,
    /// What it does.
    pub deed: Deed,
}
