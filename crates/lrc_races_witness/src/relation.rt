// What two lines of a trace are to each other.

/// What the events on two lines of a trace are to each other. If several apply, it is the first in this order.
#[derive(Clone, Copy, PartialEq, Eq)]
pub enum Relation {
    /// This line is no access. If neither is, it is the lesser one.
    NoAccess { line: u64 },
    /// Both are of this thread.
    OneThread { thread: u32 },
    /// They are of different variables.
    TwoVariables,
    /// Both read.
    BothRead,
    /// The earlier one happens before the later one.
    Ordered,
    /// They race, but the later one was reached by way of the earlier one.
    Reached,
    /// They are a sure race, of the accesses at these positions.
    Sure { earlier: usize, later: usize },
}

/// An access of a trace.
#[derive(Clone, Copy, PartialEq, Eq)]
pub struct Access {
    /// The number of events before it.
    pub position: usize,
    /// The thread.
    pub thread: u32,
    /// The variable.
    pub variable: u32,
    /// Whether it writes the variable.
    pub is_write: bool,
}
