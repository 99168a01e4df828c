// What is said of a claim.

/// Why a claim is false. If several reasons hold, the first in this order is given.
#[derive(Clone, Copy, PartialEq, Eq)]
pub enum Reason {
    /// It names a line behind the last one of the trace, which is this.
    TraceEnds { line: u64 },
    /// This line, which it names, is no access. If both are none, it is the lesser one.
    NoAccess { line: u64 },
    /// The access races with no earlier one.
    NoEarlier,
    /// Both accesses are of this thread.
    OneThread { thread: u32 },
    /// They are of different variables.
    TwoVariables,
    /// Both read.
    BothRead,
    /// The one on the lesser line happens before the other. Of sure races: the other was reached by way of it.
    Separated { lesser: u64, greater: u64 },
    /// No access is at the first location.
    NoneAtFirst,
    /// No access is at the second location.
    NoneAtSecond,
    /// No two accesses at the two locations race.
    PlacesApart,
    /// No access is of the variable.
    NoneOfVariable,
    /// No access of the variable races.
    VariableApart,
    /// The first access of the variable that races with an earlier one is on this line.
    FirstIs { line: u64 },
}

/// What is said of a claim.
#[derive(Clone, Copy, PartialEq, Eq)]
pub enum Verdict {
    /// It is true.
    True,
    /// It is false, for this reason.
    False(Reason),
}
