// The form of a trace.

/// The format of the lines of a trace.
#[derive(Clone, Copy, PartialEq, Eq)]
pub enum Form {
    /// The format of race detectors: a thread, what it does, and where.
    Std,
    /// The format of the acts of nodes.
    Acts,
}
