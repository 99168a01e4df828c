// How a node ended.

use crate::act::Cause;

/// How a node ended.
#[derive(Clone, Copy, Debug, PartialEq, Eq)]
pub enum End {
    /// It reached the end of the text.
    Ended,
    /// It trapped.
    Trapped(Cause),
    /// It has neither trapped nor reached the end of the text.
    Unfinished,
}
