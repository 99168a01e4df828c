// Groups of the pairs that are told.

use crate::event::Pair;

/// A group of reported pairs: those whose accesses have the same locations and kinds (read or write) as the accesses of
/// the first of them.
#[derive(Clone, Copy, PartialEq, Eq)]
pub struct Group {
    /// The first reported pair of the group.
    pub first: Pair,
    /// The number of pairs in the group.
    pub count: u64,
}
