// Races as a report names them.

/// Two accesses of different nodes to one word, at least one of them a write, that are not ordered. They are named by
/// their nodes and intervals. Races are ordered by their fields, in the order given here.
#[derive(Clone, Copy, PartialEq, Eq, PartialOrd, Ord)]
pub struct Race {
    /// The word of shared memory.
    pub word: u32,
    /// The lower node.
    pub node_a: u8,
    /// The higher node.
    pub node_b: u8,
    /// The interval of the lower node's access, from 1.
    pub interval_a: u64,
    /// The interval of the higher node's access, from 1.
    pub interval_b: u64,
}
