//! The numbers of locks and nodes that a message can name.

/// The largest number of locks.
pub const MOST_LOCKS: u8 = 64;

/// The largest number of nodes.
pub const MOST_NODES: u8 = lrc_time::MOST_NODES as u8;
