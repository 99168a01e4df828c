// What a node has learned of the writes.

use crate::kept::Kept;
use lrc_judge::NODES;
use std::collections::BTreeMap;

/// What a node has learned of the writes so far.
#[derive(Drop)]
pub(crate) struct Reader {
    /// Of each node the position before which all its writes are known, and no others.
    pub(crate) next: [usize; NODES],
    /// What is kept of each word.
    pub(crate) words: BTreeMap<u32, Kept>,
}
