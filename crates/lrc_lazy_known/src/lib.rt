//! What each node, each lock (by its releases) and each barrier (by its arrives) knows of the writes to each word. This
//! decides exactly which values a lazy read may give. No position of the run is needed for it: only the values, whether
//! the known writes are ordered, and whose last write is known to whom.
#![tactic(auto)]

pub mod known;
pub mod laws;
pub mod word;
