//! What the nodes of states share, each once and by number: the words of the memory, of which like parts stand once,
//! and who holds each lock.
#![tactic(auto)]

pub mod numbers;
pub mod parts;
pub mod sharing;
