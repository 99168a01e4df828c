//! The times of the acts of a run, each kept once for as long as it is its node's.
#![tactic(auto)]

mod acts;
pub mod timeline;

pub use acts::timeline_of;
