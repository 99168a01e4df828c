//! The store of one node: every interval that the node has heard of, with its write notices and the changes (diffs)
//! that have arrived for them (Keleher, Cox and Zwaenepoel 1992; Amza et al. 1996). It finds what another node lacks,
//! and the changes that a page lacks, in the order in which they are applied. A collection discards old intervals.
#![tactic(auto)]

mod arena;
mod chains;
pub mod interval;
pub mod intervals;
pub mod key;
pub mod laws;
mod link;
mod links;
mod lists;
mod nodes;
mod row;
pub mod store;

pub use interval::Interval;
pub use intervals::Intervals;
pub use key::Key;
pub use link::{IntervalAt, NoticeAt};
pub use store::Store;
