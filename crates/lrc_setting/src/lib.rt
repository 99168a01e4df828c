//! The settings of a run: the number of nodes, the steps of each node, the page size, the threshold for collections,
//! and the first message number. The types keep their ranges.
#![tactic(auto)]

pub mod setting;
