//! Graphs of places with numbers: from which places edges lead to one of some. Each place and each edge is looked at
//! once.
#![tactic(auto)]

pub mod graph;
pub mod reached;
