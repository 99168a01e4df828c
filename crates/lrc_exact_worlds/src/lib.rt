//! What every run of the protocol machine reads, races or not: the values of the exact memory, a function of the program, the
//! nodes, the size of a page, how many intervals make a barrier collect, and the order in which nodes acquire each lock.
//! The crate has laws only.
#![tactic(auto)]

pub mod laws;
