//! The exact machine: the plain machine, in which each node sees what the exact memory has for it in place of one flat memory.
//! So the acts of a run that reads exactly are a function of the program, the shape and the order of the nodes.
#![tactic(auto)]

pub mod laws;
