//! What the acts of a run that reads exactly depend on.
//!
//! The exact memory gives each read one value. So, once a program and the order in which the nodes acquire each lock are
//! given, each node makes the same acts in every run, racing or not.
#![tactic(auto)]

pub mod laws;
