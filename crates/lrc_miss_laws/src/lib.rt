//! One law: a node asks for all that its copies lack, although the machine asks only for what is not known.
#![tactic(auto)]

pub mod laws;
