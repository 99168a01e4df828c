//! The outcomes of the exact runs of a program: what its runs over the exact memory have printed when no node can act.
//!
//! The exact memory gives a read one value, and what a node reads changes by its own acts alone. So an act that acquires no
//! lock may be made first: only who acquires a lock next is left open.
#![tactic(auto)]

pub mod laws;
