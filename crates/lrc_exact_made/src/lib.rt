//! What the nodes of the protocol machine make of their pages, held against the exact memory: a node whose copies have what the
//! exact memory has closes intervals with the changes that the exact memory gives them, and goes on to have what it has.
#![tactic(auto)]

pub mod laws;
