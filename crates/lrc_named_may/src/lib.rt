//! What may stand at a place in a named program: the first fault of a text as such, where it is, and the kinds of tokens
//! with which some named program goes on there.
#![tactic(auto)]

pub mod first_fault;
pub mod kind;
