//! The address of an element of an array: the expression of the core that says which word or lock it is. Indices that are
//! numbers below their sizes are added up; of the others the expression has tests that they are below their sizes.
#![tactic(auto)]

mod element;

pub use element::address;
