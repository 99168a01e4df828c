//! Laws of the addresses of elements: with indices below their sizes an address is the place of the element, by rows; with an index
//! that is not below its size it is 2^64 - 1, more than any word or lock has as its number; and different elements have different places.
#![tactic(auto)]

pub mod laws;
