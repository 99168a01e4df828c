//! The syntax trees of named programs. A named program declares the words, arrays and locks that it shares, constants
//! and functions, and has statements that use them by name. The crate defines the trees and the grammar, which says of
//! which tokens a tree is. Each tree knows which tokens of its text it is made of.
#![tactic(auto)]

pub mod laws;
mod places;
pub mod tree;
