//! Expressions of named programs: the crate takes the tokens of one, one by one, says which of them no expression can have
//! there, and makes the tree of the whole. It does not recurse, however deep the expression nests. Its laws say that
//! tokens begin with at most one expression behind which a token stands that ends it.
#![tactic(auto)]

pub mod laws;
mod level;
mod link;
pub mod partial;
