//! Statements of named programs: the crate takes the tokens of statements one by one, says which of them no statements can
//! have there, and makes their trees. It does not recurse, however deep the blocks nest. Tokens are those of at most one
//! list of statements.
#![tactic(auto)]

pub mod body;
pub mod laws;
