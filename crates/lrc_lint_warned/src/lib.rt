//! Finds what is likely to be wrong with a well-formed program, one function for each kind of warning. The laws of
//! lrc_lint_laws and lrc_lint_laws say what each warning means for the runs.
#![tactic(auto)]

pub mod access;
pub mod blocks;
mod constant;
pub mod found;
pub mod held;
pub mod inside;
pub mod laws;
pub mod locks;
pub mod names;
pub mod operations;
pub mod places;
mod undone;
pub mod words;
