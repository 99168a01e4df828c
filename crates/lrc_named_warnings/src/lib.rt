//! What is warned of in a named program without a fault: what is warned of in its core, told of the statements that the core
//! comes from and in their words; loops that learn of no write; and names that nothing uses. The warnings are sorted, and
//! the same words of one place are told once.
#![tactic(auto)]

pub mod context;
mod lines;
pub mod note;
mod notes;
mod told;
mod words;

pub use told::push_told;
