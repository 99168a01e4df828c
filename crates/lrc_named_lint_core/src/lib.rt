//! The part of `lint` that answers for a named program whose core is over a limit or would be too long.
#![tactic(auto)]

mod core_fault;

pub use core_fault::lint_core_fault;
