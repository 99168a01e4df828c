//! The part of `lint` that answers for a text whose names have a fault: where it is, which, and a hint on how to mend it.
#![tactic(auto)]

mod name_fault;

pub use name_fault::lint_name_fault;
