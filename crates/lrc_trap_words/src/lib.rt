//! Why a statement traps, in words: of a named program by what its text says there.
#![tactic(auto)]

mod words;

pub use words::push_cause;
