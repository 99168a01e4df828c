//! The part of `lint` that answers for a text that is read as a named program and has a fault. It reports the first fault:
//! its place, the tokens that may stand there, and a hint on how to mend it.
#![tactic(auto)]

mod head;
mod text_fault;

pub use head::push_token_fault;
pub use text_fault::lint_text_fault;
