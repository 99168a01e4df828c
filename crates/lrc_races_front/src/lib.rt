//! The first lines of a trace, up to a given one, as they come, and what is kept of them: the events, and the text of
//! each, or another value.
#![tactic(auto)]

pub mod front;
pub mod keeping;
pub mod kept;
