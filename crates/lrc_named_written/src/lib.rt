//! The core of a named program as a text, within the limits: the text of the core, or the first statement whose core is over
//! a limit, or that the text would be too long.
#![tactic(auto)]

mod privates;
mod written;

pub use written::{MOST_BYTES, Written, core_text};
