//! Named programs as texts: whether a text is one, the text of its core, and its first fault.
#![tactic(auto)]

mod core_text;
pub mod fault;
pub mod laws;
mod lines;
mod named;
mod nodes;

pub use core_text::{CoreText, core_of_text};
pub use named::is_read_as_named;
