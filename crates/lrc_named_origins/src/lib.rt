//! What the statements of a core come from, in the order of the core's text.
#![tactic(auto)]

mod origins;

pub use origins::origins_of;
