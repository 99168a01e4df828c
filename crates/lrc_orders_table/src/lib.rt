//! A table of settled states, each as a row of numbers of its parts. What a thread does next is worked out once, so a
//! step that was taken before costs look-ups alone.
#![tactic(auto)]

pub mod known;
pub mod laws;
pub mod next;
pub mod notes;
pub mod parts;
pub mod rows;
pub mod seen;
mod shared;
pub mod steps;
pub mod table;
