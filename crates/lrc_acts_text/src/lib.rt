//! Writes what a run did as text, in three forms. Plain words and JSON have one line for each act. The third form is a
//! trace for the race detectors of the RAPID framework, in which locks stand for barriers.
#![tactic(auto)]

mod acts;
mod json;
pub mod laws;
mod rapid;
mod tally;

pub use acts::acts_part;
pub use json::{json_part, push_entries};
pub use rapid::rapid_part;
