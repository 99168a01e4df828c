//! The document that shows a run turn by turn in a browser. It is a constant frame with one place for the run's lines,
//! each of which is a JSON object. This crate builds the frame and the lines about the program, spells any text within
//! a line, and makes three parts of the lines. The lines about states come from another crate.
//!
//! `ends`: the output of `explain` for the run, how each node ended, and which nodes wait in a circle. `races`: for each
//! shown access and each other node, that node's least access that races with it; the pairs come by the groups of the run
//! with reasons. `reasons`: the output of `why` for each shown read, and for each shown write that races; of a read the writes
//! that it gives what it gives by.
#![tactic(auto)]

mod document;
mod end_lines;
mod ends;
mod frame;
mod given;
mod groups;
pub mod laws;
mod lines;
mod races;
mod reason_lines;
mod reasons;
mod rivals;
mod script;
mod shown;
mod spelling;
mod told;

pub use document::{document_parts, step_document};
pub use end_lines::{End, push_explain_line};
pub use ends::explain_part;
pub use frame::OPENING;
pub use given::Given;
pub use lines::{push_program_line, push_race_line, push_why_line};
pub use races::races_part;
pub use reasons::reasons_part;
pub use rivals::Rival;
pub use script::CLOSING;
pub use shown::{Part, is_shown, shown_pairs};
pub use spelling::push_spelled;
