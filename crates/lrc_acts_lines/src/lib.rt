//! The line numbers to report for the acts of a text: the line that the comment behind an act names, as in `# line L`,
//! or else the act's line.
#![tactic(auto)]

mod named;

pub use named::act_lines;
