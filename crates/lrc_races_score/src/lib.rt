//! The claims of a detector's report about a trace, and a reader of such reports: it gives the claims, each with its
//! line, or the first line that is none.
#![tactic(auto)]

pub mod claim;
pub mod reading;
pub mod report;
