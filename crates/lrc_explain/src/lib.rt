//! Explains why a run ended the way it did. It tells how each node ended and why, which nodes wait in a circle, and the
//! races by the lines of the text.
#![tactic(auto)]

mod access;
mod before;
mod groups;
pub mod laws;
mod leaders;
mod site;
mod whole;

pub use leaders::leaders_of;
pub use site::{Site, act_at, site_of};
pub use whole::explain;
