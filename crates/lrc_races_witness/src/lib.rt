//! What two events of a trace are to each other, and the reordering that shows a sure race: all events by way of which
//! the two accesses were reached, and then these two side by side. For two events that are no sure race, it says why.
#![tactic(auto)]

pub mod answer;
pub mod past;
pub mod relating;
pub mod relation;
pub mod reordering;
mod spelling;
