//! Why two events of a trace are ordered, or race: a chain by which the one happens before the other, the least of the
//! shortest, and for accesses that race the locks that their threads hold.
#![tactic(auto)]

pub mod answer;
pub mod chain;
pub mod cycles;
mod deed;
pub mod held;
pub mod link;
mod onward;
mod spelling;
