//! Tells what keeps the nodes of a run from going on. It finds what comes next at each node, which node holds the lock
//! or has not reached the barrier that comes next, and which nodes wait for each other in a circle.
#![tactic(auto)]

mod circles;
mod counts;
mod holder;
pub mod laws;
mod missing;
mod stand;
mod stuck;
mod traps;
mod words;

pub use circles::{circle_of, push_circle, push_deadlocks, waits_of};
pub use holder::Holder;
pub use stand::{Coming, Fate, Stand, stands_of};
pub use stuck::{push_end, stuck_part};
pub use traps::{Wording, trap_at, traps_told};
