//! The pairs of locations of a trace at which accesses race: of all pairs of accesses that race, and not only of those
//! that are reported of each access.
#![tactic(auto)]

pub mod detector;
pub mod layouts;
pub mod located;
pub mod locator;
pub mod objects;
pub mod spelling;
pub mod spots;
