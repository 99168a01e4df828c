//! The race reports that `races` prints of a trace, block by block: the events of its lines, the races reported for
//! them, groups of races, and the first event that no program would give.
//!
//! Decisions:
//!
//! - A reason why a trace is not well formed says `thread` and `barrier` even with `--as acts`. Only race lines
//!   say `node` and `word`.
//! - A group of races is its first pair and a count. Locations and kinds are read off the pair.
#![tactic(auto)]

pub mod acts;
pub mod asked;
pub mod fault;
pub mod form;
pub mod halt;
pub mod ill;
pub mod judged;
pub mod layouts;
pub mod naming;
pub mod objects;
pub mod race_detector;
pub mod reading;
pub mod session;
pub mod spelling;
