//! Writes the state of a node as a JSON object: its time, what it waits for, tokens, barriers, page copies, and the
//! intervals that it stores. Intervals that were shown before can be left out.
#![tactic(auto)]

mod copies;
mod intervals;
mod json;
mod known;
mod locks;
mod manager;
mod needs;
mod place;
mod state;
mod stored;
mod waits;
mod words;

pub use known::Known;
pub use place::{NamedValue, Place};
pub use state::{push_next_state, push_state};
