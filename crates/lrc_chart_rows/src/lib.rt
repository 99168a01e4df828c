//! The data behind a picture of a run: its turns in order, a row for each turn that is shown, and the turns that take a
//! given message.
//!
//! Decisions:
//!
//! - A row's number is its place in its part, from 0, hidden rows counted.
//! - What a node begins to wait for is what it asks for: at a turn by itself without an act, the lock or page of
//!   the first message that it sends. It waits for a collection from the turn that first takes a departure with
//!   one.
//! - A message that is never taken is shown where it is sent.
#![tactic(auto)]

mod counts;
mod row;
mod taker;
mod taking;
mod turn;

pub use row::{Row, rows_of};
pub use taker::{takers, takes};
pub use taking::{Takings, takings_of};
pub use turn::{TurnOf, turns_of};
