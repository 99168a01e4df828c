//! The weaver: it puts the turns of nodes that ran in parallel into one order, so that they make one run of the
//! simulator. Its input is the log of each node and the history of each mailbox. It orders turns by their stamps, which
//! count as logical clocks do (Lamport 1978), and then by node.
//!
//! Decisions:
//!
//! - What must match is stated for each sender and owner, not entry by entry: a mailbox's order is free between
//!   the puts of two senders. `weave_run`, which `run` calls, also compares a node's takes with its puts to
//!   itself.
//! - `weave` and `weave_run` take mailboxes, not the post's `Wires`: they need no order of delivery, so a caller's
//!   own mailboxes can be woven too.
//! - Logs are compared with the post by writing each message over the one before (`spell_over`), which takes no
//!   memory.
#![tactic(auto)]

mod again;
mod compared;
mod events;
mod fault;
mod history;
pub mod laws;
mod lines;
mod order;
mod owner;
mod putting;
mod spelled;
mod takes;
mod woven;

pub use fault::WeaveFault;
pub use woven::{WovenRun, events_of, events_with, weave, weave_run};
