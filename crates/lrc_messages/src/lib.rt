//! Writes messages in words. It tells what one node says to another, and gives a line for each message that a node
//! takes or sends.
#![tactic(auto)]

mod changes;
mod envelope;
mod kind;
mod lists;
mod message;
mod news;

pub use envelope::{push_all_sent, push_sent, push_size, push_taken};
pub use kind::kind_name;
pub use message::push_message;
