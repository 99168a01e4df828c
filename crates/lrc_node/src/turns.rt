// What a node does in a turn: it goes on by its text, or takes a message.

mod act;
pub(crate) mod letter;
mod message;
mod run;
mod send;
mod take;
