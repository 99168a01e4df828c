//! Writes the turns of a run, or of a part of it, each as a line with the bytes of its messages. The turns are those of the
//! nodes' logs, so the bytes are those of the messages that the nodes sent.
#![tactic(auto)]

mod section;
mod seen;

pub use section::{Section, bytes_part};
