// What may happen next in a run.

/// One event of a run: a node goes on, or a message is delivered.
#[derive(Clone, Copy, Debug, PartialEq, Eq)]
pub enum Event {
    /// The node with this number goes on. The event is skipped if no node has this number, or if the node is not ready.
    Run(u32),
    /// The message at this place in flight is delivered. Places count from 0, the oldest message. The event is skipped
    /// if no message has this place.
    Deliver(u32),
    /// As `Deliver`, but the message stays in flight at its place.
    Repeat(u32),
}
