//! The choice of the message that is delivered next.

/// Says which of the messages in flight is delivered next.
#[derive(Clone, Copy, Debug, PartialEq, Eq)]
pub enum Picker {
    /// The one that was sent first.
    Oldest,
    /// The one that was sent last.
    Newest,
    /// The one that was sent first, and each message is delivered twice.
    Twice,
}
