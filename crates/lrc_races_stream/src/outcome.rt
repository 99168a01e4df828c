// What has come of a trace.

use lrc_races_text::ill::Ill;
use std::io::ErrorKind;

/// The outcome of reporting a trace while it is read.
#[derive(Drop)]
pub enum Outcome {
    /// The trace was read to its end, and this is the exit status.
    Ended(u8),
    /// The line with this number, counted from 1, does not have the trace's form, and this says why.
    BadEvent(u64, Vec<u8>),
    /// No program would give this event, and strictness is asked for.
    IllFormed(Ill),
    /// Memory ran out.
    NoMemory,
    /// The trace can be read no further.
    Unread(ErrorKind),
    /// A write failed.
    Unwritten,
}
