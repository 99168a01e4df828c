// What the lines are told of: acts, each with its line and its interval, and labels.

use lrc_labels::label::Label;
use lrc_named_core::tree::Trap;
use lrc_trace::act::Act;

/// The acts that the lines describe: the source line and the interval of each, and the labels of words and locks.
#[derive(Clone, Copy)]
pub struct Shown<'a, 'p> {
    pub acts: &'a [Act],
    pub lines: &'a [u32],
    pub intervals: &'a [u64],
    pub labels: &'a [Label<'a>],
    /// What the text says of a trap of the statement of the act that is asked of.
    pub trap: Trap<'p>,
}
