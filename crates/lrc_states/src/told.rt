// What the lines are told of.

use lrc_node::Options;
use lrc_protocol::Event;
use lrc_source::source::Source;

/// A run that was made: its source, how many nodes run it with which options, and the events of the run.
#[derive(Clone, Copy)]
pub struct Told<'a> {
    pub source: &'a Source<'a>,
    pub nodes: u8,
    pub options: Options,
    pub events: &'a [Event],
}

/// The turns that are shown: from the turn that makes the act at position `from`, to the turn that makes the act at
/// `to`. Without them, from the beginning, and to the end.
#[derive(Clone, Copy)]
pub struct Range {
    pub from: Option<u64>,
    pub to: Option<u64>,
}

/// How the lines are told.
#[derive(Clone, Copy, Debug, PartialEq, Eq)]
pub enum Telling {
    /// Events, deeds, messages and waits in words alone, as `trace --as states` prints them.
    InWords,
    /// Also as members of their own behind the others, each an object of its parts.
    AlsoInMembers,
}
