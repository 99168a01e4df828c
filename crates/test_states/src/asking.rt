// The lines of a run, beside those that are wanted.

use crate::checks::Mistake;
use lrc_node::Options;
use lrc_protocol::Event;
use lrc_source::read_text::ReadText;
use lrc_source::source::Source;
use lrc_source::text::SourceText;
use lrc_states::{Range, Telling, Told, states_parts};
use std::alloc::Global;

/// More steps than a node makes here.
pub const MANY_STEPS: u32 = 1_000_000;

/// All turns.
pub const ALL: Range = Range {
    from: None,
    to: None,
};

/// The text of a program, how it is run, and by which events.
#[derive(Clone, Copy)]
pub struct Run<'a> {
    pub text: &'a [u8],
    pub nodes: u8,
    pub options: Options,
    pub events: &'a [Event],
}

/// The lines of those turns of a run that are in a range.
pub fn lines_of(
    alloc: Global,
    telling: Telling,
    run: &Run<'_>,
    range: Range,
) -> Result<Vec<Vec<u8>>, Mistake> {
    let text = ReadText::written(run.text);
    lines_of_text(alloc, telling, &text, run, range)
}

// The same of the text.
fn lines_of_text(
    alloc: Global,
    telling: Telling,
    text: &ReadText<'_>,
    run: &Run<'_>,
    range: Range,
) -> Result<Vec<Vec<u8>>, Mistake> {
    let read = SourceText::read(alloc, text)?;
    lines_of_read(alloc, telling, &read, run, range)
}

// The same of its text as it is read.
fn lines_of_read(
    alloc: Global,
    telling: Telling,
    read: &SourceText<'_>,
    run: &Run<'_>,
    range: Range,
) -> Result<Vec<Vec<u8>>, Mistake> {
    if run.nodes > 16 {
        return Err(Mistake::Nodes);
    }
    let source = Source::of(alloc, read)?;
    let told = Told {
        source: &source,
        nodes: run.nodes,
        options: run.options,
        events: run.events,
    };
    Ok(states_parts(alloc, &told, range, telling)?)
}

/// Whether the lines are this text, one behind the other.
pub fn is_text(lines: &[Vec<u8>], text: &[u8]) -> bool {
    let mut rest = text;
    for line in lines {
        match rest.strip_prefix(line.as_slice()) {
            Some(behind) => rest = behind,
            None => return false,
        }
    }
    rest.is_empty()
}
