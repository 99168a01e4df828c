// Tables of runs, with their lines.

use crate::asking::{Run, is_text, lines_of};
use crate::checks::{Mistake, passes};
use lrc_events::events::events_of;
use lrc_node::Options;
use lrc_page::Size;
use lrc_states::{Range, Telling};
use std::alloc::Global;
use std::process::Abort;

/// The text of a program, how it is run, by which events, and which of its turns are told in which lines.
pub struct Row {
    pub name: &'static str,
    pub text: &'static [u8],
    pub nodes: u8,
    pub steps: u32,
    pub collect: u32,
    pub size: Size,
    pub events: &'static [u8],
    pub range: Range,
    pub told: &'static [u8],
}

fn tell(alloc: Global, row: &Row) -> Result<(), Mistake> {
    let events = events_of(alloc, row.events)?;
    let run = Run {
        text: row.text,
        nodes: row.nodes,
        options: Options {
            steps: row.steps,
            collect: row.collect,
            first: 0,
            size: row.size,
        },
        events: &events,
    };
    let lines = lines_of(alloc, Telling::InWords, &run, row.range)?;
    if is_text(&lines, row.told) {
        Ok(())
    } else {
        Err(Mistake::Lines)
    }
}

/// Fails at the first row that is told otherwise.
pub fn are_told(rt: &impl Abort, alloc: Global, rows: &[Row]) {
    for row in rows {
        passes(rt, row.name, tell(alloc, row));
    }
}
