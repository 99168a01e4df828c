// What the lines have more that tell also in members.

use crate::asking::{ALL, MANY_STEPS, Run, lines_of};
use crate::checks::{Mistake, passes};
use crate::parts::{LATE, LATE_EVENTS};
use lrc_events::events::events_of;
use lrc_node::Options;
use lrc_page::Size;
use lrc_states::{Range, Telling};
use std::alloc::Global;

// A program that node 0 runs or that two nodes run, its events, which of its turns are told, and how each line ends then.
struct Row {
    name: &'static str,
    text: &'static [u8],
    nodes: u8,
    steps: u32,
    events: &'static [u8],
    range: Range,
    ends: &'static [&'static [u8]],
}

const LINE_END: &[u8] = b"}\n";

// Whether a line is these words and this end.
fn is_behind(line: &[u8], words: &[u8], end: &[u8]) -> bool {
    match line.strip_prefix(words) {
        Some(rest) => rest == end,
        None => false,
    }
}

// Whether a line is the same line in words, but for its end.
fn ends_in(line: &[u8], in_words: &[u8], end: &[u8]) -> bool {
    match in_words.strip_suffix(LINE_END) {
        Some(words) => is_behind(line, words, end),
        None => false,
    }
}

fn tell(alloc: Global, row: &Row) -> Result<(), Mistake> {
    let events = events_of(alloc, row.events)?;
    let run = Run {
        text: row.text,
        nodes: row.nodes,
        options: Options {
            steps: row.steps,
            collect: 0,
            first: 0,
            size: Size::Words64,
        },
        events: &events,
    };
    let in_words = lines_of(alloc, Telling::InWords, &run, row.range)?;
    let lines = lines_of(alloc, Telling::AlsoInMembers, &run, row.range)?;
    if lines.len() != in_words.len() || lines.len() != row.ends.len() {
        return Err(Mistake::Lines);
    }
    for place in 0..row.ends.len() {
        if !ends_in(&lines[place], &in_words[place], row.ends[place]) {
            return Err(Mistake::Lines);
        }
    }
    Ok(())
}

const ROWS: &[Row] = &[
    // A grant is in flight before the first turn that is told.
    Row {
        name: "messages, and a read",
        text: LATE,
        nodes: 2,
        steps: MANY_STEPS,
        events: LATE_EVENTS,
        range: Range {
            from: Some(6),
            to: Some(7),
        },
        ends: &[
            b",\"flying\":[{\"kind\":\"lock-grant\",\"of\":0}],\"stand\":[{\"kind\":\"no\"},\
              {\"kind\":\"grant\",\"of\":0}]}\n",
            b",\"by\":{\"kind\":\"deliver\",\"of\":0},\"done\":{\"kind\":\"acquire\",\"lock\":0},\
              \"took\":{\"kind\":\"lock-grant\",\"of\":0},\"sent\":[],\"stands\":{\"kind\":\"no\"}}\n",
            b",\"by\":{\"kind\":\"run\",\"of\":1},\"done\":null,\"took\":null,\
              \"sent\":[{\"kind\":\"changes-request\",\"of\":0}],\"stands\":{\"kind\":\"page\",\"of\":0}}\n",
            b",\"by\":{\"kind\":\"deliver\",\"of\":0},\"done\":null,\
              \"took\":{\"kind\":\"changes-request\",\"of\":0},\
              \"sent\":[{\"kind\":\"changes-reply\",\"of\":0}],\"stands\":{\"kind\":\"no\"}}\n",
            b",\"by\":{\"kind\":\"deliver\",\"of\":0},\"done\":{\"kind\":\"read\",\"word\":0,\
              \"value\":\"1\"},\"took\":{\"kind\":\"changes-reply\",\"of\":0},\"sent\":[],\
              \"stands\":{\"kind\":\"no\"}}\n",
        ],
    },
    // The greatest value, and the second cause of a trap.
    Row {
        name: "a write, a print and a trap",
        text: b"words 2;\nlocks 0;\n[1] = 0 - 1;\nprint 3;\n[2] = 1;\n",
        nodes: 1,
        steps: MANY_STEPS,
        events: b"run 0\nrun 0\nrun 0\n",
        range: ALL,
        ends: &[
            b",\"flying\":[],\"stand\":[{\"kind\":\"no\"}]}\n",
            b",\"by\":{\"kind\":\"run\",\"of\":0},\"done\":{\"kind\":\"write\",\"word\":1,\
              \"value\":\"18446744073709551615\"},\"took\":null,\"sent\":[],\"stands\":{\"kind\":\"no\"}}\n",
            b",\"by\":{\"kind\":\"run\",\"of\":0},\"done\":{\"kind\":\"print\",\"value\":\"3\"},\
              \"took\":null,\"sent\":[],\"stands\":{\"kind\":\"no\"}}\n",
            b",\"by\":{\"kind\":\"run\",\"of\":0},\"done\":{\"kind\":\"trap\",\"cause\":2},\"took\":null,\
              \"sent\":[],\"stands\":{\"kind\":\"trapped\",\"of\":2}}\n",
        ],
    },
    // One statement may be begun.
    Row {
        name: "steps used up",
        text: b"words 1;\nlocks 0;\nx = 1;\nx = 2;\n",
        nodes: 1,
        steps: 1,
        events: b"run 0\n",
        range: ALL,
        ends: &[
            b",\"flying\":[],\"stand\":[{\"kind\":\"no\"}]}\n",
            b",\"by\":{\"kind\":\"run\",\"of\":0},\"done\":{\"kind\":\"quiet\"},\"took\":null,\"sent\":[],\
              \"stands\":{\"kind\":\"steps used up\"}}\n",
        ],
    },
];

#[test]
fn members_behind_the_words(rt: HostRuntime) {
    for row in ROWS {
        passes(&rt, row.name, tell(rt.alloc(), row));
    }
}
