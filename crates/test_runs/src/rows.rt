// Worked programs, with what they print, in several ways and many times.

use crate::checks::passes;
use crate::shell::{options, ran};
use lrc_envelope::Picker;
use lrc_lang::parse;
use lrc_node::{End, Options};
use lrc_page::Size;
use lrc_program::Program;
use lrc_trace::act::{Act, Deed};
use lrc_trace::race::Race;
use lrc_world::report::Report;
use std::alloc::Global;
use std::sync::Wait;
use std::thread::Threads;

/// The order of messages, from how many stored intervals on a node collects, and the size of a page.
type Way = (Picker, u32, Size);

/// Every order, with and without collections.
const ANY_WAY: &[Way] = &[
    (Picker::Oldest, 0, Size::Words64),
    (Picker::Oldest, 1, Size::Words64),
    (Picker::Newest, 0, Size::Words64),
    (Picker::Newest, 1, Size::Words64),
    (Picker::Twice, 0, Size::Words64),
    (Picker::Twice, 1, Size::Words64),
];

/// Every order and size of a page, with rare collections.
const RARELY: &[Way] = &[
    (Picker::Oldest, 3, Size::Words64),
    (Picker::Oldest, 3, Size::Words256),
    (Picker::Newest, 3, Size::Words64),
    (Picker::Newest, 3, Size::Words256),
    (Picker::Twice, 3, Size::Words64),
    (Picker::Twice, 3, Size::Words256),
];

/// A program for so many nodes that all come to its end, with what they print, those of node 0 first, and its races; and how it is run.
struct Row {
    name: &'static str,
    nodes: u32,
    text: &'static [u8],
    prints: &'static [u64],
    races: &'static [Race],
    first_race: Option<usize>,
    ways: &'static [Way],
    times: u32,
}

/// What is left of these values behind those that a node prints; none if it prints others.
fn rest_after<'w>(acts: &[Act], node: u8, wanted: &'w [u64]) -> Option<&'w [u64]> {
    let mut rest = wanted;
    for act in acts {
        if act.node == node
            && let Deed::Print(value) = act.deed
        {
            let (first, others) = rest.split_first()?;
            if *first != value {
                return None;
            }
            rest = others;
        }
    }
    Some(rest)
}

/// Whether the nodes print these values, those of node 0 first.
fn are_printed(acts: &[Act], wanted: &[u64]) -> bool {
    let mut rest = wanted;
    for node in 0..16u8 {
        let Some(others) = rest_after(acts, node, rest) else {
            return false;
        };
        rest = others;
    }
    rest.is_empty()
}

/// Whether so many nodes all came to the end of the text.
fn have_ended(ends: &[End], nodes: u32) -> bool {
    ends.len() == nodes as usize && ends.iter().all(|end| *end == End::Ended)
}

fn is_as_wanted(report: &Report, row: &Row) -> bool {
    have_ended(&report.ends, row.nodes)
        && are_printed(&report.acts, row.prints)
        && report.races.as_slice() == row.races
        && report.first_race == row.first_race
}

fn is_run<R: Threads + Wait + Sync>(
    rt: &R,
    alloc: Global,
    program: &Program,
    row: &Row,
    way: &Way,
) -> bool {
    let (order, collect, size) = *way;
    let options = Options {
        size,
        ..options(collect)
    };
    match ran(rt, alloc, program, row.nodes, &options, order) {
        Ok((report, _wires)) => is_as_wanted(&report, row),
        Err(_) => false,
    }
}

fn is_run_each_way<R: Threads + Wait + Sync>(
    rt: &R,
    alloc: Global,
    program: &Program,
    row: &Row,
) -> bool {
    for _ in 0..row.times {
        for way in row.ways {
            if !is_run(rt, alloc, program, row, way) {
                return false;
            }
        }
    }
    true
}

fn is_met<R: Threads + Wait + Sync>(rt: &R, alloc: Global, row: &Row) -> bool {
    match parse(alloc, row.text) {
        Ok(program) => is_run_each_way(rt, alloc, &program, row),
        Err(_) => false,
    }
}

fn first_wrong<R: Threads + Wait + Sync>(
    rt: &R,
    alloc: Global,
    rows: &[Row],
) -> Option<&'static str> {
    for row in rows {
        if !is_met(rt, alloc, row) {
            return Some(row.name);
        }
    }
    None
}

const COUNTER: &[u8] =
    b"words 1; locks 1; acquire 0; x = [0]; [0] = x + 1; release 0; barrier; y = [0]; print y;";

const KEPT_BY_WRITERS: &[u8] =
    b"words 3; locks 2; if me == 1 { acquire 1; release 1; [0] = 4; } if me == 2 { [2] = 8; }
    barrier; if me == 0 { [1] = 6; } barrier; x = [0]; y = [1]; z = [2]; print x; print y; print z;";

/// A program without races that is run twenty times in every way.
const TWENTY_TIMES: Row = Row {
    name: "each prints its number",
    nodes: 3,
    text: b"words 1; locks 0; print me;",
    prints: &[0, 1, 2],
    races: &[],
    first_race: None,
    ways: ANY_WAY,
    times: 20,
};

/// A race for word 0 in the first intervals of nodes 0 and 1.
const RACE_OF_TWO: Race = Race {
    word: 0,
    node_a: 0,
    node_b: 1,
    interval_a: 1,
    interval_b: 1,
};

// Programs in which every two conflicting accesses are ordered, and behind them programs with races.
const PROGRAMS: &[Row] = &[
    TWENTY_TIMES,
    Row {
        name: "a write before a barrier",
        text: b"words 1; locks 0; if me == 0 { [0] = 7; } barrier; x = [0]; print x;",
        prints: &[7, 7, 7],
        ..TWENTY_TIMES
    },
    Row {
        name: "two writers of one page",
        nodes: 2,
        text: b"words 2; locks 0; [me] = 10 + me; barrier; x = [0]; y = [1]; print x; print y;",
        prints: &[10, 11, 10, 11],
        ..TWENTY_TIMES
    },
    Row {
        name: "a second write of the same value",
        text: b"words 1; locks 1; if me == 0 { acquire 0; [0] = 5; release 0; } barrier;
    if me == 1 { acquire 0; [0] = 5; release 0; } barrier;
    if me == 2 { acquire 0; x = [0]; release 0; print x; }",
        prints: &[5],
        ..TWENTY_TIMES
    },
    Row {
        name: "three writers, one after the other",
        nodes: 4,
        text: b"words 1; locks 0; if me == 2 { [0] = 12; } barrier; if me == 1 { [0] = 11; } barrier; if me == 0 { [0] = 10; } barrier; x = [0]; print x;",
        prints: &[10, 10, 10, 10],
        ..TWENTY_TIMES
    },
    Row {
        name: "a collection that writers keep a page over",
        text: KEPT_BY_WRITERS,
        prints: &[4, 6, 8, 4, 6, 8, 4, 6, 8],
        ..TWENTY_TIMES
    },
    Row {
        name: "the same with pages of 256 words and rare collections",
        text: KEPT_BY_WRITERS,
        prints: &[4, 6, 8, 4, 6, 8, 4, 6, 8],
        ways: RARELY,
        times: 1,
        ..TWENTY_TIMES
    },
    Row {
        name: "a read that races",
        nodes: 2,
        text: b"words 1; locks 0; if me == 0 { [0] = 5; } else { x = [0]; print x; }",
        prints: &[0],
        races: &[RACE_OF_TWO],
        first_race: Some(3),
        times: 1,
        ..TWENTY_TIMES
    },
    Row {
        name: "three writes that race",
        text: b"words 1; locks 0; [0] = me; [0] = me;",
        prints: &[],
        races: &[
            RACE_OF_TWO,
            Race {
                node_b: 2,
                ..RACE_OF_TWO
            },
            Race {
                node_a: 1,
                node_b: 2,
                ..RACE_OF_TWO
            },
        ],
        first_race: Some(1),
        times: 1,
        ..TWENTY_TIMES
    },
];

#[test]
fn ordered_programs_print_the_same_twenty_times_and_races_are_named(rt: HostRuntime) {
    passes(&rt, first_wrong(&rt, rt.alloc(), PROGRAMS));
}

const COUNTED: Row = Row {
    name: "a counter of two nodes",
    nodes: 2,
    text: COUNTER,
    prints: &[2; 2],
    ..TWENTY_TIMES
};

const UP_TO_EIGHT: &[Row] = &[
    COUNTED,
    Row {
        name: "a counter of three nodes",
        nodes: 3,
        prints: &[3; 3],
        ..COUNTED
    },
    Row {
        name: "a counter of four nodes",
        nodes: 4,
        prints: &[4; 4],
        ..COUNTED
    },
    Row {
        name: "a counter of five nodes",
        nodes: 5,
        prints: &[5; 5],
        ..COUNTED
    },
    Row {
        name: "a counter of six nodes",
        nodes: 6,
        prints: &[6; 6],
        ..COUNTED
    },
    Row {
        name: "a counter of seven nodes",
        nodes: 7,
        prints: &[7; 7],
        ..COUNTED
    },
    Row {
        name: "a counter of eight nodes",
        nodes: 8,
        prints: &[8; 8],
        ..COUNTED
    },
];

#[test]
fn a_counter_counts_each_of_up_to_eight_nodes(rt: HostRuntime) {
    passes(&rt, first_wrong(&rt, rt.alloc(), UP_TO_EIGHT));
}

const UP_TO_TWELVE: &[Row] = &[
    Row {
        name: "a counter of nine nodes",
        nodes: 9,
        prints: &[9; 9],
        ..COUNTED
    },
    Row {
        name: "a counter of ten nodes",
        nodes: 10,
        prints: &[10; 10],
        ..COUNTED
    },
    Row {
        name: "a counter of eleven nodes",
        nodes: 11,
        prints: &[11; 11],
        ..COUNTED
    },
    Row {
        name: "a counter of twelve nodes",
        nodes: 12,
        prints: &[12; 12],
        ..COUNTED
    },
];

#[test]
fn a_counter_counts_each_of_up_to_twelve_nodes(rt: HostRuntime) {
    passes(&rt, first_wrong(&rt, rt.alloc(), UP_TO_TWELVE));
}

const UP_TO_FOURTEEN: &[Row] = &[
    Row {
        name: "a counter of thirteen nodes",
        nodes: 13,
        prints: &[13; 13],
        ..COUNTED
    },
    Row {
        name: "a counter of fourteen nodes",
        nodes: 14,
        prints: &[14; 14],
        ..COUNTED
    },
];

#[test]
fn a_counter_counts_each_of_up_to_fourteen_nodes(rt: HostRuntime) {
    passes(&rt, first_wrong(&rt, rt.alloc(), UP_TO_FOURTEEN));
}

const UP_TO_SIXTEEN: &[Row] = &[
    Row {
        name: "a counter of fifteen nodes",
        nodes: 15,
        prints: &[15; 15],
        ..COUNTED
    },
    Row {
        name: "a counter of sixteen nodes",
        nodes: 16,
        prints: &[16; 16],
        ..COUNTED
    },
];

#[test]
fn a_counter_counts_each_of_up_to_sixteen_nodes(rt: HostRuntime) {
    passes(&rt, first_wrong(&rt, rt.alloc(), UP_TO_SIXTEEN));
}
