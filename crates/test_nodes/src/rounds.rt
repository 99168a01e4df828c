// Runs of several nodes in rounds.

use crate::checks::holds;
use lrc_envelope::Picker;
use lrc_lang::parse;
use lrc_node::Options;
use lrc_page::Size;
use lrc_program::Program;
use lrc_protocol::Event;
use lrc_world::keep::Keep;
use lrc_world::report::{Report, SimFault};
use lrc_world::run::{Order, Run};
use lrc_world::simulate::{drive, run_checked, simulate, wander};
use std::alloc::Global;

const TOLD_AT_A_BARRIER: &[u8] =
    b"words 1; locks 0; if me == 0 { [0] = 7; } barrier; x = [0]; print x;";

const WRITTEN_BY_ONE: &[u8] =
    b"words 1; locks 0; if me == 1 { [0] = 5; } barrier; x = [0]; print x;";

const READ_WITHOUT_ORDER: &[u8] = b"words 1; locks 0; if me == 0 { [0] = 7; } x = [0]; print x;";

fn options(steps: u32, collect: u32, first: u32) -> Options {
    Options {
        steps,
        collect,
        first,
        size: Size::Words64,
    }
}

/// A name and a text; how many nodes run it; the steps, the collections and the first number of the options; which message is delivered first; and how
/// many are delivered for the last time, and how many stay in flight once, or the fault.
type Row<'a> = (
    &'a str,
    &'a [u8],
    u32,
    [u32; 3],
    Picker,
    Result<(u32, u32), SimFault>,
);

/// How many messages these events deliver for the last time, and how many stay in flight once.
fn delivered(events: &[Event]) -> (u32, u32) {
    let mut deliveries: u32 = 0;
    let mut repeats: u32 = 0;
    for event in events {
        match event {
            Event::Run(_) => {}
            Event::Deliver(_) => deliveries = deliveries.saturating_add(1),
            Event::Repeat(_) => repeats = repeats.saturating_add(1),
        }
    }
    (deliveries, repeats)
}

fn delivered_in(done: (Vec<Event>, Report)) -> (u32, u32) {
    let (events, _report) = done;
    delivered(&events)
}

fn delivers(alloc: Global, program: &Program, row: &Row) -> bool {
    let (_name, _text, nodes, [steps, collect, first], picker, wanted) = *row;
    let options = options(steps, collect, first);
    match drive(alloc, program, nodes, &options, picker) {
        Ok(done) => wanted == Ok(delivered_in(done)),
        Err(fault) => wanted == Err(fault),
    }
}

/// Whether a row's text does what is wanted.
fn is_row_met(alloc: Global, row: &Row) -> bool {
    match parse(alloc, row.1) {
        Ok(program) => delivers(alloc, &program, row),
        Err(_) => false,
    }
}

const ROWS: &[Row] = &[
    (
        "the oldest message is delivered first",
        WRITTEN_BY_ONE,
        3,
        [1_000_000, 0, 0],
        Picker::Oldest,
        Ok((10, 0)),
    ),
    (
        "the newest message is delivered first",
        WRITTEN_BY_ONE,
        3,
        [1_000_000, 0, 0],
        Picker::Newest,
        Ok((10, 0)),
    ),
    (
        "each message is delivered twice",
        WRITTEN_BY_ONE,
        3,
        [1_000_000, 0, 0],
        Picker::Twice,
        Ok((10, 10)),
    ),
    (
        "the oldest first, with a collection",
        WRITTEN_BY_ONE,
        3,
        [1_000_000, 1, 0],
        Picker::Oldest,
        Ok((16, 0)),
    ),
    (
        "the newest first, with a collection",
        WRITTEN_BY_ONE,
        3,
        [1_000_000, 1, 0],
        Picker::Newest,
        Ok((16, 0)),
    ),
    (
        "each twice, with a collection",
        WRITTEN_BY_ONE,
        3,
        [1_000_000, 1, 0],
        Picker::Twice,
        Ok((16, 16)),
    ),
    (
        "no nodes",
        TOLD_AT_A_BARRIER,
        0,
        [1, 0, 0],
        Picker::Oldest,
        Err(SimFault::BadNodes),
    ),
    (
        "17 nodes and no steps",
        TOLD_AT_A_BARRIER,
        17,
        [0, 0, 0],
        Picker::Oldest,
        Err(SimFault::BadNodes),
    ),
    (
        "no steps",
        TOLD_AT_A_BARRIER,
        16,
        [0, 0, 0],
        Picker::Oldest,
        Err(SimFault::BadSteps),
    ),
    (
        "too many steps",
        TOLD_AT_A_BARRIER,
        1,
        [1_000_001, 0, 0],
        Picker::Oldest,
        Err(SimFault::BadSteps),
    ),
    (
        "numbers used up",
        TOLD_AT_A_BARRIER,
        2,
        [1_000_000, 0, 4_294_967_295],
        Picker::Oldest,
        Err(SimFault::Worn),
    ),
];

#[test]
fn every_message_is_delivered_and_each_refusal_has_its_cause(rt: HostRuntime) {
    for row in ROWS {
        holds(&rt, row.0, is_row_met(rt.alloc(), row));
    }
}

/// A name, how many nodes have how many steps each, and the fault of their run of no events, if it has one.
type Range<'a> = (&'a str, u32, u32, Option<SimFault>);

fn is_fault(alloc: Global, program: &Program, range: &Range) -> bool {
    let (_name, nodes, steps, wanted) = *range;
    match simulate(alloc, program, nodes, &options(steps, 0, 0), &[]) {
        Ok(_report) => wanted.is_none(),
        Err(fault) => wanted == Some(fault),
    }
}

fn has_fault(alloc: Global, range: &Range) -> bool {
    match parse(alloc, TOLD_AT_A_BARRIER) {
        Ok(program) => is_fault(alloc, &program, range),
        Err(_) => false,
    }
}

const RANGES: &[Range] = &[
    ("no nodes", 0, 1_000_000, Some(SimFault::BadNodes)),
    ("17 nodes", 17, 1_000_000, Some(SimFault::BadNodes)),
    ("no steps", 16, 0, Some(SimFault::BadSteps)),
    ("too many steps", 16, 1_000_001, Some(SimFault::BadSteps)),
    ("the most", 16, 1_000_000, None),
    ("the fewest", 1, 1, None),
];

#[test]
fn numbers_out_of_range_have_no_run(rt: HostRuntime) {
    for range in RANGES {
        holds(&rt, range.0, has_fault(rt.alloc(), range));
    }
}

/// Whether a run of which the newest turns alone are kept says the same beside them.
fn is_same_beside_turns(brief: &Report, report: &Report) -> bool {
    brief.acts == report.acts
        && brief.ends == report.ends
        && brief.races == report.races
        && brief.first_race == report.first_race
        && brief.logs.len() == report.logs.len()
        && brief.logs.iter().all(|log| log.len() <= 1)
}

/// The same, where there is a report.
fn is_same_as_any(brief: &Report, report: Option<&Report>) -> bool {
    match report {
        Some(report) => is_same_beside_turns(brief, report),
        None => true,
    }
}

/// The order of a run whose events are not given, with all turns.
fn run_whole(
    alloc: Global,
    program: &Program,
    order: Order<'_>,
) -> Result<(Vec<Event>, Report), SimFault> {
    let options = options(1_000_000, 1, 0);
    match order {
        Order::Rounds(picker) => drive(alloc, program, 3, &options, picker),
        Order::Random(seed) => wander(alloc, program, 3, &options, seed),
        Order::Events(_) | Order::Followed(_, _) => Err(SimFault::NoMemory),
    }
}

fn run_briefly(alloc: Global, program: &Program, order: Order<'_>) -> Result<Run, SimFault> {
    let options = options(1_000_000, 1, 0);
    run_checked(alloc, program, 3, &options, order, Keep::Newest)
}

fn is_brief_so(run: &Run, events: &[Event], report: &Report, races: usize) -> bool {
    run.is_over
        && run.events.as_slice() == events
        && is_same_beside_turns(&run.report, report)
        && run.report.races.len() == races
}

/// Whether the run by these events says the same where the turns of the nodes are not kept, and has so many races.
fn is_same(
    alloc: Global,
    program: &Program,
    order: Order<'_>,
    events: &[Event],
    report: &Report,
    races: usize,
) -> bool {
    match run_briefly(alloc, program, order) {
        Ok(run) => is_brief_so(&run, events, report, races),
        Err(_) => false,
    }
}

fn is_same_as(
    alloc: Global,
    program: &Program,
    order: Order<'_>,
    done: (Vec<Event>, Report),
    races: usize,
) -> bool {
    let (events, report) = done;
    is_same(alloc, program, order, &events, &report, races)
}

fn is_same_in(alloc: Global, program: &Program, order: Order<'_>, races: usize) -> bool {
    match run_whole(alloc, program, order) {
        Ok(done) => is_same_as(alloc, program, order, done, races),
        Err(_) => false,
    }
}

/// Whether a run by these events, of which the turns are not kept, says the same as a report, where there is one, and nothing is
/// left to do after it, or something.
fn is_replayed(
    alloc: Global,
    program: &Program,
    events: &[Event],
    report: Option<&Report>,
    is_over: bool,
) -> bool {
    let options = options(1_000_000, 0, 0);
    let order = Order::Events(events);
    match run_checked(alloc, program, 3, &options, order, Keep::Newest) {
        Ok(run) => run.is_over == is_over && is_same_as_any(&run.report, report),
        Err(_) => false,
    }
}

/// Whether something is left to do after all of these events but the last.
fn is_left(alloc: Global, program: &Program, events: &[Event]) -> bool {
    match events {
        [earlier @ .., _last] => is_replayed(alloc, program, earlier, None, false),
        [] => false,
    }
}

fn is_replayed_whole(alloc: Global, program: &Program, done: (Vec<Event>, Report)) -> bool {
    let (events, report) = done;
    is_replayed(alloc, program, &events, Some(&report), true) && is_left(alloc, program, &events)
}

fn replays(alloc: Global, program: &Program) -> bool {
    match drive(alloc, program, 3, &options(1_000_000, 0, 0), Picker::Oldest) {
        Ok(done) => is_replayed_whole(alloc, program, done),
        Err(_) => false,
    }
}

/// Whether a run in rounds and one in a random order say the same where the turns of the nodes are not kept, and have so many
/// races. And whether the events of a run say the same where they are played over without the turns of the nodes, and something is
/// left to do after all but the last of them, and nothing after all.
fn say_the_same(alloc: Global, text: &[u8], races: usize) -> bool {
    match parse(alloc, text) {
        Ok(program) => {
            is_same_in(alloc, &program, Order::Rounds(Picker::Newest), races)
                && is_same_in(alloc, &program, Order::Random(5), races)
                && replays(alloc, &program)
        }
        Err(_) => false,
    }
}

const BRIEF: &[(&str, &[u8], usize)] = &[
    ("written by one", WRITTEN_BY_ONE, 0),
    ("read without order", READ_WITHOUT_ORDER, 2),
];

#[test]
fn brief_runs_and_replays_say_the_same(rt: HostRuntime) {
    for (name, text, races) in BRIEF {
        holds(&rt, name, say_the_same(rt.alloc(), text, *races));
    }
}
