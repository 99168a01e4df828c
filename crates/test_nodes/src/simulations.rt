// Runs of several nodes, by lists of events.

use crate::checks::holds;
use lrc_lang::parse;
use lrc_node::Options;
use lrc_page::Size;
use lrc_program::Program;
use lrc_protocol::Event;
use lrc_trace::act::{Act, Deed};
use lrc_trace::race::Race;
use lrc_world::report::Report;
use lrc_world::simulate::simulate;
use std::alloc::{AllocError, Global};

const LATE_GRANT: &[u8] = b"words 2; locks 1; if me == 0 { acquire 0; [0] = 1; release 0; [1] = 2; }
    else { acquire 0; x = [0]; y = [1]; release 0; print x; print y; }";

const FALSE_SHARING: &[u8] =
    b"words 2; locks 0; [me] = 10 + me; barrier; x = [0]; y = [1]; print x; print y;";

const COUNTER: &[u8] =
    b"words 1; locks 1; acquire 0; x = [0]; [0] = x + 1; release 0; barrier; y = [0]; print y;";

const KEPT_BY_WRITERS: &[u8] =
    b"words 3; locks 2; if me == 1 { acquire 1; release 1; [0] = 4; } if me == 2 { [2] = 8; }
    barrier; if me == 0 { [1] = 6; } barrier; x = [0]; y = [1]; z = [2]; print x; print y; print z;";

const HELD: &[u8] =
    b"words 1; locks 1; if me > 0 { acquire 0; x = [0]; [0] = x + 1; release 0; print x; }";

const HANDED_ON: &[u8] = b"words 1; locks 2; if me == 0 { acquire 0; [0] = 3; release 0; }
    if me == 1 { acquire 0; release 0; acquire 1; release 1; }
    if me == 2 { acquire 1; x = [0]; release 1; print x; }";

// The nodes read and write word 0 under a lock, and word 1 without.
const HALF_LOCKED: &[u8] =
    b"words 2; locks 1; acquire 0; x = [0]; [0] = x + 1; release 0; [1] = me;";

/// The events of a run.
#[derive(Clone, Copy)]
enum Events<'a> {
    /// So many rounds in which each of the nodes is named once, and then the oldest message is delivered eight times.
    Rounds(u32),
    /// Each of these so often.
    Each(&'a [(Event, u32)]),
}

/// What a run is to show.
#[derive(Clone, Copy)]
enum Wanted<'a> {
    /// Each node prints these, one after another, and comes to its end.
    EachPrints(&'a [u64]),
    /// The nodes print these, in the order of the acts.
    Prints(&'a [(u8, u64)]),
    /// The only race.
    Race(Race),
}

/// A text that so many nodes run, the options, the events and what is wanted.
#[derive(Clone, Copy)]
struct Run<'a> {
    name: &'a str,
    text: &'a [u8],
    nodes: u8,
    collect: u32,
    size: Size,
    events: Events<'a>,
    wanted: Wanted<'a>,
}

fn push_often(events: &mut Vec<Event>, event: Event, often: u32) -> Result<(), AllocError> {
    for _ in 0..often {
        events.push(event)?;
    }
    Ok(())
}

fn push_each(events: &mut Vec<Event>, each: &[(Event, u32)]) -> Result<(), AllocError> {
    for (event, often) in each {
        push_often(events, *event, *often)?;
    }
    Ok(())
}

fn push_round(events: &mut Vec<Event>, nodes: u8) -> Result<(), AllocError> {
    for node in 0..nodes {
        events.push(Event::Run(u32::from(node)))?;
    }
    push_often(events, Event::Deliver(0), 8)
}

fn push_rounds(events: &mut Vec<Event>, nodes: u8, count: u32) -> Result<(), AllocError> {
    for _round in 0..count {
        push_round(events, nodes)?;
    }
    Ok(())
}

fn push_events(events: &mut Vec<Event>, run: &Run) -> Result<(), AllocError> {
    match run.events {
        Events::Rounds(count) => push_rounds(events, run.nodes, count),
        Events::Each(each) => push_each(events, each),
    }
}

/// Whether a node prints these, one after another.
fn prints(acts: &[Act], node: u8, wanted: &[u64]) -> bool {
    let mut count: usize = 0;
    for act in acts {
        if act.node == node
            && let Deed::Print(value) = act.deed
        {
            if wanted.get(count) != Some(&value) {
                return false;
            }
            count = count.saturating_add(1);
        }
    }
    count == wanted.len()
}

fn each_prints(acts: &[Act], nodes: u8, wanted: &[u64]) -> bool {
    let deed = Deed::End;
    for node in 0..nodes {
        if !prints(acts, node, wanted) || !acts.contains(&Act { node, deed }) {
            return false;
        }
    }
    true
}

/// Whether the nodes print these, in the order of the acts.
fn all_print(acts: &[Act], wanted: &[(u8, u64)]) -> bool {
    let mut count: usize = 0;
    for act in acts {
        if let Deed::Print(value) = act.deed {
            if wanted.get(count) != Some(&(act.node, value)) {
                return false;
            }
            count = count.saturating_add(1);
        }
    }
    count == wanted.len()
}

fn shows(report: &Report, run: &Run) -> bool {
    match run.wanted {
        Wanted::EachPrints(values) => each_prints(&report.acts, run.nodes, values),
        Wanted::Prints(values) => all_print(&report.acts, values),
        Wanted::Race(race) => report.races.as_slice() == [race].as_slice(),
    }
}

fn shows_wanted(report: Report, run: &Run) -> bool {
    shows(&report, run)
}

fn shows_by(alloc: Global, program: &Program, events: &[Event], run: &Run) -> bool {
    let options = Options {
        steps: 1_000_000,
        collect: run.collect,
        first: 0,
        size: run.size,
    };
    match simulate(alloc, program, u32::from(run.nodes), &options, events) {
        Ok(report) => shows_wanted(report, run),
        Err(_) => false,
    }
}

fn shows_in(alloc: Global, program: &Program, run: &Run) -> bool {
    let mut events = Vec::new(alloc);
    push_events(&mut events, run).is_ok() && shows_by(alloc, program, &events, run)
}

/// Whether a run shows what is wanted.
fn is_met(alloc: Global, run: &Run) -> bool {
    match parse(alloc, run.text) {
        Ok(program) => shows_in(alloc, &program, run),
        Err(_) => false,
    }
}

// A lock that is asked for while its holder goes on: the grant has the time of the release, and not what came after.
const LATE_GRANT_EVENTS: &[(Event, u32)] = &[
    (Event::Run(0), 5),
    (Event::Run(1), 2),
    (Event::Deliver(0), 3),
    (Event::Run(1), 1),
    (Event::Deliver(0), 2),
    (Event::Run(1), 5),
    (Event::Run(0), 1),
];

// The same with each message delivered twice.
const REPEATED_EVENTS: &[(Event, u32)] = &[
    (Event::Run(0), 5),
    (Event::Run(1), 2),
    (Event::Repeat(0), 1),
    (Event::Deliver(0), 1),
    (Event::Repeat(0), 1),
    (Event::Deliver(0), 1),
    (Event::Repeat(0), 1),
    (Event::Deliver(0), 1),
    (Event::Run(1), 1),
    (Event::Repeat(0), 1),
    (Event::Deliver(0), 1),
    (Event::Repeat(0), 1),
    (Event::Deliver(0), 1),
    (Event::Run(1), 5),
    (Event::Run(0), 1),
];

// A lock that is asked for while another node holds it.
const HELD_EVENTS: &[(Event, u32)] = &[
    (Event::Run(1), 2),
    (Event::Deliver(0), 2),
    (Event::Run(2), 2),
    (Event::Deliver(1), 2),
    (Event::Deliver(0), 1),
    (Event::Run(1), 3),
    (Event::Deliver(0), 1),
    (Event::Run(2), 1),
    (Event::Deliver(0), 2),
    (Event::Run(2), 4),
    (Event::Run(1), 2),
    (Event::Run(0), 2),
];

// A lock granted by a node that learned of a third one's write.
const HANDED_ON_EVENTS: &[(Event, u32)] = &[
    (Event::Run(0), 7),
    (Event::Run(1), 3),
    (Event::Deliver(0), 3),
    (Event::Run(1), 5),
    (Event::Run(2), 4),
    (Event::Deliver(0), 3),
    (Event::Run(2), 1),
    (Event::Deliver(0), 2),
    (Event::Run(2), 3),
];

const LATE: Run = Run {
    name: "a late grant",
    text: LATE_GRANT,
    nodes: 2,
    collect: 0,
    size: Size::Words64,
    events: Events::Each(LATE_GRANT_EVENTS),
    wanted: Wanted::Prints(&[(1, 1), (1, 0)]),
};

const SHARED: Run = Run {
    name: "nodes write words of one page",
    text: FALSE_SHARING,
    events: Events::Rounds(60),
    wanted: Wanted::EachPrints(&[10, 11]),
    ..LATE
};

const KEPT: Run = Run {
    name: "writers keep pages with no collection",
    text: KEPT_BY_WRITERS,
    nodes: 3,
    wanted: Wanted::EachPrints(&[4, 6, 8]),
    ..SHARED
};

const RACING: Race = Race {
    word: 1,
    node_a: 0,
    interval_a: 3,
    node_b: 1,
    interval_b: 3,
};

const RUNS: &[Run] = &[
    LATE,
    Run {
        name: "a late grant, each message twice",
        events: Events::Each(REPEATED_EVENTS),
        ..LATE
    },
    Run {
        name: "a lock that is held",
        text: HELD,
        nodes: 3,
        events: Events::Each(HELD_EVENTS),
        wanted: Wanted::Prints(&[(2, 1), (1, 0)]),
        ..LATE
    },
    Run {
        name: "a lock that is handed on",
        text: HANDED_ON,
        nodes: 3,
        events: Events::Each(HANDED_ON_EVENTS),
        wanted: Wanted::Prints(&[(2, 3)]),
        ..LATE
    },
    SHARED,
    Run {
        name: "nodes write words of one large page",
        size: Size::Words256,
        ..SHARED
    },
    Run {
        name: "four nodes count",
        text: COUNTER,
        nodes: 4,
        wanted: Wanted::EachPrints(&[4]),
        ..SHARED
    },
    KEPT,
    Run {
        name: "writers keep pages over collections from weight 1 on",
        collect: 1,
        ..KEPT
    },
    Run {
        name: "writers keep pages over collections from weight 2 on",
        collect: 2,
        ..KEPT
    },
    Run {
        name: "writers keep pages over collections from weight 3 on",
        collect: 3,
        ..KEPT
    },
    Run {
        name: "races are reported by interval",
        text: HALF_LOCKED,
        events: Events::Rounds(30),
        wanted: Wanted::Race(RACING),
        ..SHARED
    },
];

#[test]
fn runs_show_what_is_wanted(rt: HostRuntime) {
    for run in RUNS {
        holds(&rt, run.name, is_met(rt.alloc(), run));
    }
}
