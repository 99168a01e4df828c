// The race detector over traces.

use crate::acts::{Named, are_races};
use crate::checks::holds;
use crate::clocks::times;
use lrc_judge::are_in_range;
use lrc_judge::races::named_races;
use lrc_page::{MOST_WORDS, Size};
use lrc_race::{Race, are_traces_of, epochs_agree, first_race, races};
use lrc_time::Time;
use lrc_trace::act::{Act, Deed};
use lrc_trace::trace::Trace;
use std::alloc::{AllocError, Global};

/// What a node does in an epoch, at a time, with a word.
#[derive(Clone, Copy)]
enum Access {
    Read(u32, [u32; 2], u32),
    Write(u32, [u32; 2], u32),
}

/// What nodes 0 and 1 do, whether their epochs agree, and the races that are to be found.
#[derive(Clone, Copy)]
struct Case<'a> {
    first: &'a [Access],
    second: &'a [Access],
    agree: bool,
    races: &'a [Named],
}

/// Sets an entry, if it is there and rises.
fn raise(time: &mut Time, node: u8, index: u32) {
    if node < time.nodes() && time.at(node) < index {
        time.raise(node, index);
    }
}

fn of_two(entries: [u32; 2]) -> Time {
    let mut time = Time::new(2);
    raise(&mut time, 0, entries[0]);
    raise(&mut time, 1, entries[1]);
    time
}

/// Notes an access of a node in its trace, if it may be noted. What is left out is missed by the test.
fn note(
    traces: &mut Vec<Trace>,
    node: u8,
    epoch: u32,
    time: &Time,
    word: u32,
    is_write: bool,
) -> Result<(), AllocError> {
    let Some(trace) = traces.get_mut(usize::from(node)) else {
        return Ok(());
    };
    if trace.node() < time.nodes() && word < MOST_WORDS {
        let interval = time.at(trace.node());
        if trace.may_note(epoch, interval, time) {
            trace.note(epoch, interval, time, word, is_write)?;
        }
    }
    Ok(())
}

fn note_each(traces: &mut Vec<Trace>, node: u8, accesses: &[Access]) -> Result<(), AllocError> {
    for access in accesses {
        let (epoch, time, word, is_write) = match *access {
            Access::Read(epoch, time, word) => (epoch, time, word, false),
            Access::Write(epoch, time, word) => (epoch, time, word, true),
        };
        note(traces, node, epoch, &of_two(time), word, is_write)?;
    }
    Ok(())
}

/// Traces of the first so many nodes, with nothing in them.
fn fresh(alloc: Global, nodes: u8, size: Size) -> Result<Vec<Trace>, AllocError> {
    let mut traces = Vec::new(alloc);
    for node in 0..nodes {
        traces.push(Trace::new(alloc, node, size))?;
    }
    Ok(traces)
}

/// The traces of the nodes 0 and 1.
fn traced(alloc: Global, size: Size, case: &Case) -> Result<Vec<Trace>, AllocError> {
    let mut traces = fresh(alloc, 2, size)?;
    note_each(&mut traces, 0, case.first)?;
    note_each(&mut traces, 1, case.second)?;
    Ok(traces)
}

fn is_found(alloc: Global, traces: &[Trace], case: &Case) -> bool {
    if !are_traces_of(2, traces) || epochs_agree(traces) != case.agree {
        return false;
    }
    match races(alloc, traces) {
        Ok(races) => are_races(&races, case.races.len(), case.races),
        Err(_) => false,
    }
}

/// Whether this is found in the traces of the nodes 0 and 1, in either order.
fn is_found_in(alloc: Global, size: Size, case: &Case) -> bool {
    let Ok(mut traces) = traced(alloc, size, case) else {
        return false;
    };
    let is_found_rising = is_found(alloc, &traces, case);
    traces.reverse();
    is_found_rising && is_found(alloc, &traces, case)
}

const ONE_EPOCH: &Case = &Case {
    first: &[Access::Write(0, [1, 0], 0)],
    second: &[Access::Write(0, [0, 1], 0)],
    agree: true,
    races: &[(0, [0, 1], [1, 1])],
};

const TWO_EPOCHS: &Case = &Case {
    first: &[Access::Write(0, [1, 0], 0)],
    second: &[Access::Write(1, [1, 2], 0)],
    agree: true,
    races: &[],
};

const UNKNOWN_EPOCH: &Case = &Case {
    first: &[Access::Write(0, [1, 0], 0)],
    second: &[Access::Write(1, [0, 2], 0)],
    agree: false,
    races: &[(0, [0, 1], [1, 2])],
};

const READ_AND_WRITTEN: &Case = &Case {
    first: &[
        Access::Read(0, [1, 0], 3),
        Access::Read(0, [1, 0], 4),
        Access::Write(0, [1, 0], 4),
        Access::Read(0, [1, 0], 4),
    ],
    second: &[
        Access::Read(0, [0, 1], 3),
        Access::Read(0, [0, 1], 4),
        Access::Write(0, [0, 1], 4),
    ],
    agree: true,
    races: &[(4, [0, 1], [1, 1])],
};

// The time of the first node's second interval lacks what that of its first one has.
const FALLING_TIMES: &Case = &Case {
    first: &[
        Access::Write(0, [1, 5], 0),
        Access::Write(0, [2, 0], 0),
        Access::Write(0, [3, 7], 0),
    ],
    second: &[
        Access::Write(0, [0, 1], 0),
        Access::Write(0, [3, 6], 0),
        Access::Write(0, [0, 8], 0),
    ],
    agree: true,
    races: &[
        (0, [0, 1], [1, 8]),
        (0, [0, 1], [2, 1]),
        (0, [0, 1], [2, 8]),
        (0, [0, 1], [3, 8]),
    ],
};

const LARGE_PAGES: &Case = &Case {
    first: &[
        Access::Write(0, [1, 0], 255),
        Access::Read(0, [1, 0], 511),
        Access::Write(0, [1, 0], 65_535),
        Access::Write(0, [1, 0], 1024),
    ],
    second: &[
        Access::Read(0, [0, 1], 255),
        Access::Write(0, [0, 1], 256),
        Access::Write(0, [0, 1], 511),
        Access::Write(0, [0, 1], 65_535),
        Access::Write(0, [0, 1], 1023),
    ],
    agree: true,
    races: &[
        (255, [0, 1], [1, 1]),
        (511, [0, 1], [1, 1]),
        (65_535, [0, 1], [1, 1]),
    ],
};

const CASES: &[(&str, Size, &Case)] = &[
    ("writes in one epoch race", Size::Words64, ONE_EPOCH),
    (
        "writes across a barrier do not race",
        Size::Words64,
        TWO_EPOCHS,
    ),
    (
        "a later epoch that does not know an earlier one disagrees",
        Size::Words64,
        UNKNOWN_EPOCH,
    ),
    (
        "reads do not race and an interval races once",
        Size::Words64,
        READ_AND_WRITTEN,
    ),
    ("times need not rise", Size::Words64, FALLING_TIMES),
    (
        "the words of large pages are told apart, 256",
        Size::Words256,
        LARGE_PAGES,
    ),
    (
        "the words of large pages are told apart, 64",
        Size::Words64,
        LARGE_PAGES,
    ),
];

#[test]
fn races_are_found(rt: HostRuntime) {
    for (name, size, case) in CASES {
        holds(&rt, name, is_found_in(rt.alloc(), *size, case));
    }
}

/// Where the nodes of a run stand: how many intervals and epochs each has had.
#[derive(Clone, Copy)]
struct Counts {
    intervals: [u32; 16],
    epochs: [u32; 16],
}

const START: Counts = Counts {
    intervals: [1; 16],
    epochs: [0; 16],
};

impl Counts {
    /// Takes an act in.
    fn take(&mut self, act: Act) {
        let node = usize::from(act.node % 16);
        match act.deed {
            Deed::Acquire(_) | Deed::Release(_) | Deed::Arrive => {
                self.intervals[node] = self.intervals[node].saturating_add(1);
            }
            Deed::Depart => {
                self.epochs[node] = self.epochs[node].saturating_add(1);
            }
            _ => {}
        }
    }
}

/// Notes the act, if it is an access, in the trace of its node.
fn note_act(
    traces: &mut Vec<Trace>,
    counts: &Counts,
    act: Act,
    time: &Time,
) -> Result<(), AllocError> {
    let (word, is_write) = match act.deed {
        Deed::Read(word, _) => (word, false),
        Deed::Write(word, _) => (word, true),
        _ => return Ok(()),
    };
    let node = usize::from(act.node % 16);
    let mut stamp = time.copy();
    raise(&mut stamp, act.node, counts.intervals[node]);
    note(
        traces,
        act.node,
        counts.epochs[node],
        &stamp,
        word,
        is_write,
    )
}

fn note_run(traces: &mut Vec<Trace>, acts: &[Act], times: &[Time]) -> Result<(), AllocError> {
    let mut counts = START;
    for (act, time) in acts.iter().zip(times) {
        note_act(traces, &counts, *act, time)?;
        counts.take(*act);
    }
    Ok(())
}

/// The traces of a run, of which these are the times.
fn traces_of(
    alloc: Global,
    acts: &[Act],
    times: &[Time],
    nodes: u8,
) -> Result<Vec<Trace>, AllocError> {
    let mut traces = fresh(alloc, nodes, Size::Words64)?;
    note_run(&mut traces, acts, times)?;
    Ok(traces)
}

/// Whether the judge names these races, and there is a first one if there is one.
fn are_judged(alloc: Global, acts: &[Act], races: &[Race]) -> bool {
    if !are_in_range(acts) {
        return false;
    }
    let Ok(first) = first_race(alloc, acts) else {
        return false;
    };
    match named_races(alloc, acts) {
        Ok(named) => named.as_slice() == races && first.is_none() == races.is_empty(),
        Err(_) => false,
    }
}

/// How many races the traces of a run name, if the detector, the judge and the first race agree on it.
fn agreed_on(alloc: Global, acts: &[Act], traces: &[Trace], nodes: u8) -> Option<usize> {
    if !are_traces_of(nodes, traces) || !epochs_agree(traces) {
        return None;
    }
    match races(alloc, traces) {
        Ok(races) if are_judged(alloc, acts, &races) => Some(races.len()),
        _ => None,
    }
}

/// The same of a run with these times.
fn agreed_at(alloc: Global, acts: &[Act], times: &[Time], nodes: u8) -> Option<usize> {
    match traces_of(alloc, acts, times, nodes) {
        Ok(traces) => agreed_on(alloc, acts, &traces, nodes),
        Err(_) => None,
    }
}

/// The same of a run of so many nodes, where it is one.
fn agreed(alloc: Global, acts: &[Act], nodes: u8) -> Option<usize> {
    match times(alloc, acts, nodes) {
        Ok(Some(times)) => agreed_at(alloc, acts, &times, nodes),
        _ => None,
    }
}

/// Numbers that follow from a first one, as a linear congruence gives them.
fn next(state: u64) -> u64 {
    state
        .wrapping_mul(6_364_136_223_846_793_005)
        .wrapping_add(1_442_695_040_888_963_407)
}

/// A step of a run: which node, what, and on which word or lock.
#[derive(Clone, Copy)]
struct Choice {
    node: u8,
    kind: u8,
    place: u8,
}

fn choose(state: u64, nodes: u8) -> Choice {
    let bits = state >> 33;
    Choice {
        node: (bits % 16) as u8 % nodes.max(1),
        kind: (bits / 16 % 8) as u8,
        place: (bits / 128 % 3) as u8,
    }
}

/// Every node comes to a barrier and goes on.
fn push_barrier(acts: &mut Vec<Act>, nodes: u8) -> Result<(), AllocError> {
    for node in 0..nodes {
        acts.push(Act {
            node,
            deed: Deed::Arrive,
        })?;
    }
    for node in 0..nodes {
        acts.push(Act {
            node,
            deed: Deed::Depart,
        })?;
    }
    Ok(())
}

/// What a node does by a choice, where it can, given who holds the lock.
fn deed_of(chosen: Choice, holder: Option<u8>, in_turn: bool) -> Option<Deed> {
    let holds = holder == Some(chosen.node);
    match chosen.kind {
        0 | 1 if holder.is_none() => Some(Deed::Acquire(0)),
        2 if holds => Some(Deed::Release(0)),
        3 | 4 if holds || !in_turn => Some(Deed::Read(u32::from(chosen.place) * 63, 0)),
        5 | 6 if holds || !in_turn => Some(Deed::Write(u32::from(chosen.place) * 63, 1)),
        _ => None,
    }
}

/// A run of so many steps chosen from a first number, in which nodes access words only with the lock, or at will.
fn chosen_run(
    alloc: Global,
    first: u64,
    nodes: u8,
    in_turn: bool,
    steps: u32,
) -> Result<Vec<Act>, AllocError> {
    let mut acts = Vec::new(alloc);
    let mut state = first;
    let mut holder = None;
    for _ in 0..steps {
        state = next(state);
        let chosen = choose(state, nodes);
        if chosen.kind == 7 && chosen.place == 0 {
            push_barrier(&mut acts, nodes)?;
        }
        if let Some(deed) = deed_of(chosen, holder, in_turn) {
            acts.push(Act {
                node: chosen.node,
                deed,
            })?;
            match deed {
                Deed::Acquire(_) => holder = Some(chosen.node),
                Deed::Release(_) => holder = None,
                _ => {}
            }
        }
    }
    Ok(acts)
}

/// How many races a chosen run names, if all agree on it, and whether it has more than so many acts.
fn agreed_in_run(
    alloc: Global,
    first: u64,
    nodes: u8,
    in_turn: bool,
    steps: u32,
    more_than: usize,
) -> Option<usize> {
    match chosen_run(alloc, first, nodes, in_turn, steps) {
        Ok(acts) if acts.len() > more_than => agreed(alloc, &acts, nodes),
        _ => None,
    }
}

/// How many races the chosen runs name in all, if all agree on each.
fn agreed_in_all(alloc: Global, in_turn: bool) -> Option<usize> {
    let mut sum: usize = 0;
    for first in 0..20u64 {
        let nodes = (first % 4) as u8 + 2;
        let found = agreed_in_run(alloc, first, nodes, in_turn, 120, 0)?;
        sum = sum.saturating_add(found);
    }
    Some(sum)
}

// The runs of twenty first numbers, at will and in turn, and one of sixteen nodes with hundreds of acts.
#[test]
fn the_detector_and_the_judge_agree_on_chosen_runs(rt: HostRuntime) {
    let at_will = agreed_in_all(rt.alloc(), false);
    let in_turn = agreed_in_all(rt.alloc(), true);
    let long = agreed_in_run(rt.alloc(), 3, 16, false, 400, 600);
    holds(&rt, "at will", at_will > Some(100));
    holds(&rt, "in turn", in_turn == Some(0));
    holds(&rt, "of sixteen", long > Some(100));
}
