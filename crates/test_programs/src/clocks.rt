// The times of runs, beside happens before as the judge computes it.

ghost use Rattle.std.specs.Prelude.{◌<◌, ◌↔◌, All, IsTrue};

use crate::acts::{push_each, run_of};
use crate::checks::holds;
use lrc_clock::times::times_of_acts;
use lrc_judge::are_in_range;
use lrc_judge::order::{Order, happens_before};
use lrc_judge::synchronization::first_fault_of_synchronization;
use lrc_time::Time;
use lrc_trace::act::{Act, Deed};
use std::alloc::{AllocError, Global};

/// What is asked of the times of a run.
#[derive(Clone, Copy)]
enum Asked<'a> {
    /// Whether the time at this position has these entries.
    At(usize, &'a [u32]),
    /// Whether each covers the intervals of exactly the positions of other nodes that happen before its own.
    Agree,
}

/// Whether every act is of one of so many nodes.
fn are_of(acts: &[Act], nodes: u8) -> bool
    ensures { IsTrue result ↔ All (λ act. act.node < nodes) acts.now }
{
    acts.iter().all(|act| act.node < nodes)
}

/// The times of a run of so many nodes, where it is one.
pub fn times(alloc: Global, acts: &[Act], nodes: u8) -> Result<Option<Vec<Time>>, AllocError> {
    if nodes == 0 || nodes > 16 || !are_of(acts, nodes) {
        return Ok(None);
    }
    if first_fault_of_synchronization(acts, nodes).is_some() {
        return Ok(None);
    }
    Ok(Some(times_of_acts(alloc, acts, nodes)?))
}

fn at(time: &Time, node: u8) -> u32 {
    if node < time.nodes() {
        time.at(node)
    } else {
        0
    }
}

/// Whether the time has these entries.
fn is_time(time: &Time, entries: &[u32]) -> bool {
    for node in 0..time.nodes() {
        if entries.get(usize::from(node)) != Some(&time.at(node)) {
            return false;
        }
    }
    entries.len() == usize::from(time.nodes())
}

fn closes(act: Act, node: u8) -> bool {
    act.node == node && matches!(act.deed, Deed::Acquire(_) | Deed::Release(_) | Deed::Arrive)
}

/// The interval of a position: one more than the closing acts of its node before it.
fn interval(acts: &[Act], position: usize, node: u8) -> u32 {
    let mut count: u32 = 0;
    for act in acts.iter().take(position) {
        if closes(*act, node) {
            count = count.saturating_add(1);
        }
    }
    count
}

/// Whether a time, at this position, covers the intervals of exactly the positions of other nodes that happen before.
fn covers(acts: &[Act], order: &Order, later: usize, time: &Time) -> bool {
    for (earlier, act) in acts.iter().enumerate() {
        let covered = interval(acts, earlier, act.node) < at(time, act.node);
        let apart = later < acts.len() && acts[later].node != act.node;
        if apart && covered != order.is_before(earlier, later) {
            return false;
        }
    }
    true
}

fn cover(acts: &[Act], order: &Order, times: &[Time]) -> bool {
    for (later, time) in times.iter().enumerate() {
        if !covers(acts, order, later, time) {
            return false;
        }
    }
    times.len() == acts.len()
}

fn agrees(alloc: Global, acts: &[Act], times: &[Time]) -> bool {
    if !are_in_range(acts) {
        return false;
    }
    match happens_before(alloc, acts) {
        Ok(order) => cover(acts, &order, times),
        Err(_) => false,
    }
}

fn answers(alloc: Global, acts: &[Act], times: &[Time], asked: Asked) -> bool {
    match asked {
        Asked::At(position, entries) => {
            position < times.len() && is_time(&times[position], entries)
        }
        Asked::Agree => agrees(alloc, acts, times),
    }
}

fn answers_each(alloc: Global, acts: &[Act], times: &[Time], asked: &[Asked]) -> bool {
    for one in asked {
        if !answers(alloc, acts, times, *one) {
            return false;
        }
    }
    true
}

/// Whether a run of so many nodes has times, and each of this is so of them; or no times, where nothing is asked.
fn has_times(alloc: Global, acts: &[Act], nodes: u8, asked: Option<&[Asked]>) -> bool {
    match (times(alloc, acts, nodes), asked) {
        (Ok(Some(times)), Some(asked)) => answers_each(alloc, acts, &times, asked),
        (Ok(None), None) => true,
        _ => false,
    }
}

/// The same of the run in which these nodes do this.
fn has_times_of(alloc: Global, deeds: &[(u8, Deed)], nodes: u8, asked: Option<&[Asked]>) -> bool {
    match run_of(alloc, deeds) {
        Ok(acts) => has_times(alloc, &acts, nodes, asked),
        Err(_) => false,
    }
}

// Node 0 hands one lock to node 1, and node 1 another to node 2.
const HANDED_ON: &[(u8, Deed)] = &[
    (0, Deed::Acquire(0)),
    (0, Deed::Write(0, 3)),
    (0, Deed::Release(0)),
    (0, Deed::Write(1, 4)),
    (1, Deed::Acquire(0)),
    (1, Deed::Release(0)),
    (1, Deed::Acquire(1)),
    (1, Deed::Release(1)),
    (2, Deed::Acquire(1)),
    (2, Deed::Read(0, 3)),
    (2, Deed::Release(1)),
];

const HANDED_ON_TIMES: Option<&[Asked]> = Some(&[
    Asked::At(3, &[2, 0, 0]),
    Asked::At(9, &[2, 4, 1]),
    Asked::Agree,
]);

// Three nodes come to a barrier, one of them with a lock, and the next barrier is left open.
const MET: &[(u8, Deed)] = &[
    (0, Deed::Write(0, 7)),
    (1, Deed::Acquire(2)),
    (1, Deed::Arrive),
    (2, Deed::Arrive),
    (0, Deed::Arrive),
    (0, Deed::Depart),
    (1, Deed::Depart),
    (1, Deed::Write(1, 1)),
    (1, Deed::Release(2)),
    (1, Deed::Arrive),
    (2, Deed::Depart),
    (2, Deed::Read(0, 7)),
];

const MET_TIMES: Option<&[Asked]> = Some(&[
    Asked::At(9, &[1, 4, 1]),
    Asked::At(11, &[1, 2, 1]),
    Asked::Agree,
]);

/// Sixteen nodes take one lock in turn, so many turns in all.
fn turns_of_sixteen(alloc: Global, turns: u16) -> Result<Vec<Act>, AllocError> {
    let mut acts = Vec::new(alloc);
    for turn in 0..turns {
        let node = (turn % 16) as u8;
        let deeds = [
            (node, Deed::Acquire(63)),
            (node, Deed::Read(65_535, 0)),
            (node, Deed::Release(63)),
        ];
        push_each(&mut acts, &deeds)?;
    }
    Ok(acts)
}

/// Whether this is so of the times of so many turns.
fn has_times_in_turn(alloc: Global, turns: u16, asked: Asked) -> bool {
    match turns_of_sixteen(alloc, turns) {
        Ok(acts) => has_times(alloc, &acts, 16, Some(&[asked])),
        Err(_) => false,
    }
}

// After the last release every node has closed forty intervals, and the last node knows all.
#[test]
fn a_long_run_has_times(rt: HostRuntime) {
    let forty = has_times_in_turn(rt.alloc(), 320, Asked::At(959, &[40; 16]));
    holds(&rt, "forty intervals", forty);
    holds(
        &rt,
        "agree",
        has_times_in_turn(rt.alloc(), 64, Asked::Agree),
    );
}

// A lock that is taken from its holder.
const BROKEN: &[(u8, Deed)] = &[(0, Deed::Acquire(3)), (1, Deed::Acquire(3))];

/// What nodes do, of how many, and what is asked of their times.
type Row<'a> = (&'a str, &'a [(u8, Deed)], u8, Option<&'a [Asked<'a>]>);

const ROWS: &[Row] = &[
    // The acquire at position 8 learns what node 1 learnt from node 0, and each node's own entry counts its closing acts.
    ("a lock hands times on", HANDED_ON, 3, HANDED_ON_TIMES),
    // The depart at position 10 learns what every node knew at its arrive, and nothing of what node 1 did since.
    ("a barrier joins times", MET, 3, MET_TIMES),
    ("a broken run has no times", BROKEN, 2, None),
];

#[test]
fn runs_have_times(rt: HostRuntime) {
    for (name, deeds, nodes, asked) in ROWS {
        holds(&rt, name, has_times_of(rt.alloc(), deeds, *nodes, *asked));
    }
}
