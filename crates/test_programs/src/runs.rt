// The definitions on runs, computed.

use crate::acts::{Named, are_races, push_each, run_of};
use crate::checks::holds;
use lrc_judge::are_in_range;
use lrc_judge::order::happens_before;
use lrc_judge::races::named_races;
use lrc_judge::reading::first_fault_of_reading;
use lrc_judge::synchronization::first_fault_of_synchronization;
use lrc_trace::act::{Act, Deed};
use std::alloc::{AllocError, Global};

/// What the judge is asked of a run, and what it is to answer.
#[derive(Clone, Copy)]
enum Asked<'a> {
    /// How many races it names, and the first of them.
    Races(usize, &'a [Named]),
    /// Where the first fault of reading is.
    Misread(Option<usize>),
    /// Where the first fault of synchronization among so many nodes is.
    Broken(u8, Option<usize>),
    /// Whether the act at the first position happens before the one at the second.
    Before(usize, usize, bool),
}

fn answers(alloc: Global, acts: &[Act], asked: Asked) -> bool {
    if !are_in_range(acts) {
        return false;
    }
    match asked {
        Asked::Races(count, first) => match named_races(alloc, acts) {
            Ok(races) => are_races(&races, count, first),
            Err(_) => false,
        },
        Asked::Misread(fault) => first_fault_of_reading(alloc, acts) == Ok(fault),
        Asked::Broken(nodes, fault) => {
            nodes <= 16 && first_fault_of_synchronization(acts, nodes) == fault
        }
        Asked::Before(earlier, later, is_so) => match happens_before(alloc, acts) {
            Ok(order) => order.is_before(earlier, later) == is_so,
            Err(_) => false,
        },
    }
}

fn answers_each(alloc: Global, acts: &[Act], asked: &[Asked]) -> bool {
    for one in asked {
        if !answers(alloc, acts, *one) {
            return false;
        }
    }
    true
}

/// The nodes of a run and what each does, and what the judge is asked of it.
struct Row<'a> {
    deeds: &'a [(u8, Deed)],
    asked: &'a [Asked<'a>],
}

fn answers_row(alloc: Global, row: &Row) -> bool {
    match run_of(alloc, row.deeds) {
        Ok(acts) => answers_each(alloc, &acts, row.asked),
        Err(_) => false,
    }
}

// Node 0 writes a word that node 1 reads.
const RACING: &Row = &Row {
    deeds: &[
        (0, Deed::Quiet),
        (1, Deed::Quiet),
        (0, Deed::Write(0, 5)),
        (1, Deed::Read(0, 0)),
        (0, Deed::End),
        (1, Deed::Print(0)),
        (1, Deed::End),
    ],
    asked: &[
        Asked::Races(1, &[(0, [0, 1], [1, 1])]),
        Asked::Misread(None),
        Asked::Broken(2, None),
    ],
};

// Node 0 writes one word under a lock and another after it, and node 1 reads both under the lock.
const HALF_LOCKED: &Row = &Row {
    deeds: &[
        (0, Deed::Quiet),
        (0, Deed::Acquire(0)),
        (0, Deed::Write(0, 1)),
        (0, Deed::Release(0)),
        (0, Deed::Write(1, 2)),
        (1, Deed::Quiet),
        (1, Deed::Acquire(0)),
        (1, Deed::Read(0, 1)),
        (1, Deed::Read(1, 0)),
        (1, Deed::Release(0)),
        (1, Deed::Print(1)),
        (1, Deed::Print(0)),
        (1, Deed::End),
        (0, Deed::End),
    ],
    asked: &[
        Asked::Races(1, &[(1, [0, 1], [3, 2])]),
        Asked::Misread(None),
        Asked::Broken(2, None),
        Asked::Before(2, 7, true),
        Asked::Before(4, 8, false),
        Asked::Before(7, 2, false),
    ],
};

// Three nodes write one word twice, in no order.
const UNORDERED: &Row = &Row {
    deeds: &[
        (0, Deed::Write(0, 0)),
        (1, Deed::Write(0, 1)),
        (2, Deed::Write(0, 2)),
        (0, Deed::Write(0, 0)),
        (1, Deed::Write(0, 1)),
        (2, Deed::Write(0, 2)),
        (0, Deed::End),
        (1, Deed::End),
        (2, Deed::End),
    ],
    asked: &[
        Asked::Races(
            3,
            &[
                (0, [0, 1], [1, 1]),
                (0, [0, 2], [1, 1]),
                (0, [1, 2], [1, 1]),
            ],
        ),
        Asked::Misread(None),
        Asked::Broken(3, None),
    ],
};

// Node 0 hands one lock to node 1, and node 1 another to node 2.
const HANDED_ON: &Row = &Row {
    deeds: &[
        (0, Deed::Acquire(0)),
        (0, Deed::Write(0, 3)),
        (0, Deed::Release(0)),
        (0, Deed::End),
        (1, Deed::Acquire(0)),
        (1, Deed::Release(0)),
        (1, Deed::Acquire(1)),
        (1, Deed::Release(1)),
        (1, Deed::End),
        (2, Deed::Acquire(1)),
        (2, Deed::Read(0, 3)),
        (2, Deed::Release(1)),
        (2, Deed::Print(3)),
        (2, Deed::End),
    ],
    asked: &[
        Asked::Races(0, &[]),
        Asked::Misread(None),
        Asked::Broken(3, None),
        Asked::Before(1, 10, true),
    ],
};

// Node 0 writes a word, and after a barrier all three nodes read it. A fourth node has not arrived.
const MET: &Row = &Row {
    deeds: &[
        (0, Deed::Write(0, 7)),
        (1, Deed::Arrive),
        (2, Deed::Arrive),
        (0, Deed::Arrive),
        (0, Deed::Depart),
        (1, Deed::Depart),
        (2, Deed::Depart),
        (0, Deed::Read(0, 7)),
        (1, Deed::Read(0, 7)),
        (2, Deed::Read(0, 7)),
    ],
    asked: &[
        Asked::Races(0, &[]),
        Asked::Misread(None),
        Asked::Broken(3, None),
        Asked::Broken(4, Some(4)),
    ],
};

// A value that no write before it wrote,
const NEVER_WRITTEN: &Row = &Row {
    deeds: &[
        (0, Deed::Write(0, 5)),
        (0, Deed::Read(0, 5)),
        (1, Deed::Read(0, 5)),
    ],
    asked: &[Asked::Misread(Some(2))],
};

// and one that a later write of the same node replaced.
const REPLACED: &Row = &Row {
    deeds: &[
        (0, Deed::Write(0, 5)),
        (0, Deed::Write(0, 6)),
        (0, Deed::Read(1, 0)),
        (0, Deed::Read(0, 5)),
    ],
    asked: &[Asked::Misread(Some(3))],
};

// A lock taken from its holder, one released by a node that does not hold it,
const HELD: &Row = &Row {
    deeds: &[(0, Deed::Acquire(3)), (1, Deed::Acquire(3))],
    asked: &[Asked::Broken(2, Some(1))],
};

const NOT_HELD: &Row = &Row {
    deeds: &[(0, Deed::Acquire(3)), (1, Deed::Release(3))],
    asked: &[Asked::Broken(2, Some(1))],
};

// and a depart before an arrive.
const EARLY: &Row = &Row {
    deeds: &[
        (0, Deed::Arrive),
        (1, Deed::Arrive),
        (0, Deed::Depart),
        (0, Deed::Depart),
    ],
    asked: &[Asked::Broken(2, Some(3))],
};

const ROWS: &[(&str, &Row)] = &[
    ("a racing pair", RACING),
    ("one word races and one does not", HALF_LOCKED),
    ("three unordered writers", UNORDERED),
    ("ordered through a third node", HANDED_ON),
    ("a barrier orders all", MET),
    ("faults of reading: never written", NEVER_WRITTEN),
    ("faults of reading: replaced", REPLACED),
    ("faults of synchronization: held", HELD),
    ("faults of synchronization: not held", NOT_HELD),
    ("faults of synchronization: early", EARLY),
];

#[test]
fn runs_are_judged(rt: HostRuntime) {
    for (name, row) in ROWS {
        holds(&rt, name, answers_row(rt.alloc(), row));
    }
}

/// A long run: sixteen nodes in turn write, read and print under the lock with the largest number. Or the same run without its
/// locks.
fn long_run(alloc: Global, turns: u16, is_locked: bool) -> Result<Vec<Act>, AllocError> {
    let mut acts = Vec::new(alloc);
    for turn in 0..turns {
        let node = (turn % 16) as u8;
        let deeds = [
            (node, Deed::Acquire(63)),
            (node, Deed::Read(4095, u64::from(turn))),
            (node, Deed::Write(4095, u64::from(turn) + 1)),
            (node, Deed::Release(63)),
        ];
        push_each(&mut acts, if is_locked { &deeds } else { &deeds[1..3] })?;
    }
    Ok(acts)
}

/// Whether the judge answers each so of the long run of so many turns.
fn answers_long(alloc: Global, turns: u16, is_locked: bool, asked: &[Asked]) -> bool {
    match long_run(alloc, turns, is_locked) {
        Ok(acts) => answers_each(alloc, &acts, asked),
        Err(_) => false,
    }
}

const LOCKED_ASKED: &[Asked] = &[
    Asked::Races(0, &[]),
    Asked::Misread(None),
    Asked::Broken(16, None),
    Asked::Before(0, 999, true),
    Asked::Before(999, 0, false),
];

const UNLOCKED_ASKED: &[Asked] = &[Asked::Races(120, &[])];

/// Whether there are nodes 0 to 15 alone.
fn sixteen_are_in_range() -> bool {
    let deed = Deed::End;
    are_in_range(&[Act { node: 15, deed }]) && !are_in_range(&[Act { node: 16, deed }])
}

#[test]
fn long_runs_are_judged(rt: HostRuntime) {
    holds(&rt, "range", sixteen_are_in_range());
    holds(
        &rt,
        "locked",
        answers_long(rt.alloc(), 250, true, LOCKED_ASKED),
    );
    holds(
        &rt,
        "unlocked",
        answers_long(rt.alloc(), 500, false, UNLOCKED_ASKED),
    );
}
