// The first race of a run.

use crate::acts::{push_each, run_of};
use crate::checks::holds;
use lrc_judge::are_in_range;
use lrc_judge::first::first_race;
use lrc_trace::act::{Act, Deed};
use std::alloc::{AllocError, Global};

/// Whether the first race of the acts is at this position, and none where there is none.
fn is_first(alloc: Global, acts: &[Act], first: Option<usize>) -> bool {
    are_in_range(acts) && first_race(alloc, acts) == Ok(first)
}

/// The same of the run in which these nodes do this.
fn is_first_of(alloc: Global, deeds: &[(u8, Deed)], first: Option<usize>) -> bool {
    match run_of(alloc, deeds) {
        Ok(acts) => is_first(alloc, &acts, first),
        Err(_) => false,
    }
}

const UNORDERED: &[(u8, Deed)] = &[
    (0, Deed::Quiet),
    (1, Deed::Quiet),
    (0, Deed::Write(0, 5)),
    (1, Deed::Read(0, 0)),
    (0, Deed::End),
];

const HALF_ORDERED: &[(u8, Deed)] = &[
    (0, Deed::Acquire(0)),
    (0, Deed::Write(0, 1)),
    (0, Deed::Release(0)),
    (1, Deed::Acquire(0)),
    (1, Deed::Read(0, 1)),
    (0, Deed::Write(1, 2)),
    (1, Deed::Read(1, 0)),
];

const ORDERED: &[(u8, Deed)] = &[
    (0, Deed::Acquire(0)),
    (0, Deed::Write(0, 1)),
    (0, Deed::Release(0)),
    (1, Deed::Acquire(0)),
    (1, Deed::Read(0, 1)),
    (0, Deed::Write(1, 2)),
];

const ROWS: &[(&str, &[(u8, Deed)], Option<usize>)] = &[
    ("a read races with the write before it", UNORDERED, Some(3)),
    ("what a lock orders does not race", ORDERED, None),
    ("what no lock orders races", HALF_ORDERED, Some(6)),
    ("an empty run has no race", &[], None),
];

#[test]
fn first_races_are_found(rt: HostRuntime) {
    for (name, deeds, first) in ROWS {
        holds(&rt, name, is_first_of(rt.alloc(), deeds, *first));
    }
}

/// Sixteen nodes in turn write a word each, and then one writes the first of them.
fn turns(alloc: Global) -> Result<Vec<Act>, AllocError> {
    let mut acts = Vec::new(alloc);
    for word in 0..2_000u32 {
        push_each(&mut acts, &[((word % 16) as u8, Deed::Write(word, 1))])?;
    }
    push_each(&mut acts, &[(15, Deed::Write(0, 2))])?;
    Ok(acts)
}

fn the_last_is_found(alloc: Global) -> bool {
    match turns(alloc) {
        Ok(acts) => is_first(alloc, &acts, Some(2_000)),
        Err(_) => false,
    }
}

#[test]
fn the_last_of_many_accesses_races(rt: HostRuntime) {
    holds(&rt, "the last", the_last_is_found(rt.alloc()));
}
