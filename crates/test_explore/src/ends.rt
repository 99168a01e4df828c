// Programs whose orders can all end, and programs with an order that no longer can. The order told is the first with the
// fewest steps: a read, a write or an acquire of one node, or the departs of all. The free acts (no read, write, acquire
// or depart) are made as soon as they can, the lower node first; those of a node that turns for ever are not made.

use crate::checks::passes;
use lrc_explore_ends::answers::{EndVerdict, explore_ends};
use lrc_lang::parse;
use lrc_orders::search::ExploreFault;
use std::alloc::Global;

// What should be found.
#[derive(Clone, Copy)]
enum Wanted<'a> {
    Ends,
    Lost(&'a [usize]),
    Racy(&'a [usize]),
    Fault(ExploreFault),
}

fn agrees(found: &Result<EndVerdict, ExploreFault>, wanted: Wanted<'_>) -> bool {
    match (found, wanted) {
        (Ok(EndVerdict::Through(found)), Wanted::Ends) => found.lost.is_none(),
        (Ok(EndVerdict::Through(found)), Wanted::Lost(least)) => match &found.lost {
            Some(order) => order.as_slice() == least,
            None => false,
        },
        (Ok(EndVerdict::Racy { order }), Wanted::Racy(least)) => order.as_slice() == least,
        (Err(fault), Wanted::Fault(other)) => *fault == other,
        _ => false,
    }
}

/// A program for so many nodes, whether races are looked for, and what should be found.
type Row = (&'static str, &'static [u8], u32, bool, Wanted<'static>);

fn is_found(alloc: Global, row: &Row) -> bool {
    let (_name, text, nodes, races, wanted) = row;
    match parse(alloc, text) {
        Ok(program) => agrees(
            &explore_ends(alloc, &program, *nodes, 1000, *races),
            *wanted,
        ),
        Err(_) => false,
    }
}

fn first_wrong(alloc: Global, rows: &[Row]) -> Option<&'static str> {
    for row in rows {
        if !is_found(alloc, row) {
            return Some(row.0);
        }
    }
    None
}

const TAKEN_BACK: &[u8] = b"words 1; locks 1;
    if me == 0 { acquire 0; [0] = 1; release 0; acquire 0; [0] = 0; release 0; }
    if me == 1 { while f == 0 { acquire 0; f = [0]; release 0; } }";

const FLAG: &[u8] = b"words 1; locks 1;
    if me == 0 { acquire 0; [0] = 1; release 0; }
    if me == 1 { while f == 0 { acquire 0; f = [0]; release 0; } }";

const OVERWRITTEN: &[u8] = b"words 1; locks 0;
    if me == 0 { [0] = 1; [0] = 0; }
    if me == 1 { while f == 0 { f = [0]; } }";

const CIRCLE: &[u8] = b"words 1; locks 2;
    acquire me; acquire 1 - me; release me; release 1 - me;";

const BARRIERS: &[u8] = b"words 1; locks 0; while 1 { barrier; }";

const PRINTS: &[u8] = b"words 1; locks 0; if me == 0 { while 1 { print 1; } }";

const TURNS_LATER: &[u8] = b"words 2; locks 0; [me] = 1; if me == 1 { while 1 { x = 1; } }";

const RACES: &[u8] = b"words 1; locks 0; [0] = me;";

const ROWS: &[Row] = &[
    (
        "a flag that is taken back",
        TAKEN_BACK,
        2,
        true,
        Wanted::Lost(&[0, 1, 1, 1, 0, 0, 0, 0]),
    ),
    ("a flag that comes", FLAG, 2, true, Wanted::Ends),
    (
        "a flag that is overwritten",
        OVERWRITTEN,
        2,
        false,
        Wanted::Lost(&[0, 1, 1, 1, 0, 0, 0, 0]),
    ),
    ("a deadlock is an end", CIRCLE, 2, true, Wanted::Ends),
    (
        "barriers for ever",
        BARRIERS,
        3,
        true,
        Wanted::Lost(&[0, 0, 1, 1, 2, 2]),
    ),
    ("prints for ever", PRINTS, 2, true, Wanted::Lost(&[1, 1])),
    (
        "a loop behind a write",
        TURNS_LATER,
        2,
        true,
        Wanted::Lost(&[]),
    ),
    ("a race", RACES, 2, true, Wanted::Racy(&[0, 1])),
    (
        "no node",
        RACES,
        0,
        true,
        Wanted::Fault(ExploreFault::BadNodes),
    ),
];

#[test]
fn the_first_order_that_can_no_longer_end_is_found(rt: HostRuntime) {
    passes(&rt, first_wrong(rt.alloc(), ROWS));
}
