// Programs, and what is found of each. An order has the fewest acts. A node makes its free acts (no read, write, acquire
// or depart) as soon as it can, and at the start the lower node first.

use crate::checks::passes;
use lrc_explore::answers::explore;
use lrc_lang::parse;
use lrc_orders::search::{ExploreFault, Findings, Verdict};
use std::alloc::Global;

// What should be found.
#[derive(Clone, Copy)]
enum Wanted<'a> {
    Free,
    Stuck(&'a [usize]),
    Traps(&'a [usize]),
    Racy(&'a [usize]),
    Fault(ExploreFault),
}

fn is_order(found: &Option<Vec<usize>>, wanted: Option<&[usize]>) -> bool {
    match (found, wanted) {
        (Some(order), Some(least)) => order.as_slice() == least,
        (None, None) => true,
        _ => false,
    }
}

fn are_found(found: &Findings, stuck: Option<&[usize]>, trap: Option<&[usize]>) -> bool {
    is_order(&found.stuck, stuck) && is_order(&found.trap, trap)
}

fn agrees(found: &Result<Verdict, ExploreFault>, wanted: Wanted<'_>) -> bool {
    match (found, wanted) {
        (Ok(Verdict::RaceFree(found)), Wanted::Free) => are_found(found, None, None),
        (Ok(Verdict::RaceFree(found)), Wanted::Stuck(least)) => are_found(found, Some(least), None),
        (Ok(Verdict::RaceFree(found)), Wanted::Traps(least)) => are_found(found, None, Some(least)),
        (Ok(Verdict::Racy { order }), Wanted::Racy(least)) => order.as_slice() == least,
        (Err(fault), Wanted::Fault(other)) => *fault == other,
        _ => false,
    }
}

/// A program for so many nodes, how many states the search may meet, and what should be found.
type Row = (&'static str, &'static [u8], u32, usize, Wanted<'static>);

fn is_found(alloc: Global, row: &Row) -> bool {
    let (_name, text, nodes, most, wanted) = row;
    match parse(alloc, text) {
        Ok(program) => agrees(&explore(alloc, &program, *nodes, *most), *wanted),
        Err(_) => false,
    }
}

fn first_wrong(alloc: Global, rows: &[Row]) -> Option<&'static str> {
    for row in rows {
        if !is_found(alloc, row) {
            return Some(row.0);
        }
    }
    None
}

const COUNTER: &[u8] = b"words 1; locks 1; acquire 0; x = [0]; [0] = x + 1; release 0;";

const FLAGS: &[u8] =
    b"words 3; locks 0; [me] = 1; x = [1 - me]; if x == 0 { y = [2]; [2] = y + 1; }";

const LATE: &[u8] = b"words 2; locks 1;
    if me == 0 { acquire 0; [0] = 1; release 0; [1] = 2; }
    else { acquire 0; x = [0]; y = [1]; release 0; print x; print y; }";

const SPIN: &[u8] = b"words 2; locks 1;
    if me == 0 { acquire 0; [0] = 7; [1] = 1; release 0; }
    else { while f == 0 { acquire 0; f = [1]; release 0; } x = [0]; print x; }";

const CROSSED: &[u8] = b"words 2; locks 2;
    if me % 2 == 0 { acquire 0; acquire 1; release 1; release 0; }
    else { acquire 1; acquire 0; release 0; release 1; }";

const SOMETIMES: &[u8] = b"words 1; locks 1;
    acquire 0; x = [0]; [0] = 1 + me; release 0; if x == 2 { barrier; }";

const DOUBTS: &[u8] = b"words 1; locks 1;
    acquire 0; a = [0]; [0] = 1; release 0; ok = 1 / (a == 0);";

const FEWEST: &[u8] = b"words 4; locks 0;
    if me == 0 { [0] = 1; [0] = 2; x = [4]; }
    if me == 2 { [2] = 1; x = [5]; }";

const NO_NODES: Wanted = Wanted::Fault(ExploreFault::BadNodes);

const ROWS: &[Row] = &[
    ("no order of a counter races", COUNTER, 2, 100, Wanted::Free),
    ("no order of a spin races", SPIN, 2, 1000, Wanted::Free),
    ("flags", FLAGS, 2, 1000, Wanted::Racy(&[0, 0, 1])),
    (
        "a late grant",
        LATE,
        2,
        1000,
        Wanted::Racy(&[0, 1, 0, 0, 0, 1, 1, 0, 1]),
    ),
    (
        "crossed locks",
        CROSSED,
        2,
        1000,
        Wanted::Stuck(&[0, 1, 0, 1]),
    ),
    (
        "a barrier sometimes",
        SOMETIMES,
        2,
        1000,
        Wanted::Stuck(&[1, 1, 1, 1, 1, 1, 0, 0, 0, 0, 0, 0]),
    ),
    (
        "the second of two traps, whichever comes first",
        DOUBTS,
        2,
        1000,
        Wanted::Traps(&[0, 0, 0, 0, 0, 0, 1, 1, 1, 1, 1]),
    ),
    (
        "a trap after the fewest steps",
        FEWEST,
        3,
        1000,
        Wanted::Traps(&[0, 1, 1, 1, 2, 2, 2, 2]),
    ),
    ("no node", COUNTER, 0, 1000, NO_NODES),
    ("seventeen nodes", COUNTER, 17, 1000, NO_NODES),
    (
        "more than one state",
        COUNTER,
        2,
        1,
        Wanted::Fault(ExploreFault::TooMany),
    ),
];

#[test]
fn orders_of_the_fewest_acts_are_found(rt: HostRuntime) {
    passes(&rt, first_wrong(rt.alloc(), ROWS));
}
