// Every order of small programs, one after another on the plain machine, against what the search says of them.

use crate::checks::passes;
use lrc_exec::plain::plain_run;
use lrc_explore::answers::{explore, findings, outcomes};
use lrc_judge::are_in_range;
use lrc_judge::first::first_race;
use lrc_lang::parse;
use lrc_orders::outcomes::Outcome;
use lrc_orders::search::{Findings, Verdict};
use lrc_program::Program;
use lrc_trace::act::{Act, Deed};
use std::alloc::{AllocError, Global};

/// No program here has more orders, with those that lead up to them.
const MOST_ORDERS: usize = 200_000;

/// What the orders of a program come to.
#[derive(Drop)]
struct Looked {
    races: bool,
    gets_stuck: bool,
    traps: bool,
    /// The prints, traps and ends of each order after which no node can make an act, node by node, each list once.
    outcomes: Vec<Vec<Act>>,
}

/// The acts of an order on the plain machine, if it can make them.
fn acts_of(
    alloc: Global,
    program: &Program,
    nodes: u8,
    order: &[usize],
) -> Result<Option<Vec<Act>>, AllocError> {
    if nodes < 1 || nodes > 16 {
        return Ok(None);
    }
    plain_run(alloc, program, nodes, order)
}

/// The position of the first act that races with an earlier one.
fn race_in(alloc: Global, acts: &[Act]) -> Result<Option<usize>, AllocError> {
    if !are_in_range(acts) {
        return Ok(None);
    }
    first_race(alloc, acts)
}

/// The prints, the traps and the ends of acts, node by node.
fn notes_of(alloc: Global, nodes: u8, acts: &[Act]) -> Result<Vec<Act>, AllocError> {
    let mut notes = Vec::new(alloc);
    for node in 0..nodes {
        for act in acts {
            let is_noted = matches!(act.deed, Deed::Print(_) | Deed::Trap(_) | Deed::End);
            if act.node == node && is_noted {
                notes.push(*act)?;
            }
        }
    }
    Ok(notes)
}

/// How many nodes have ended or trapped.
fn stopped_by(notes: &[Act]) -> usize {
    notes
        .iter()
        .filter(|act| !matches!(act.deed, Deed::Print(_)))
        .count()
}

/// Whether a node has trapped.
fn has_trap(acts: &[Act]) -> bool {
    acts.iter().any(|act| matches!(act.deed, Deed::Trap(_)))
}

/// Notes what an order came to after which no node can make an act.
fn note_end(alloc: Global, looked: &mut Looked, nodes: u8, acts: &[Act]) -> Result<(), AllocError> {
    if race_in(alloc, acts)?.is_some() {
        looked.races = true;
    }
    note_outcome(looked, nodes, notes_of(alloc, nodes, acts)?)
}

fn note_outcome(looked: &mut Looked, nodes: u8, notes: Vec<Act>) -> Result<(), AllocError> {
    if stopped_by(&notes) < usize::from(nodes) {
        looked.gets_stuck = true;
    }
    if has_trap(&notes) {
        looked.traps = true;
    }
    if !looked.outcomes.contains(&notes) {
        looked.outcomes.push(notes)?;
    }
    Ok(())
}

/// Whether the plain machine can make an order.
fn is_order(
    alloc: Global,
    program: &Program,
    nodes: u8,
    order: &[usize],
) -> Result<bool, AllocError> {
    match acts_of(alloc, program, nodes, order) {
        Ok(acts) => Ok(acts.is_some()),
        Err(refused) => Err(refused),
    }
}

/// An order with one node more.
fn longer(alloc: Global, order: &[usize], node: usize) -> Result<Vec<usize>, AllocError> {
    let mut all = Vec::with_capacity(alloc, order.len().saturating_add(1))?;
    for before in order {
        all.push(*before)?;
    }
    all.push(node)?;
    Ok(all)
}

/// Puts off an order, if it can be made.
fn put_off(
    alloc: Global,
    program: &Program,
    nodes: u8,
    waiting: &mut Vec<Vec<usize>>,
    order: Vec<usize>,
) -> Result<(), AllocError> {
    if is_order(alloc, program, nodes, &order)? {
        waiting.push(order)?;
    }
    Ok(())
}

/// Puts off each order of one node more that can be made. Whether there is none.
fn is_last(
    alloc: Global,
    program: &Program,
    nodes: u8,
    order: &[usize],
    waiting: &mut Vec<Vec<usize>>,
) -> Result<bool, AllocError> {
    let before = waiting.len();
    for node in 0..usize::from(nodes) {
        put_off(alloc, program, nodes, waiting, longer(alloc, order, node)?)?;
    }
    Ok(waiting.len() == before)
}

/// Notes what an order comes to that makes these acts, if it is the last of its line, and puts off those behind it.
fn look_at(
    alloc: Global,
    program: &Program,
    nodes: u8,
    order: &[usize],
    acts: &[Act],
    looked: &mut Looked,
    waiting: &mut Vec<Vec<usize>>,
) -> Result<(), AllocError> {
    if is_last(alloc, program, nodes, order, waiting)? {
        note_end(alloc, looked, nodes, acts)?;
    }
    Ok(())
}

fn look(
    alloc: Global,
    program: &Program,
    nodes: u8,
    order: &[usize],
    looked: &mut Looked,
    waiting: &mut Vec<Vec<usize>>,
) -> bool {
    match acts_of(alloc, program, nodes, order) {
        Ok(Some(acts)) => { look_at(alloc, program, nodes, order, &acts, looked, waiting).is_ok() }
        Ok(None) => true,
        Err(_) => false,
    }
}

/// Goes through the orders that wait, and those behind them. Whether they were not too many.
fn every_order(
    alloc: Global,
    program: &Program,
    nodes: u8,
    looked: &mut Looked,
    waiting: &mut Vec<Vec<usize>>,
) -> bool {
    for _ in 0..MOST_ORDERS {
        match waiting.pop() {
            Some(order) => {
                if !look(alloc, program, nodes, &order, looked, waiting) {
                    return false;
                }
            }
            None => return true,
        }
    }
    false
}

/// Whether the last of these acts is the first that races.
fn are_to_race(alloc: Global, acts: &[Act]) -> bool {
    match race_in(alloc, acts) {
        Ok(Some(first)) => first.saturating_add(1) == acts.len(),
        _ => false,
    }
}

/// Whether the order stands for a run whose last act is the first that races.
fn ends_in_race(alloc: Global, program: &Program, nodes: u8, order: &[usize]) -> bool {
    match acts_of(alloc, program, nodes, order) {
        Ok(Some(acts)) => are_to_race(alloc, &acts),
        _ => false,
    }
}

/// Whether of these acts some node has neither ended nor trapped.
fn are_stuck(alloc: Global, nodes: u8, acts: &[Act]) -> bool {
    match notes_of(alloc, nodes, acts) {
        Ok(notes) => stopped_by(&notes) < usize::from(nodes),
        Err(_) => false,
    }
}

/// Whether no node can make an act after the order.
fn is_end(alloc: Global, program: &Program, nodes: u8, order: &[usize]) -> bool {
    let mut waiting = Vec::new(alloc);
    is_last(alloc, program, nodes, order, &mut waiting) == Ok(true)
}

/// Whether after the order no node can make an act, and some node has neither ended nor trapped.
fn ends_stuck(alloc: Global, program: &Program, nodes: u8, order: &[usize]) -> bool {
    let is_stuck = match acts_of(alloc, program, nodes, order) {
        Ok(Some(acts)) => are_stuck(alloc, nodes, &acts),
        _ => false,
    };
    is_stuck && is_end(alloc, program, nodes, order)
}

/// Whether a node traps in the order.
fn traps_in(alloc: Global, program: &Program, nodes: u8, order: &[usize]) -> bool {
    match acts_of(alloc, program, nodes, order) {
        Ok(Some(acts)) => has_trap(&acts),
        _ => false,
    }
}

/// Whether what is said of stuck orders is what the orders say.
fn is_stuck_right(
    alloc: Global,
    program: &Program,
    nodes: u8,
    looked: &Looked,
    stuck: &Option<Vec<usize>>,
) -> bool {
    match stuck {
        None => !looked.gets_stuck,
        Some(order) => looked.gets_stuck && ends_stuck(alloc, program, nodes, order),
    }
}

/// Whether what is said of traps is.
fn is_trap_right(
    alloc: Global,
    program: &Program,
    nodes: u8,
    looked: &Looked,
    trap: &Option<Vec<usize>>,
) -> bool {
    match trap {
        None => !looked.traps,
        Some(order) => looked.traps && traps_in(alloc, program, nodes, order),
    }
}

/// Whether the findings are what the orders say.
fn are_right(
    alloc: Global,
    program: &Program,
    nodes: u8,
    looked: &Looked,
    found: &Findings,
) -> bool {
    is_stuck_right(alloc, program, nodes, looked, &found.stuck)
        && is_trap_right(alloc, program, nodes, looked, &found.trap)
}

/// Whether the verdict is what the orders say.
fn is_right(
    alloc: Global,
    program: &Program,
    nodes: u8,
    looked: &Looked,
    verdict: &Verdict,
) -> bool {
    match verdict {
        Verdict::RaceFree(found) => {
            !looked.races && are_right(alloc, program, nodes, looked, found)
        }
        Verdict::Racy { order } => looked.races && ends_in_race(alloc, program, nodes, order),
    }
}

/// Whether the outcomes that were found are those of the orders.
fn are_same(looked: &Looked, found: &[Outcome]) -> bool {
    let has = |notes: &Vec<Act>| found.iter().any(|outcome| outcome.notes == *notes);
    looked.outcomes.len() == found.len() && looked.outcomes.iter().all(has)
}

/// Whether the verdict of a search is what the orders say.
fn is_verdict_right(alloc: Global, program: &Program, nodes: u8, looked: &Looked) -> bool {
    match explore(alloc, program, u32::from(nodes), 10_000) {
        Ok(verdict) => is_right(alloc, program, nodes, looked, &verdict),
        Err(_) => false,
    }
}

/// Whether the findings of a search that looks for no race are what the orders say.
fn are_findings_right(alloc: Global, program: &Program, nodes: u8, looked: &Looked) -> bool {
    match findings(alloc, program, u32::from(nodes), 10_000) {
        Ok(found) => are_right(alloc, program, nodes, looked, &found),
        Err(_) => false,
    }
}

/// Whether the outcomes of a search are those of the orders.
fn are_outcomes_right(alloc: Global, program: &Program, nodes: u8, looked: &Looked) -> bool {
    match outcomes(alloc, program, u32::from(nodes), 10_000) {
        Ok(found) => are_same(looked, found.as_slice()),
        Err(_) => false,
    }
}

/// Looks at every order from the start on.
fn look_from_start(alloc: Global, program: &Program, nodes: u8, looked: &mut Looked) -> bool {
    let mut waiting = Vec::new(alloc);
    waiting.push(Vec::new(alloc)).is_ok()
        && every_order(alloc, program, nodes, looked, &mut waiting)
}

/// Whether the searches say of a program what its orders say, one after another.
fn agree(alloc: Global, program: &Program, nodes: u8) -> bool {
    let mut looked = Looked {
        races: false,
        gets_stuck: false,
        traps: false,
        outcomes: Vec::new(alloc),
    };
    look_from_start(alloc, program, nodes, &mut looked)
        && is_verdict_right(alloc, program, nodes, &looked)
        && are_findings_right(alloc, program, nodes, &looked)
        && are_outcomes_right(alloc, program, nodes, &looked)
}

/// A program for so many nodes.
type Case = (&'static str, u8, &'static [u8]);

fn is_met(alloc: Global, nodes: u8, text: &[u8]) -> bool {
    match parse(alloc, text) {
        Ok(program) => agree(alloc, &program, nodes),
        Err(_) => false,
    }
}

fn first_wrong(alloc: Global, cases: &[Case]) -> Option<&'static str> {
    for (name, nodes, text) in cases {
        if !is_met(alloc, *nodes, text) {
            return Some(name);
        }
    }
    None
}

const STORES: &[u8] = b"words 2; locks 0; [me] = 1; x = [1 - me]; print x;";

const COUNTER: &[u8] = b"words 1; locks 1; acquire 0; x = [0]; [0] = x + 1; release 0; print x;";

const CROSSED: &[u8] = b"words 1; locks 2;
    acquire me; acquire 1 - me; release 1 - me; release me;";

const HELD: &[u8] = b"words 1; locks 1; acquire 0; print me;";

const TRAPS: &[u8] =
    b"words 1; locks 1; acquire 0; x = [0]; [0] = x + 1; release 0; y = 1 / x; print y;";

const BARRIER: &[u8] = b"words 2; locks 0; [me] = me + 5; barrier; x = [1 - me]; print x;";

const UNEVEN: &[u8] = b"words 1; locks 0; if me == 0 { barrier; } print me;";

const THREE: &[u8] = b"words 1; locks 1; acquire 0; release 0;";

const READERS: &[u8] = b"words 1; locks 0; x = [0]; print x;";

const HIDDEN: &[u8] = b"words 1; locks 1;
    if me == 0 { [0] = 1; acquire 0; release 0; } else { acquire 0; release 0; x = [0]; }";

const CASES: &[Case] = &[
    ("stores of two nodes", 2, STORES),
    ("a counter of two nodes", 2, COUNTER),
    ("crossed locks of two nodes", 2, CROSSED),
    ("a held lock of two nodes", 2, HELD),
    ("traps of two nodes", 2, TRAPS),
    ("a barrier of two nodes", 2, BARRIER),
    ("an uneven barrier of two nodes", 2, UNEVEN),
    ("readers of two nodes", 2, READERS),
    ("a hidden race of two nodes", 2, HIDDEN),
    ("a lock of three nodes", 3, THREE),
    ("a held lock of three nodes", 3, HELD),
    ("a counter of one node", 1, COUNTER),
    ("a barrier of one node", 1, BARRIER),
    ("traps of one node", 1, TRAPS),
];

#[test]
fn searches_say_what_every_order_says(rt: HostRuntime) {
    passes(&rt, first_wrong(rt.alloc(), CASES));
}
