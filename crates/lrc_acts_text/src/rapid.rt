// A run in the trace form of the race detectors of the RAPID framework.

ghost use Rattle.std.specs.Prelude.{◌≡◌, ◌++◌, ◌<◌, ◌≤◌, IfOk, OnOk, codes, decimal, length};
ghost use Rattle.std.specs.List.{flat_map};
ghost use Rattle.lrc_acts_text.specs.Rapid.{lock_of_arrival, operation_text, passes, rapid_step, rapid_steps, rapid_text, step_line};
ghost use Rattle.lrc_trace.specs.Run.{is_arrive, is_depart};
ghost use Rattle.lrc_trace.specs.declared.act.Deed.TheVariants.{Depart};

use crate::tally::Tally;
use lrc_text::{push_number, push_wide_number};
use lrc_trace::act::{Act, Deed};
use std::alloc::{AllocError, Global};

/// What a thread does in the RAPID trace.
#[derive(Clone, Copy)]
pub(crate) enum Operation {
    Reads(u32),
    Writes(u32),
    Acquires(u128),
    Releases(u128),
}

/// The numbers of a program's locks and nodes, and the barriers that one node has reached and left.
#[derive(Clone, Copy)]
pub(crate) struct Meeting {
    locks: u8,
    nodes: u8,
    arrived: u64,
    departed: u64,
}

impl Meeting {
    // The lock that stands for a node's arrival at the barrier with so many before it.
    fn lock(&self, number: u64, node: u8) -> u128
        ensures { result ≡ lock_of_arrival self.now number node }
    {
        u128::from(self.locks) + u128::from(number) * u128::from(self.nodes) + u128::from(node)
    }
}

// The node of an act, its position, and the line of the program's text that it is of.
#[derive(Clone, Copy)]
struct Spot {
    node: u8,
    position: usize,
    line: u32,
}

/// Returns the accesses and the order of a run as a RAPID trace. The program has `locks` locks and runs on `nodes`
/// nodes. RAPID has no barriers. Instead each arrival has its own lock, numbered after the program's locks: an arrive
/// acquires and releases it, and a depart acquires and releases the locks of all nodes' arrivals at that barrier.
pub fn rapid_part(
    alloc: Global,
    acts: &[Act],
    lines: &[u32],
    locks: u8,
    nodes: u8,
) -> Result<Vec<u8>, AllocError>
    requires { length lines.now ≡ length acts.now }
    ensures { IfOk result (λ part. part.items ≡ rapid_text locks nodes acts.now lines.now) }
{
    let mut text = Vec::new(alloc);
    let mut arrives = Tally::new();
    let mut departs = Tally::new();
    for (position, act) in acts.iter().enumerate() {
        let spot = Spot {
            node: act.node,
            position,
            line: lines[position],
        };
        let arrived = arrives.of(act.node);
        let departed = departs.of(act.node);
        let meeting = Meeting {
            locks,
            nodes,
            arrived,
            departed,
        };
        push_steps(&mut text, spot, meeting, act.deed)?;
        arrives.note(act.node, comes_to_barrier(act.deed));
        departs.note(act.node, leaves_barrier(act.deed));
    }
    Ok(text)
}

fn comes_to_barrier(deed: Deed) -> bool
    ensures { result ≡ is_arrive deed }
{
    matches!(deed, Deed::Arrive)
}

fn leaves_barrier(deed: Deed) -> bool
    ensures { result ≡ is_depart deed }
{
    matches!(deed, Deed::Depart)
}

// Adds what stands for an act.
fn push_steps(
    text: &mut Vec<u8>,
    spot: Spot,
    meeting: Meeting,
    deed: Deed,
) -> Result<(), AllocError>
    ensures { OnOk result (text.new.items
        ≡ text.old.items ++ flat_map (step_line spot.line)
        (rapid_steps meeting spot.position spot.node deed)) }
{
    match deed {
        Deed::Read(word, _) => push_step(text, spot, Operation::Reads(word)),
        Deed::Write(word, _) => push_step(text, spot, Operation::Writes(word)),
        Deed::Acquire(lock) => push_step(text, spot, Operation::Acquires(u128::from(lock))),
        Deed::Release(lock) => push_step(text, spot, Operation::Releases(u128::from(lock))),
        Deed::Arrive => push_passes(text, spot, meeting.lock(meeting.arrived, spot.node)),
        Deed::Depart => push_depart(text, spot, meeting),
        _ => Ok(()),
    }
}

fn push_depart(text: &mut Vec<u8>, spot: Spot, meeting: Meeting) -> Result<(), AllocError>
    ensures { OnOk result (text.new.items
        ≡ text.old.items ++ flat_map (step_line spot.line)
        (rapid_steps meeting spot.position spot.node Depart)) }
{
    for node in 0..meeting.nodes {
        push_passes(text, spot, meeting.lock(meeting.departed, node))?;
    }
    Ok(())
}

// Adds that a lock is got and given back.
fn push_passes(text: &mut Vec<u8>, spot: Spot, lock: u128) -> Result<(), AllocError>
    ensures { OnOk result (text.new.items
        ≡ text.old.items ++ flat_map (step_line spot.line) (passes spot.node spot.position lock)) }
{
    push_step(text, spot, Operation::Acquires(lock))?;
    push_step(text, spot, Operation::Releases(lock))
}

fn push_step(text: &mut Vec<u8>, spot: Spot, operation: Operation) -> Result<(), AllocError>
    ensures { OnOk result (text.new.items
        ≡ text.old.items ++ step_line spot.line (rapid_step spot.node spot.position operation)) }
{
    push_number(text, b"T", u64::from(spot.node))?;
    push_operation(text, operation)?;
    push_number(text, b")|", u64::from(spot.line))?;
    text.extend_from_slice(b"\n")
}

fn push_operation(text: &mut Vec<u8>, operation: Operation) -> Result<(), AllocError>
    ensures { OnOk result (text.new.items
        ≡ text.old.items ++ codes "|" ++ operation_text operation) }
{
    match operation {
        Operation::Reads(word) => push_number(text, b"|r(V", u64::from(word)),
        Operation::Writes(word) => push_number(text, b"|w(V", u64::from(word)),
        Operation::Acquires(lock) => push_wide_number(text, b"|acq(L", lock),
        Operation::Releases(lock) => push_wide_number(text, b"|rel(L", lock),
    }
}
