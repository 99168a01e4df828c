// Where the nodes of a run stand after its acts.

ghost use Rattle.std.specs.Prelude.{◌≡◌, ◌<◌, ℕ, List, IfOk};
ghost use Rattle.lrc_program.specs.declared.Program.{Program};
ghost use Rattle.lrc_explain_waits.specs.Followed.{AreFollowed};
ghost use Rattle.lrc_explain_waits.specs.Stand.{coming_by, coming_of, fate_after, fate_of, is_used_up, stand_of, stands_of, takes_step};

use crate::counts::{arrives_of, departs_of, spent_of};
use crate::holder::{Holder, holder_of};
use lrc_exec::machine::Ask;
use lrc_lines::walks::Followed;
use lrc_trace::act::{Act, Cause, Deed};
use std::alloc::{AllocError, Global};

/// How a node ended, according to its acts.
#[derive(Clone, Copy)]
pub enum Fate {
    /// It reached the end of the text.
    Ended,
    /// It trapped.
    Trapped(Cause),
    /// It has neither trapped nor reached the end of the text.
    Unfinished,
}

/// What comes next at a node.
#[derive(Clone, Copy)]
pub enum Coming {
    /// Nothing: its steps are used up.
    StepsUsedUp,
    /// A statement that traps.
    Trap(Cause),
    /// An acquire of a lock, and the node that holds it.
    Acquire(u8, Option<Holder>),
    /// A barrier, with its number among those of the node, counted from 1.
    Barrier(usize),
    /// A read of a word.
    Read(u32),
    /// A write of a word.
    Write(u32),
    /// A print.
    Print,
    /// A release of a lock.
    Release(u8),
    /// An assignment, or a condition.
    Quiet,
    /// The end of the text.
    End,
}

/// Where a node is after its acts.
#[derive(Clone, Copy)]
pub struct Stand {
    /// How it ended.
    pub fate: Fate,
    /// How often it has reached a barrier.
    pub arrives: usize,
    /// The line of what comes next, or of the statement that trapped.
    pub line: u32,
    /// What comes next.
    pub coming: Coming,
}

fn fate_after(fate: Fate, deed: Deed) -> Fate
    ensures { result ≡ fate_after fate deed }
{
    match deed {
        Deed::Trap(cause) => Fate::Trapped(cause),
        Deed::End => Fate::Ended,
        _ => fate,
    }
}

// How a node ended.
fn fate_of(node: u8, acts: &[Act]) -> Fate
    ensures { result ≡ fate_of node acts.now }
{
    let mut fate = Fate::Unfinished;
    for act in acts {
        if act.node == node {
            fate = fate_after(fate, act.deed);
        }
    }
    fate
}

// Whether a node that has taken so many steps has no more.
fn is_used_up(steps: Option<u32>, spent: usize) -> bool
    ensures { result ≡ is_used_up steps spent }
{
    match steps {
        Some(steps) => steps as usize <= spent,
        None => false,
    }
}

// Whether what is asked for takes a step, by a node that has come to a barrier or not.
fn takes_step(arrived: bool, ask: Ask) -> bool
    ensures { result ≡ takes_step arrived ask }
{
    match ask {
        Ask::End => false,
        Ask::Barrier => !arrived,
        _ => true,
    }
}

// What comes next of a node that has steps left, and has departed from so many barriers.
fn coming_by(departs: usize, acts: &[Act], lines: &[u32], ask: Ask) -> Coming
    requires { departs < 18446744073709551615 }
    ensures { result ≡ coming_by departs acts.now lines.now ask }
{
    match ask {
        Ask::Quiet => Coming::Quiet,
        Ask::Print(_) => Coming::Print,
        Ask::Read(word) => Coming::Read(word),
        Ask::Write(word, _) => Coming::Write(word),
        Ask::Acquire(lock) => Coming::Acquire(lock, holder_of(lock, acts, lines)),
        Ask::Release(lock) => Coming::Release(lock),
        Ask::Barrier => Coming::Barrier(departs + 1),
        Ask::Trap(cause) => Coming::Trap(cause),
        Ask::End => Coming::End,
    }
}

// What comes next of a node that asks for this.
fn coming_of(steps: Option<u32>, acts: &[Act], lines: &[u32], node: u8, ask: Ask) -> Coming
    ensures { result ≡ coming_of steps acts.now lines.now node ask }
{
    let departs = departs_of(node, acts);
    let arrived = departs < arrives_of(node, acts);
    if takes_step(arrived, ask) && is_used_up(steps, spent_of(node, acts)) {
        Coming::StepsUsedUp
    } else {
        coming_by(departs, acts, lines, ask)
    }
}

// Where a node stands once acts were followed.
fn stand_of(followed: &Followed<'_>, steps: Option<u32>, acts: &[Act], node: u8) -> Stand
    ensures { (program : Program) (nodes : ℕ) (lines : List ℕ) → node < nodes
        → AreFollowed program nodes lines acts.now followed.now
        → result ≡ stand_of program nodes lines steps acts.now node }
{
    Stand {
        fate: fate_of(node, acts),
        arrives: arrives_of(node, acts),
        line: followed.walks.line(node),
        coming: coming_of(steps, acts, &followed.lines, node, followed.walks.ask(node)),
    }
}

/// Returns where nodes 0, 1, .. are once these acts were followed. `steps` is the number of steps that a node has, if
/// it is limited.
pub fn stands_of(
    alloc: Global,
    followed: &Followed<'_>,
    nodes: u8,
    steps: Option<u32>,
    acts: &[Act],
) -> Result<Vec<Stand>, AllocError>
    ensures { IfOk result (λ stands. (program : Program) (lines : List ℕ)
        → AreFollowed program nodes lines acts.now followed.now
        → stands.items ≡ stands_of program nodes lines steps acts.now) }
{
    let mut stands = Vec::new(alloc);
    for node in 0..nodes {
        stands.push(stand_of(followed, steps, acts, node))?;
    }
    Ok(stands)
}
