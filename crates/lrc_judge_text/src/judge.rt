// What is printed of a text of acts, and the status after it.

ghost use Rattle.std.specs.Prelude.{◌≡◌, ◌<◌, ◌≤◌, ◌⊎◌, ◌++◌, All, IfErr, IfOk, IfSome, Err, false, length};
ghost use Rattle.lrc_judge.specs.declared.TheConstants.{NODES};
ghost use Rattle.lrc_text.specs.Parts.{whole_text};
ghost use Rattle.lrc_text.specs.RaceText.{first_race_text};
ghost use Rattle.lrc_acts.specs.ActsText.{ReadsActs};
ghost use Rattle.lrc_acts.specs.declared.reading.ActsFault.TheVariants.{NoMemory};
ghost use Rattle.lrc_judge_text.specs.Judgement.{CountsNodes, IsHead, IsJudgement, IsNodeCount, Judges, MayRunOut, judge_status};

use crate::exact::{reads_both, tell_exact_reading};
use crate::memory::ExactMemory;
use crate::tell::{races_told, tell_lazy_reading, tell_order, tell_synchronization};
use lrc_acts::reading::{ActsFault, acts_of};
use lrc_judge::NODES;
use lrc_judge::first::first_race;
use lrc_text::first_race_part;
use lrc_trace::act::Act;
use std::alloc::{AllocError, Global};

/// The text to print, and the program's exit status.
#[derive(Drop)]
pub struct Printout {
    /// The parts of the text, in order.
    pub parts: Vec<Vec<u8>>,
    pub status: u8,
}

/// Judges the acts of a text, with the number of nodes if that is given, and names their races. With an exact memory it
/// also says whether they read exactly. It fails if the text is too long, if a line is bad (the error names the first
/// one), or if memory runs out.
pub fn judge(
    alloc: Global,
    text: &[u8],
    nodes: Option<u32>,
    memory: Option<ExactMemory>,
) -> Result<Printout, ActsFault>
    requires nodes { IfSome nodes (λ count. count ≤ NODES) }
    ensures ok { IfOk result (λ printout.
        Judges nodes memory false text.now (whole_text printout.parts.items) printout.status) }
    ensures err { IfErr result (λ fault. ReadsActs nodes text.now (Err fault)) }
    ensures memory { IfErr result (λ fault. fault ≡ NoMemory → MayRunOut nodes text.now) }
{
    let lined = acts_of(alloc, text, nodes)?;
    let printout = judgement(
        alloc,
        &lined.acts,
        &lined.lines,
        nodes_of(nodes, &lined.acts),
        memory,
    )?;
    Ok(printout)
}

/// Returns the given number of nodes, or else the least number (at least 1) above every node that acts.
pub fn nodes_of(nodes: Option<u32>, acts: &[Act]) -> u8
    requires nodes { IfSome nodes (λ count. count ≤ NODES) }
    requires acts { All (λ act. act.node < NODES) acts.now }
    ensures nodes { CountsNodes nodes acts.now result }
    ensures bound { result ≤ NODES }
{
    match nodes {
        Some(nodes) => nodes as u8,
        None => node_count(acts),
    }
}

// The least number above 0 below which every node is that acts.
fn node_count(acts: &[Act]) -> u8
    requires { All (λ act. act.node < NODES) acts.now }
    ensures count { IsNodeCount acts.now result }
    ensures bound { result ≤ NODES }
{
    let mut count = 1;
    for act in acts {
        count = greater(count, act.node + 1);
    }
    count
}

fn greater(a: u8, b: u8) -> u8
    ensures first { a ≤ result }
    ensures second { b ≤ result }
    ensures one { (result ≡ a) ⊎ (result ≡ b) }
{
    if a < b { b } else { a }
}

fn judgement(
    alloc: Global,
    acts: &[Act],
    lines: &[u32],
    nodes: u8,
    memory: Option<ExactMemory>,
) -> Result<Printout, AllocError>
    requires nodes { nodes ≤ NODES }
    requires acts { All (λ act. act.node < NODES) acts.now }
    requires below { All (λ act. act.node < nodes) acts.now }
    requires lines { length acts.now ≡ length lines.now }
    ensures { IfOk result (λ printout. IsJudgement nodes memory acts.now lines.now false
        (whole_text printout.parts.items) printout.status) }
{
    let head = head_of(alloc, acts, lines, nodes, memory)?;
    let races = races_told(alloc, acts)?;
    let first = first_race(alloc, acts)?;
    let status = status_of(head.synchronized, head.reads, first);
    let parts = parts_of(alloc, head.text, races, first)?;
    Ok(Printout { parts, status })
}

/// The first lines of a judgement, with whether the acts are well synchronized, and whether they read as is asked.
#[derive(Drop)]
pub(crate) struct Head {
    pub(crate) text: Vec<u8>,
    pub(crate) synchronized: bool,
    pub(crate) reads: bool,
}

/// Returns the first lines of a judgement.
pub(crate) fn head_of(
    alloc: Global,
    acts: &[Act],
    lines: &[u32],
    nodes: u8,
    memory: Option<ExactMemory>,
) -> Result<Head, AllocError>
    requires nodes { nodes ≤ NODES }
    requires acts { All (λ act. act.node < NODES) acts.now }
    requires below { All (λ act. act.node < nodes) acts.now }
    requires lines { length acts.now ≡ length lines.now }
    ensures { IfOk result (λ head. IsHead nodes memory acts.now lines.now head.synchronized
        head.reads head.text.items) }
{
    let mut text = Vec::new(alloc);
    let synchronized = tell_synchronization(&mut text, acts, lines, nodes)?;
    let lazy = tell_lazy_reading(alloc, &mut text, acts, lines)?;
    let exact = tell_exact_reading(alloc, &mut text, acts, lines, nodes, memory)?;
    tell_order(alloc, &mut text, acts, lines)?;
    Ok(Head {
        text,
        synchronized,
        reads: reads_both(lazy, exact),
    })
}

fn parts_of(
    alloc: Global,
    head: Vec<u8>,
    races: Vec<u8>,
    first: Option<usize>,
) -> Result<Vec<Vec<u8>>, AllocError>
    ensures { IfOk result (λ parts. whole_text parts.items
        ≡ head.items ++ races.items ++ first_race_text first) }
{
    let mut parts = Vec::new(alloc);
    parts.push(head)?;
    parts.push(races)?;
    parts.push(first_race_part(alloc, first)?)?;
    Ok(parts)
}

/// Returns the program's exit status for a judgement.
pub(crate) fn status_of(synchronized: bool, reads: bool, first: Option<usize>) -> u8
    ensures { result ≡ judge_status synchronized reads first }
{
    if !synchronized || !reads {
        return 4;
    }
    if first.is_some() { 3 } else { 0 }
}
