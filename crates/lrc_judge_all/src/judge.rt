// What is printed of a text of acts, and the status after it.

ghost use Rattle.std.specs.Prelude.{◌≡◌, ◌<◌, ◌≤◌, ◌++◌, All, Err, IfErr, IfOk, IfSome, length};
ghost use Rattle.lrc_judge.specs.declared.TheConstants.{NODES};
ghost use Rattle.lrc_text.specs.Parts.{whole_text};
ghost use Rattle.lrc_text.specs.RaceText.{first_race_text};
ghost use Rattle.lrc_acts.specs.ActsText.{ReadsActs};
ghost use Rattle.lrc_acts.specs.declared.reading.ActsFault.TheVariants.{NoMemory};
ghost use Rattle.lrc_judge_text.specs.Judgement.{AddsText, MayRunOut, TellsRaces, TellsSynchronization, accesses_at, judge_status, pair_lines, writes};
ghost use Rattle.lrc_judge_all.specs.JudgesAll.{IsWholeHead, IsWholeJudgement, JudgesAll};

use crate::disorders::tell_disorders;
use crate::misreads::tell_misreads;
use crate::place::place_at;
use lrc_acts::judge_lines::{RacingAccesses, push_pair, push_unsynchronized};
use lrc_acts::reading::{ActsFault, acts_of};
use lrc_judge::NODES;
use lrc_judge::first::first_race;
use lrc_judge::pairs::{Pair, racing_pairs};
use lrc_judge::races::{named_races, word_of};
use lrc_judge::synchronization::first_fault_of_synchronization;
use lrc_judge_text::exact::{reads_both, tell_exact_reading};
use lrc_judge_text::judge::{Printout, nodes_of};
use lrc_judge_text::memory::ExactMemory;
use lrc_text::{first_race_part, races_part};
use lrc_trace::act::{Act, Deed};
use std::alloc::{AllocError, Global};

/// Judges the acts of a text, with the number of nodes if that is given, and names each read that breaks a rule. With an
/// exact memory it also names the first read that is not exact. Names the races, or with `pairs` the racing pairs. It
/// fails if the text is too long, if a line is bad (the error names the first one), or if memory runs out.
pub fn judge_all(
    alloc: Global,
    text: &[u8],
    nodes: Option<u32>,
    memory: Option<ExactMemory>,
    pairs: bool,
) -> Result<Printout, ActsFault>
    requires nodes { IfSome nodes (λ count. count ≤ NODES) }
    ensures ok { IfOk result (λ printout.
        JudgesAll nodes memory pairs text.now (whole_text printout.parts.items) printout.status) }
    ensures err { IfErr result (λ fault. ReadsActs nodes text.now (Err fault)) }
    ensures memory { IfErr result (λ fault. fault ≡ NoMemory → MayRunOut nodes text.now) }
{
    let lined = acts_of(alloc, text, nodes)?;
    let count = nodes_of(nodes, &lined.acts);
    let printout = judgement(alloc, &lined.acts, &lined.lines, count, memory, pairs)?;
    Ok(printout)
}

fn judgement(
    alloc: Global,
    acts: &[Act],
    lines: &[u32],
    nodes: u8,
    memory: Option<ExactMemory>,
    pairs: bool,
) -> Result<Printout, AllocError>
    requires nodes { nodes ≤ NODES }
    requires acts { All (λ act. act.node < NODES) acts.now }
    requires below { All (λ act. act.node < nodes) acts.now }
    requires lines { length acts.now ≡ length lines.now }
    ensures { IfOk result (λ printout. IsWholeJudgement nodes memory acts.now lines.now pairs
        (whole_text printout.parts.items) printout.status) }
{
    let head = head_of(alloc, acts, lines, nodes, memory)?;
    let races = races_told(alloc, acts, pairs)?;
    let first = first_race(alloc, acts)?;
    let status = status_of(head.synchronized, head.reads, first);
    let parts = parts_of(alloc, head.text, races, first)?;
    Ok(Printout { parts, status })
}

/// The lines before those on races, with whether the acts are well synchronized, and whether they read as is asked.
#[derive(Drop)]
struct Head {
    text: Vec<u8>,
    synchronized: bool,
    reads: bool,
}

fn head_of(
    alloc: Global,
    acts: &[Act],
    lines: &[u32],
    nodes: u8,
    memory: Option<ExactMemory>,
) -> Result<Head, AllocError>
    requires nodes { nodes ≤ NODES }
    requires acts { All (λ act. act.node < NODES) acts.now }
    requires below { All (λ act. act.node < nodes) acts.now }
    requires lines { length acts.now ≡ length lines.now }
    ensures { IfOk result (λ head. IsWholeHead nodes memory acts.now lines.now head.synchronized
        head.reads head.text.items) }
{
    let mut text = Vec::new(alloc);
    let synchronized = tell_synchronization(&mut text, acts, lines, nodes)?;
    let lazy = tell_misreads(alloc, &mut text, acts, lines)?;
    let exact = tell_exact_reading(alloc, &mut text, acts, lines, nodes, memory)?;
    tell_disorders(alloc, &mut text, acts, lines)?;
    Ok(Head {
        text,
        synchronized,
        reads: reads_both(lazy, exact),
    })
}

// Adds the line on well-synchronization, and returns whether the acts are well synchronized.
fn tell_synchronization(
    text: &mut Vec<u8>,
    acts: &[Act],
    lines: &[u32],
    nodes: u8,
) -> Result<bool, AllocError>
    requires nodes { nodes ≤ NODES }
    requires acts { All (λ act. act.node < NODES) acts.now }
    requires lines { length acts.now ≡ length lines.now }
    ensures { IfOk result (λ holds. AddsText text.old.items text.new.items
        (TellsSynchronization nodes acts.now lines.now holds)) }
{
    match first_fault_of_synchronization(acts, nodes) {
        Some(position) => {
            push_unsynchronized(text, place_at(lines, position))?;
            Ok(false)
        }
        None => {
            text.extend_from_slice(b"well synchronized\n")?;
            Ok(true)
        }
    }
}

// The lines of the races, or of the racing pairs.
fn races_told(alloc: Global, acts: &[Act], pairs: bool) -> Result<Vec<u8>, AllocError>
    requires { All (λ act. act.node < NODES) acts.now }
    ensures { IfOk result (λ part. TellsRaces acts.now pairs part.items) }
{
    if pairs {
        let pairs = racing_pairs(alloc, acts)?;
        let part = pairs_part(alloc, acts, pairs.as_slice())?;
        Ok(part)
    } else {
        let races = named_races(alloc, acts)?;
        let part = races_part(alloc, races.as_slice())?;
        Ok(part)
    }
}

// The lines of these pairs.
fn pairs_part(alloc: Global, acts: &[Act], pairs: &[Pair]) -> Result<Vec<u8>, AllocError>
    requires { All (λ pair. (pair.earlier < length acts.now)
        × (pair.later < length acts.now)) pairs.now }
    ensures { IfOk result (λ part. part.items ≡ pair_lines acts.now pairs.now) }
{
    let mut text = Vec::new(alloc);
    for pair in pairs {
        push_pair(&mut text, accesses_of(acts, pair.earlier, pair.later))?;
    }
    Ok(text)
}

// The accesses at two positions, to the word of the later.
fn accesses_of(acts: &[Act], earlier: usize, later: usize) -> RacingAccesses
    requires earlier { earlier < length acts.now }
    requires later { later < length acts.now }
    ensures { result ≡ accesses_at acts.now earlier later }
{
    RacingAccesses {
        earlier,
        earlier_writes: writes(acts[earlier].deed),
        later,
        later_writes: writes(acts[later].deed),
        word: word_of(acts[later].deed),
    }
}

fn writes(deed: Deed) -> bool
    ensures { result ≡ writes deed }
{
    matches!(deed, Deed::Write(_, _))
}

fn parts_of(
    alloc: Global,
    head: Vec<u8>,
    races: Vec<u8>,
    first: Option<usize>,
) -> Result<Vec<Vec<u8>>, AllocError>
    ensures { IfOk result (λ parts. whole_text parts.items
        ≡ head.items ++ races.items ++ first_race_text first) }
{
    let mut parts = Vec::new(alloc);
    parts.push(head)?;
    parts.push(races)?;
    parts.push(first_race_part(alloc, first)?)?;
    Ok(parts)
}

// The exit status for a judgement.
fn status_of(synchronized: bool, reads: bool, first: Option<usize>) -> u8
    ensures { result ≡ judge_status synchronized reads first }
{
    if !synchronized || !reads {
        return 4;
    }
    if first.is_some() { 3 } else { 0 }
}
