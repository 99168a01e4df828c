// A judgement of a text of acts with its racing pairs, which are written one position after another.

ghost use Rattle.std.specs.Prelude.{◌≡◌, ◌<◌, ◌≤◌, ◌++◌, All, Err, IfErr, IfOk, IfSome, OnErr, OnOk, Some, false, length, true};
ghost use Rattle.std.specs.Io.KnownBytes.{Appends};
ghost use Rattle.lrc_judge.specs.declared.TheConstants.{NODES};
ghost use Rattle.lrc_report.specs.Output.{AppendsFront};
ghost use Rattle.lrc_text.specs.RaceText.{first_race_text};
ghost use Rattle.lrc_acts.specs.ActsText.{ReadsActs};
ghost use Rattle.lrc_acts.specs.declared.reading.ActsFault.TheVariants.{NoMemory};
ghost use Rattle.lrc_judge_text.specs.BrokenOff.{is_unwritten};
ghost use Rattle.lrc_judge_text.specs.Judgement.{Judges, MayRunOut, accesses_at, pair_lines, writes};
ghost use Rattle.lrc_judge_text.specs.PairsTold.{HasItsRaces, IsPairsJudgement, IsPairsJudgementOf, told_text};
ghost use Rattle.lrc_judge_text.specs.RacingPairs.{lines_from};

use crate::broken_off::BrokenOff;
use crate::judge::{head_of, nodes_of, status_of};
use crate::memory::ExactMemory;
use lrc_acts::judge_lines::{RacingAccesses, push_pair};
use lrc_acts::reading::{ActsFault, LinedActs, acts_of};
use lrc_judge::NODES;
use lrc_judge::first::first_race;
use lrc_judge::pairs::{Conflicts, Pair, conflicts_of};
use lrc_judge::races::word_of;
use lrc_report::output::{Output, put};
use lrc_text::first_race_part;
use lrc_trace::act::{Act, Deed};
use std::alloc::{AllocError, Global};
use std::io::Write;

// How many bytes of lines are gathered before they are written.
const BLOCK: usize = 65_536;

/// A judgement of acts, ready to be written with all its racing pairs. It takes little more memory than the acts,
/// however many pairs there are, because the pairs are found while they are written.
#[derive(Drop)]
pub struct PairsJudgement {
    head: Vec<u8>,
    acts: Vec<Act>,
    conflicts: Conflicts,
    first: Option<usize>,
    /// The program's exit status after the judgement.
    pub status: u8,
}

/// Judges the acts of a text, with the number of nodes and an exact memory if these are given, for a report with all
/// racing pairs. It fails as `judge` does.
pub fn judge_pairs(
    alloc: Global,
    text: &[u8],
    nodes: Option<u32>,
    memory: Option<ExactMemory>,
) -> Result<PairsJudgement, ActsFault>
    requires nodes { IfSome nodes (λ count. count ≤ NODES) }
    ensures ok { IfOk result (IsPairsJudgement nodes memory text.now) }
    ensures judges { IfOk result (λ judgement.
        Judges nodes memory true text.now (told_text judgement) judgement.status) }
    ensures err { IfErr result (λ fault. ReadsActs nodes text.now (Err fault)) }
    ensures memory { IfErr result (λ fault. fault ≡ NoMemory → MayRunOut nodes text.now) }
{
    let lined = acts_of(alloc, text, nodes)?;
    let count = nodes_of(nodes, &lined.acts);
    let judgement = judgement_of(alloc, lined, count, memory)?;
    Ok(judgement)
}

fn judgement_of(
    alloc: Global,
    lined: LinedActs,
    nodes: u8,
    memory: Option<ExactMemory>,
) -> Result<PairsJudgement, AllocError>
    requires nodes { nodes ≤ NODES }
    requires acts { All (λ act. act.node < NODES) lined.acts.items }
    requires below { All (λ act. act.node < nodes) lined.acts.items }
    requires lines { length lined.acts.items ≡ length lined.lines.items }
    ensures { IfOk result (IsPairsJudgementOf nodes memory lined) }
{
    let head = head_of(alloc, &lined.acts, &lined.lines, nodes, memory)?;
    let conflicts = conflicts_of(alloc, &lined.acts)?;
    let first = first_race(alloc, &lined.acts)?;
    let status = status_of(head.synchronized, head.reads, first);
    Ok(PairsJudgement {
        head: head.text,
        acts: lined.acts,
        conflicts,
        first,
        status,
    })
}

/// Writes a judgement: its first lines, then the racing pairs of each later position, and last the line of the first
/// race. It stops at the first write that fails. That pairs are written as soon as they are found is code alone.
pub fn put_pairs<W: Write>(
    alloc: Global,
    output: &mut Output<'_, W>,
    judgement: &PairsJudgement,
) -> Result<(), BrokenOff>
    requires fine { output.now.failed ≡ false }
    requires races { HasItsRaces judgement.now }
    ensures same_writer { output.new.writer.ghost_name ≡ output.old.writer.ghost_name }
    ensures ok { OnOk result (Appends (W.contents output.old.writer.now)
        (W.contents output.new.writer.now) (told_text judgement.now)) }
    ensures err { OnErr result (AppendsFront (W.contents output.old.writer.now)
        (W.contents output.new.writer.now) (told_text judgement.now)) }
    ensures fine { OnOk result (output.new.failed ≡ false) }
    ensures failed { IfErr result (λ broken. output.new.failed ≡ is_unwritten broken) }
{
    put(output, &judgement.head)?;
    match judgement.first {
        Some(first) => put_races(alloc, output, judgement, first),
        None => Ok(()),
    }
}

// Writes the lines of the racing pairs, and that of the first race.
fn put_races<W: Write>(
    alloc: Global,
    output: &mut Output<'_, W>,
    judgement: &PairsJudgement,
    first: usize,
) -> Result<(), BrokenOff>
    requires fine { output.now.failed ≡ false }
    requires races { HasItsRaces judgement.now }
    ensures same_writer { output.new.writer.ghost_name ≡ output.old.writer.ghost_name }
    ensures ok { OnOk result (Appends (W.contents output.old.writer.now)
        (W.contents output.new.writer.now)
        (lines_from judgement.now.conflicts.order judgement.now.acts.items 0
        (length judgement.now.acts.items) ++ first_race_text (Some first))) }
    ensures err { OnErr result (AppendsFront (W.contents output.old.writer.now)
        (W.contents output.new.writer.now)
        (lines_from judgement.now.conflicts.order judgement.now.acts.items 0
        (length judgement.now.acts.items) ++ first_race_text (Some first))) }
    ensures fine { OnOk result (output.new.failed ≡ false) }
    ensures failed { IfErr result (λ broken. output.new.failed ≡ is_unwritten broken) }
{
    let acts = judgement.acts.as_slice();
    let last = first_race_part(alloc, Some(first))?;
    for later in 0..acts.len() {
        let pairs = judgement.conflicts.pairs_with_later(alloc, acts, later)?;
        put_lines(alloc, output, acts, &pairs)?;
    }
    put(output, &last)?;
    Ok(())
}

// Writes the lines of these pairs, block by block.
fn put_lines<W: Write>(
    alloc: Global,
    output: &mut Output<'_, W>,
    acts: &[Act],
    pairs: &[Pair],
) -> Result<(), BrokenOff>
    requires fine { output.now.failed ≡ false }
    requires pairs { All (λ pair. (pair.earlier < length acts.now)
        × (pair.later < length acts.now)) pairs.now }
    ensures same_writer { output.new.writer.ghost_name ≡ output.old.writer.ghost_name }
    ensures ok { OnOk result (Appends (W.contents output.old.writer.now)
        (W.contents output.new.writer.now) (pair_lines acts.now pairs.now)) }
    ensures err { OnErr result (AppendsFront (W.contents output.old.writer.now)
        (W.contents output.new.writer.now) (pair_lines acts.now pairs.now)) }
    ensures fine { OnOk result (output.new.failed ≡ false) }
    ensures failed { IfErr result (λ broken. output.new.failed ≡ is_unwritten broken) }
{
    let mut text = Vec::new(alloc);
    for pair in pairs {
        push_pair(&mut text, accesses_of(acts, pair.earlier, pair.later))?;
        if text.len() >= BLOCK {
            put(output, &text)?;
            text.clear();
        }
    }
    put(output, &text)?;
    Ok(())
}

// The accesses at two positions, to the word of the later.
fn accesses_of(acts: &[Act], earlier: usize, later: usize) -> RacingAccesses
    requires earlier { earlier < length acts.now }
    requires later { later < length acts.now }
    ensures { result ≡ accesses_at acts.now earlier later }
{
    RacingAccesses {
        earlier,
        earlier_writes: writes(acts[earlier].deed),
        later,
        later_writes: writes(acts[later].deed),
        word: word_of(acts[later].deed),
    }
}

fn writes(deed: Deed) -> bool
    ensures { result ≡ writes deed }
{
    matches!(deed, Deed::Write(_, _))
}
