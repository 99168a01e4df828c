// What the program answers to the command `judge`.

ghost use Rattle.std.specs.Prelude.{◌≡◌, ◌≤◌, IfErr, IfOk, IfSome, false, true};
ghost use Rattle.lrc_cli.specs.Answer.{IsActsFault, IsJudged, IsJudgedMemory, judged_nodes};
ghost use Rattle.lrc_text.specs.Parts.{whole_text};
ghost use Rattle.lrc_judge_text.specs.PairsTold.{HasItsRaces, told_text};

use lrc_cli_answer::fault::Fault;
use lrc_cli_answer::printout::Printout;
use lrc_cli_args::choice::Judging;
use lrc_judge_all::judge_all;
use lrc_judge_text::judge::judge;
use lrc_judge_text::memory::ExactMemory;
use lrc_judge_text::pairs::{PairsJudgement, judge_pairs};
use std::alloc::Global;

/// Answers the command `judge`, without racing pairs, for a text of acts.
pub(crate) fn judged(alloc: Global, judging: &Judging<'_>, text: &[u8]) -> Result<Printout, Fault>
    ensures ok { IfOk result (λ printout. IsJudged false false judging.now text.now
        (whole_text printout.parts.items) printout.status) }
    ensures err { IfErr result (IsActsFault (judged_nodes judging.now) text.now) }
{
    let judged = judge(alloc, text, nodes_of(judging), memory_of(judging))?;
    Ok(Printout {
        parts: judged.parts,
        status: judged.status,
    })
}

/// Answers the command `judge`, with racing pairs, for a text of acts. The pairs are found later, while they are
/// written.
pub(crate) fn judged_with_pairs(
    alloc: Global,
    judging: &Judging<'_>,
    text: &[u8],
) -> Result<PairsJudgement, Fault>
    ensures ok { IfOk result (λ judgement.
        IsJudged false true judging.now text.now (told_text judgement) judgement.status) }
    ensures races { IfOk result HasItsRaces }
    ensures err { IfErr result (IsActsFault (judged_nodes judging.now) text.now) }
{
    let judgement = judge_pairs(alloc, text, nodes_of(judging), memory_of(judging))?;
    Ok(judgement)
}

/// Answers the command `judge`, with each read that breaks a rule, for a text of acts.
pub(crate) fn judged_all(
    alloc: Global,
    judging: &Judging<'_>,
    text: &[u8],
) -> Result<Printout, Fault>
    ensures ok { IfOk result (λ printout.
        IsJudged true judging.now.pairs judging.now text.now
        (whole_text printout.parts.items) printout.status) }
    ensures err { IfErr result (IsActsFault (judged_nodes judging.now) text.now) }
{
    let judged = judge_all(
        alloc,
        text,
        nodes_of(judging),
        memory_of(judging),
        judging.pairs,
    )?;
    Ok(Printout {
        parts: judged.parts,
        status: judged.status,
    })
}

// How many nodes the acts are of, where that is said.
fn nodes_of(judging: &Judging<'_>) -> Option<u32>
    ensures value { result ≡ judged_nodes judging.now }
    ensures few { IfSome result (λ count. count ≤ 16) }
{
    match judging.nodes {
        Some(nodes) => Some(nodes.count),
        None => None,
    }
}

// The exact memory that the acts are held against, if one is named.
fn memory_of(judging: &Judging<'_>) -> Option<ExactMemory>
    ensures { IsJudgedMemory judging.now result }
{
    match judging.memory {
        Some(exact) => Some(ExactMemory {
            page_words: u32::from(exact.size.words()),
            collect: exact.collect.count,
        }),
        None => None,
    }
}
