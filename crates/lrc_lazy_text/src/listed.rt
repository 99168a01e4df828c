// Every outcome of the lazy runs of a program, as it is printed.

ghost use Rattle.std.specs.Prelude.{◌≡◌, ◌≢◌, ◌++◌, IfErr, IfOk, OnOk, codes, decimal, length};
ghost use Rattle.lrc_text.specs.Parts.{whole_text};
ghost use Rattle.lrc_explore_text.specs.Outcomes.{none_ends};
ghost use Rattle.lrc_lazy_text.specs.Listed.{AreSeedsFor, AreToldOf, FitLazyRuns, ListsLazyOutcomes, MetTooManyLazily, TellsLazyOutcomes, marked_line, marked_lines, seed_mark, told_pair};

use lrc_explore_text::outcomes::outcome_line;
use lrc_lazy_run::seeds::least_seeds;
use lrc_lazy_search::search::lazy_outcomes;
use lrc_orders::outcomes::Outcome;
use lrc_orders::search::ExploreFault;
use lrc_program::Program;
use lrc_setting::setting::Nodes;
use lrc_text::push_number;
use std::alloc::{AllocError, Global};

/// An outcome as it is printed: its line, and the least of the tried seeds whose run has it, if one has.
#[derive(PartialEq, Eq, PartialOrd, Ord, Drop)]
pub struct ToldOutcome {
    pub line: Vec<u8>,
    pub seed: Option<u64>,
}

/// Returns what is printed of the outcomes of the lazy runs of a program, in parts. If `tries` is given, it plays a run
/// in the random order of each seed below `tries`, and each outcome has behind it the least seed whose run has it. Gives
/// up with `TooMany` only if lazy runs lead to more than `most` different states. Fails if memory runs out.
pub fn lazy_outcomes_told(
    alloc: Global,
    program: &Program,
    nodes: Nodes,
    most: usize,
    tries: Option<u32>,
) -> Result<Vec<Vec<u8>>, ExploreFault>
    ensures told { IfOk result (λ parts. TellsLazyOutcomes program.now nodes.count tries
        (whole_text parts.items)) }
    ensures fits { IfOk result (λ _. FitLazyRuns program.now nodes.count most) }
    ensures nodes { IfErr result (λ fault. fault ≢ ExploreFault.BadNodes) }
    ensures too_many { IfErr result (λ fault. fault ≡ ExploreFault.TooMany
        → MetTooManyLazily program.now nodes.count most) }
{
    let found = lazy_outcomes(alloc, program, nodes.count, most)?;
    let outcomes = found.as_slice();
    let seeds = seeds_for(alloc, program, nodes, tries, outcomes)?;
    let parts = outcomes_listed(alloc, nodes.number(), outcomes, &seeds)?;
    Ok(parts)
}

// The least seeds whose runs have these outcomes, where runs are tried.
fn seeds_for(
    alloc: Global,
    program: &Program,
    nodes: Nodes,
    tries: Option<u32>,
    outcomes: &[Outcome],
) -> Result<Vec<Option<u64>>, AllocError>
    ensures { IfOk result (λ seeds. AreSeedsFor program.now nodes.count tries outcomes.now
        seeds.items) }
{
    match tries {
        Some(tries) => least_seeds(alloc, program, nodes, tries, outcomes),
        None => vec![in alloc; None; outcomes.len()],
    }
}

// The lines of outcomes with these seeds, ascending, behind the line that counts them.
fn outcomes_listed(
    alloc: Global,
    nodes: u8,
    outcomes: &[Outcome],
    seeds: &[Option<u64>],
) -> Result<Vec<Vec<u8>>, AllocError>
    requires { length seeds.now ≡ length outcomes.now }
    ensures { IfOk result (λ parts. ListsLazyOutcomes nodes outcomes.now seeds.now
        (whole_text parts.items)) }
{
    let told = sorted_lines(alloc, nodes, outcomes, seeds)?;
    let head = head_of(alloc, outcomes.len())?;
    all_lines(alloc, head, &told)
}

// How many outcomes there are, and where there are none that no run ends.
fn head_of(alloc: Global, count: usize) -> Result<Vec<u8>, AllocError>
    ensures { IfOk result (λ head. head.items
        ≡ codes "outcomes " ++ decimal count ++ codes " in all lazy runs\n" ++ none_ends count) }
{
    let mut head = Vec::new(alloc);
    push_number(&mut head, b"outcomes ", count as u64)?;
    head.extend_from_slice(b" in all lazy runs\n")?;
    push_none_ends(&mut head, count)?;
    Ok(head)
}

/// Says that no run ends, where there are no outcomes.
pub fn push_none_ends(text: &mut Vec<u8>, count: usize) -> Result<(), AllocError>
    ensures { OnOk result (text.new.items ≡ text.old.items ++ none_ends count) }
{
    if count == 0 {
        text.extend_from_slice(b"no run ends\n")
    } else {
        Ok(())
    }
}

/// Returns the lines of outcomes with their seeds, ascending by the lines.
pub fn sorted_lines(
    alloc: Global,
    nodes: u8,
    outcomes: &[Outcome],
    seeds: &[Option<u64>],
) -> Result<Vec<ToldOutcome>, AllocError>
    requires { length seeds.now ≡ length outcomes.now }
    ensures { IfOk result (λ told. AreToldOf nodes outcomes.now seeds.now told.items) }
{
    let mut told = Vec::new(alloc);
    for place in 0..outcomes.len() {
        let line = outcome_line(alloc, nodes, &outcomes[place].notes)?;
        let seed = seeds[place];
        told.push(ToldOutcome { line, seed })?;
    }
    told.sort_unstable();
    Ok(told)
}

/// Returns the lines, each with its seed, behind a first line.
pub fn all_lines(
    alloc: Global,
    head: Vec<u8>,
    told: &[ToldOutcome],
) -> Result<Vec<Vec<u8>>, AllocError>
    ensures { IfOk result (λ parts. whole_text parts.items ≡ head.items ++ marked_lines told.now) }
{
    let mut parts = Vec::new(alloc);
    parts.push(head)?;
    for outcome in told {
        parts.push(marked(alloc, outcome)?)?;
    }
    Ok(parts)
}

// A line with its seed, if it has one.
fn marked(alloc: Global, told: &ToldOutcome) -> Result<Vec<u8>, AllocError>
    ensures { IfOk result (λ line. line.items ≡ marked_line (told_pair told.now)) }
{
    let mut line = Vec::new(alloc);
    let front = &told.line[..told.line.len().saturating_sub(1)];
    line.extend_from_slice(front)?;
    push_seed(&mut line, told.seed)?;
    line.extend_from_slice(b"\n")?;
    Ok(line)
}

// Adds a seed, if there is one.
fn push_seed(line: &mut Vec<u8>, seed: Option<u64>) -> Result<(), AllocError>
    ensures { OnOk result (line.new.items ≡ line.old.items ++ seed_mark seed) }
{
    match seed {
        Some(seed) => push_number(line, b" # seed ", seed),
        None => Ok(()),
    }
}
