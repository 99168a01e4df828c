// The least seeds whose runs have outcomes.

ghost use Rattle.std.specs.Prelude.{◌≡◌, ◌+◌, ◌↔◌, length, IfOk, IsTrue, OnOk};
ghost use Rattle.std.specs.List.{list_all};
ghost use Rattle.std.specs.Option.{is_some};
ghost use Rattle.lrc_node.specs.Options.{options_of};
ghost use Rattle.lrc_exact_seeds.specs.Seeds.{AreLeastSeeds, AreMarked, AreSeedsFor, IsMarked};

use crate::seed::notes_of_seed;
use lrc_orders::outcomes::Outcome;
use lrc_program::Program;
use lrc_setting::setting::Setting;
use lrc_trace::act::Act;
use std::alloc::{AllocError, Global};

/// Returns for each outcome the least of so many seeds, from 0 on, whose run with this setting has it, if there is one,
/// where runs are tried; else none has a seed. It fails if memory runs out.
pub fn seeds_for(
    alloc: Global,
    program: &Program,
    setting: &Setting,
    tries: Option<u32>,
    outcomes: &[Outcome],
) -> Result<Vec<Option<u64>>, AllocError>
    ensures { IfOk result (λ seeds. AreSeedsFor program.now setting.now.nodes.count
        (options_of setting.now) tries outcomes.now seeds.items) }
{
    match tries {
        Some(tries) => least_seeds(alloc, program, setting, tries, outcomes),
        None => vec![in alloc; None; outcomes.len()],
    }
}

// The least of so many seeds, from 0 on, whose run with this setting has it, of each of these outcomes, if there is one.
fn least_seeds(
    alloc: Global,
    program: &Program,
    setting: &Setting,
    tries: u32,
    outcomes: &[Outcome],
) -> Result<Vec<Option<u64>>, AllocError>
    ensures { IfOk result (λ seeds. AreLeastSeeds program.now setting.now.nodes.count
        (options_of setting.now) tries outcomes.now seeds.items) }
{
    let mut seeds = vec![in alloc; None; outcomes.len()]?;
    for seed in 0..tries {
        if are_all_found(&seeds) {
            return Ok(seeds);
        }
        try_seed(alloc, program, setting, seed, outcomes, &mut seeds)?;
    }
    Ok(seeds)
}

// One seed more.
fn try_seed(
    alloc: Global,
    program: &Program,
    setting: &Setting,
    seed: u32,
    outcomes: &[Outcome],
    seeds: &mut Vec<Option<u64>>,
) -> Result<(), AllocError>
    requires { AreLeastSeeds program.now setting.now.nodes.count (options_of setting.now) seed
        outcomes.now seeds.old.items }
    ensures { OnOk result (AreLeastSeeds program.now setting.now.nodes.count
        (options_of setting.now) (seed + 1) outcomes.now seeds.new.items) }
{
    let seed = u64::from(seed);
    let notes = notes_of_seed(alloc, program, setting, seed)?;
    match notes {
        Some(notes) => {
            mark(seeds, outcomes, &notes, seed);
            Ok(())
        }
        None => Ok(()),
    }
}

// Whether each outcome has a seed.
fn are_all_found(seeds: &[Option<u64>]) -> bool
    ensures { result ≡ list_all is_some seeds.now }
{
    seeds.iter().all(|seed| seed.is_some())
}

// Marks the outcome that has these notes with a seed, where it has none.
fn mark(seeds: &mut Vec<Option<u64>>, outcomes: &[Outcome], notes: &[Act], seed: u64)
    requires { length seeds.old.items ≡ length outcomes.now }
    ensures { AreMarked outcomes.now notes.now seed seeds.old.items seeds.new.items }
{
    for place in 0..outcomes.len() {
        seeds[place] = marked(&outcomes[place], notes, seed, seeds[place]);
    }
}

// The seed of an outcome, which may be this one.
fn marked(outcome: &Outcome, notes: &[Act], seed: u64, before: Option<u64>) -> Option<u64>
    ensures { IsMarked outcome.now notes.now seed before result }
{
    match before {
        None if has_notes(outcome, notes) => Some(seed),
        _ => before,
    }
}

// Whether an outcome has these notes.
fn has_notes(outcome: &Outcome, notes: &[Act]) -> bool
    ensures { IsTrue result ↔ (outcome.now.notes.items ≡ notes.now) }
{
    outcome.notes.as_slice() == notes
}
