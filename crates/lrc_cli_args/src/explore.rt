// What is explored, and how.

ghost use Rattle.std.specs.Prelude.{◌≡◌, IfErr, IfOk, IsSome, None, Some, codes, false, option_map, true};
ghost use Rattle.clap.specs.Words.{found_of, rows_of};
ghost use Rattle.lrc_cli_args.specs.CommandLine.{HasExploreMisfit, IsChoice};
ghost use Rattle.lrc_cli_args.specs.Options.{AreEventsChosen, HasEventsMisfit, HasMemoryMisfit, IsExploreTaken, IsFlag, IsFlagOption, IsMemory, IsNoPlainMemory, IsPlainMemory, IsTell, asks_outcomes, takes_events, takes_tell, takes_tries};
ghost use Rattle.lrc_cli_args.specs.declared.choice.Tell.{Tell as AnyTell};
ghost use Rattle.lrc_cli_args.specs.declared.misfit.Misfit.TheVariants as unfit;

use crate::choice::{Choice, ExactOptions, Exploring, Memory, Tell};
use crate::judge::names_exact_option;
use crate::misfit::Misfit;
use crate::reading::{
    collect_of, is_given, is_named, most_of, nodes_of, outcome_of, size_of, some_number_of,
    some_text_of, text_of, tries_of,
};
use clap::ArgMatches;

/// The choice of `explore`.
pub(crate) fn explore_choice<'w>(options: &ArgMatches<'w>) -> Result<Choice<'w>, Misfit>
    requires { IsExploreTaken (rows_of (found_of options.now)) }
    ensures ok { IfOk result (IsChoice (codes "explore", rows_of (found_of options.now))) }
    ensures err { IfErr result (HasExploreMisfit (rows_of (found_of options.now))) }
{
    let memory = memory_of(options)?;
    let outcomes = is_named(options, "outcomes");
    let outcome = some_number_of(options, "outcome");
    let tries = some_number_of(options, "tries");
    if tries.is_some() && !takes_tries(memory, outcomes, outcome) {
        return Err(Misfit::Tries);
    }
    let beside = asks_outcomes(options, outcomes, outcome);
    let ignores_races = named_alone(options, "ignore-races", beside, Misfit::IgnoredRaces)?;
    let ends = named_alone(options, "ends", beside, Misfit::Ends)?;
    let events = events_of(options, memory, outcomes, outcome, ends)?;
    Ok(Choice::Explore(Exploring {
        file: text_of(options, "FILE"),
        nodes: nodes_of(options)?,
        nodes_given: is_given(options, "nodes"),
        most: most_of(options)?,
        memory,
        outcomes,
        outcome: outcome_of(options)?,
        tries: tries_of(options)?,
        ignores_races,
        ends,
        events,
    }))
}

// The order whose events are shown, if events are asked for and may be.
fn events_of(
    options: &ArgMatches<'_>,
    memory: Memory,
    outcomes: bool,
    outcome: Option<u64>,
    ends: bool,
) -> Result<Option<Tell>, Misfit>
    ensures ok { IfOk result (AreEventsChosen memory outcomes outcome ends
        (rows_of (found_of options.now))) }
    ensures err { IfErr result (HasEventsMisfit memory outcomes outcome ends
        (rows_of (found_of options.now))) }
{
    let order = some_text_of(options, "tell");
    let Some(form) = some_text_of(options, "as") else {
        return none_told(order);
    };
    if form != "events" {
        return Err(Misfit::ExploreForm);
    }
    if !takes_events(memory, outcomes, outcome) {
        return Err(Misfit::Events);
    }
    let tell = tell_named(order)?;
    if takes_tell(tell, outcome, ends) {
        Ok(Some(tell))
    } else {
        Err(Misfit::Tell)
    }
}

// No events are asked for, so no order of theirs may be named.
fn none_told(order: Option<&str>) -> Result<Option<Tell>, Misfit>
    ensures ok { IfOk result (λ tell. (tell ≡ None) × (option_map (λ word. word.now) order.entry ≡ None)) }
    ensures err { IfErr result (λ misfit. (misfit ≡ unfit.Tell)
        × IsSome (option_map (λ word. word.now) order.entry)) }
{
    match order {
        None => Ok(None),
        Some(_) => Err(Misfit::Tell),
    }
}

// The order that a word names: the first, if there is no word.
fn tell_named(word: Option<&str>) -> Result<Tell, Misfit>
    ensures ok { IfOk result (IsTell (option_map (λ word. word.now) word.entry)) }
    ensures err { IfErr result (λ misfit. (misfit ≡ unfit.ToldOrder)
        × ((tell : AnyTell) → ¬ IsTell (option_map (λ word. word.now) word.entry) tell)) }
{
    match word {
        None => Ok(Tell::First),
        Some(word) => order_named(word),
    }
}

fn order_named(word: &str) -> Result<Tell, Misfit>
    ensures ok { IfOk result (IsTell (Some word.now)) }
    ensures err { IfErr result (λ misfit. (misfit ≡ unfit.ToldOrder)
        × ((tell : AnyTell) → ¬ IsTell (Some word.now) tell)) }
{
    if word == "stuck" {
        Ok(Tell::Stuck)
    } else if word == "trap" {
        Ok(Tell::Trap)
    } else if word == "end" {
        Ok(Tell::End)
    } else {
        Err(Misfit::ToldOrder)
    }
}

// Whether events may be asked for: of one order of the flat memory, and not of a list of outcomes, or of one outcome of the
// exact memory.
fn takes_events(memory: Memory, outcomes: bool, outcome: Option<u64>) -> bool
    ensures { result ≡ takes_events memory outcomes outcome }
{
    match memory {
        Memory::Flat => !outcomes || outcome.is_some(),
        Memory::Lazy => false,
        Memory::Exact(_) => outcome.is_some(),
    }
}

// Whether the events may be those of this order.
fn takes_tell(tell: Tell, outcome: Option<u64>, ends: bool) -> bool
    ensures { result ≡ takes_tell tell outcome ends }
{
    match tell {
        Tell::First => true,
        Tell::Stuck | Tell::Trap => outcome.is_none(),
        Tell::End => ends && outcome.is_none(),
    }
}

// Whether the words name a flag that may not stand beside others, where it is known whether these are there.
fn named_alone(
    options: &ArgMatches<'_>,
    name: &str,
    beside: bool,
    misfit: Misfit,
) -> Result<bool, Misfit>
    requires { IsFlagOption name.now (rows_of (found_of options.now)) }
    ensures ok { IfOk result (λ given. IsFlag name.now given (rows_of (found_of options.now))
        × (given ≡ true → beside ≡ false)) }
    ensures err { IfErr result (λ other. (other ≡ misfit)
        × IsFlag name.now true (rows_of (found_of options.now)) × (beside ≡ true)) }
{
    let given = is_named(options, name);
    if given && beside {
        Err(misfit)
    } else {
        Ok(given)
    }
}

// Whether outcomes are asked for, or a memory is named.
fn asks_outcomes(options: &ArgMatches<'_>, outcomes: bool, outcome: Option<u64>) -> bool
    ensures { result ≡ asks_outcomes outcomes outcome (rows_of (found_of options.now)) }
{
    outcomes || outcome.is_some() || is_given(options, "memory")
}

// The memory that is named, with its options.
fn memory_of(options: &ArgMatches<'_>) -> Result<Memory, Misfit>
    requires { IsExploreTaken (rows_of (found_of options.now)) }
    ensures ok { IfOk result (IsMemory (rows_of (found_of options.now))) }
    ensures err { IfErr result (HasMemoryMisfit (rows_of (found_of options.now))) }
{
    let word = text_of(options, "memory");
    if word == "exact" {
        let size = size_of(options)?;
        let collect = collect_of(options)?;
        return Ok(Memory::Exact(ExactOptions { size, collect }));
    }
    let memory = memory_named(word)?;
    if names_exact_option(options) {
        return Err(Misfit::ExactOption);
    }
    Ok(memory)
}

// The memory of this name that has no options.
fn memory_named(word: &str) -> Result<Memory, Misfit>
    ensures ok { IfOk result (IsPlainMemory word.now) }
    ensures err { IfErr result (λ misfit. (misfit ≡ unfit.Memory) × IsNoPlainMemory word.now) }
{
    if word == "flat" {
        Ok(Memory::Flat)
    } else if word == "lazy" {
        Ok(Memory::Lazy)
    } else {
        Err(Misfit::Memory)
    }
}

// Whether runs at random may be asked for: with the list of the lazy or the exact outcomes.
fn takes_tries(memory: Memory, outcomes: bool, outcome: Option<u64>) -> bool
    ensures { result ≡ takes_tries memory outcomes outcome }
{
    match memory {
        Memory::Flat => false,
        Memory::Lazy | Memory::Exact(_) => outcomes && outcome.is_none(),
    }
}
