// What is judged, and against which memory.

ghost use Rattle.std.specs.Prelude.{◌≡◌, IfErr, IfOk, None, Some, codes};
ghost use Rattle.clap.specs.Words.{first_of, found_of, rows_of};
ghost use Rattle.lrc_cli_args.specs.CommandLine.{HasJudgeMisfit, IsChoice};
ghost use Rattle.lrc_cli_args.specs.Options.{HasExactMisfit, IsExactChosen, IsJudgeTaken, names_exact_option};

use crate::choice::{Choice, ExactOptions, Judging};
use crate::misfit::Misfit;
use crate::reading::{
    collect_of, is_any_given, is_named, size_of, some_nodes, some_number_of, text_of,
};
use clap::ArgMatches;

// The options that only the exact memory has.
static EXACT_OPTIONS: [&str; 2] = ["page", "collect"];

/// Returns the choice of the command `judge`, or why its options do not fit.
pub(crate) fn judge_choice<'w>(options: &ArgMatches<'w>) -> Result<Choice<'w>, Misfit>
    requires { IsJudgeTaken (rows_of (found_of options.now)) }
    ensures ok { IfOk result (IsChoice (codes "judge", rows_of (found_of options.now))) }
    ensures err { IfErr result (HasJudgeMisfit (rows_of (found_of options.now))) }
{
    let memory = exact_memory(options)?;
    let nodes = some_nodes(some_number_of(options, "nodes"))?;
    Ok(Choice::Judge(Judging {
        file: text_of(options, "FILE"),
        nodes,
        pairs: is_named(options, "pairs"),
        all: is_named(options, "all"),
        memory,
    }))
}

// The exact memory, if a memory is named.
fn exact_memory(options: &ArgMatches<'_>) -> Result<Option<ExactOptions>, Misfit>
    requires { IsJudgeTaken (rows_of (found_of options.now)) }
    ensures ok { IfOk result (IsExactChosen (rows_of (found_of options.now))) }
    ensures err { IfErr result (HasExactMisfit (rows_of (found_of options.now))) }
{
    match options.get_str("memory") {
        Some(word) => Ok(Some(memory_named(options, word)?)),
        None => no_memory(options),
    }
}

// The memory of this name.
fn memory_named(options: &ArgMatches<'_>, word: &str) -> Result<ExactOptions, Misfit>
    requires taken { IsJudgeTaken (rows_of (found_of options.now)) }
    requires word { first_of (codes "memory") (rows_of (found_of options.now)) ≡ Some word.now }
    ensures ok { IfOk result (λ exact. IsExactChosen (rows_of (found_of options.now)) (Some exact)) }
    ensures err { IfErr result (HasExactMisfit (rows_of (found_of options.now))) }
{
    if word != "exact" {
        return Err(Misfit::ExactMemory);
    }
    let size = size_of(options)?;
    let collect = collect_of(options)?;
    Ok(ExactOptions { size, collect })
}

// No memory is named: then there is no option of it.
fn no_memory(options: &ArgMatches<'_>) -> Result<Option<ExactOptions>, Misfit>
    requires { first_of (codes "memory") (rows_of (found_of options.now)) ≡ None }
    ensures ok { IfOk result (IsExactChosen (rows_of (found_of options.now))) }
    ensures err { IfErr result (HasExactMisfit (rows_of (found_of options.now))) }
{
    if names_exact_option(options) {
        return Err(Misfit::ExactOption);
    }
    Ok(None)
}

/// Whether the words give an option that only the exact memory has.
pub(crate) fn names_exact_option(options: &ArgMatches<'_>) -> bool
    ensures { result ≡ names_exact_option (rows_of (found_of options.now)) }
{
    is_any_given(options, EXACT_OPTIONS.as_slice())
}
