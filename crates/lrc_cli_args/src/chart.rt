// What is charted, and how.

ghost use Rattle.std.specs.Prelude.{◌≡◌, Bool, IfErr, IfOk, Some, codes, option_map};
ghost use Rattle.clap.specs.Words.{first_of, found_of, rows_of};
ghost use Rattle.lrc_cli_args.specs.CommandLine.{HasChartMisfit, HasChartingMisfit, IsCharting, IsChoice};
ghost use Rattle.lrc_cli_args.specs.Options.{AreChartedActs, HasChartedActsMisfit, IsChartTaken, IsHiding, names_run_option};
ghost use Rattle.lrc_cli_args.specs.declared.misfit.Misfit.TheVariants as unfit;

use crate::choice::{ChartedActs, Charting, Choice, Shape};
use crate::misfit::Misfit;
use crate::reading::{given_number_of, is_any_given, is_named, some_nodes, some_number_of};
use crate::runs::showing_run;
use clap::ArgMatches;

// The options that only a chart of a run has.
static RUN_OPTIONS: [&str; 9] = [
    "steps", "collect", "order", "page", "events", "then", "seed", "threads", "source",
];

/// Returns the choice of the command `chart`, or why its options do not fit.
pub(crate) fn chart_choice<'w>(options: &ArgMatches<'w>) -> Result<Choice<'w>, Misfit>
    requires { IsChartTaken (rows_of (found_of options.now)) }
    ensures ok { IfOk result (IsChoice (codes "chart", rows_of (found_of options.now))) }
    ensures err { IfErr result (HasChartMisfit (rows_of (found_of options.now))) }
{
    let charting = charting_of(options)?;
    match (options.get_str("FILE"), options.get_str("acts")) {
        (Some(_file), None) => { Ok(Choice::Show(showing_run(options)?, Shape::Chart(charting))) }
        (None, Some(file)) => Ok(Choice::ChartActs(charted_acts(options, file)?, charting)),
        (Some(_file), Some(_acts)) => Err(Misfit::Sources),
        (None, None) => Err(Misfit::NoSource),
    }
}

fn charting_of(options: &ArgMatches<'_>) -> Result<Charting, Misfit>
    requires { IsChartTaken (rows_of (found_of options.now)) }
    ensures ok { IfOk result (IsCharting (rows_of (found_of options.now))) }
    ensures err { IfErr result (HasChartingMisfit (rows_of (found_of options.now))) }
{
    let hides_quiet = hiding_named(hidden_of(options))?;
    let text = is_named(options, "text");
    let source = is_named(options, "source");
    if text && source {
        return Err(Misfit::TextSource);
    }
    Ok(Charting {
        text,
        from: some_number_of(options, "from"),
        to: some_number_of(options, "to"),
        hides_quiet,
        source,
    })
}

// What is to be left out, if it is named.
fn hidden_of<'w>(options: &ArgMatches<'w>) -> Option<&'w str>
    ensures { option_map (λ word. word.now) result
        ≡ first_of (codes "hide") (rows_of (found_of options.now)) }
{
    options.get_str("hide")
}

// Whether quiet acts are left out by a word, if there is one.
fn hiding_named(word: Option<&str>) -> Result<bool, Misfit>
    ensures ok { IfOk result (IsHiding (option_map (λ word. word.now) word.entry)) }
    ensures err { IfErr result (λ misfit. (misfit ≡ unfit.Hide)
        × ((hides : Bool) → ¬ IsHiding (option_map (λ word. word.now) word.entry) hides)) }
{
    match word {
        None => Ok(false),
        Some(word) if word == "quiet" => Ok(true),
        Some(_) => Err(Misfit::Hide),
    }
}

// Acts from this file.
fn charted_acts<'w>(options: &ArgMatches<'w>, file: &'w str) -> Result<ChartedActs<'w>, Misfit>
    requires taken { IsChartTaken (rows_of (found_of options.now)) }
    requires file { first_of (codes "acts") (rows_of (found_of options.now)) ≡ Some file.now }
    ensures ok { IfOk result (AreChartedActs (rows_of (found_of options.now))) }
    ensures err { IfErr result (HasChartedActsMisfit (rows_of (found_of options.now))) }
{
    if names_run_option(options) {
        return Err(Misfit::ChartRunOption);
    }
    let nodes = some_nodes(given_number_of(options, "nodes"))?;
    Ok(ChartedActs { file, nodes })
}

// Whether the words give an option that only a chart of a run has.
fn names_run_option(options: &ArgMatches<'_>) -> bool
    ensures { result ≡ names_run_option (rows_of (found_of options.now)) }
{
    is_any_given(options, RUN_OPTIONS.as_slice())
}
