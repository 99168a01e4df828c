// Of which acts it is asked why they are as they are.

ghost use Rattle.std.specs.Prelude.{◌≡◌, IfErr, IfOk, None, Some, codes};
ghost use Rattle.clap.specs.Words.{first_of, found_of, rows_of};
ghost use Rattle.lrc_cli_args.specs.CommandLine.{HasWhyMisfit, IsChoice};
ghost use Rattle.lrc_cli_args.specs.Options.{AreForeignActs, HasForeignMisfit, IsAsking, IsWhyTaken, has_run_option, option_number, some_number_in};
ghost use Rattle.lrc_cli_args.specs.declared.misfit.Misfit.TheVariants as unfit;

use crate::choice::{Asking, Choice, ForeignActs, Shape};
use crate::misfit::Misfit;
use crate::reading::{
    given_number_of, is_any_given, number_of, size_of, some_nodes, some_number_of,
};
use crate::runs::run_choice;
use clap::ArgMatches;

// The options that only a run of the nodes has.
static RUN_OPTIONS: [&str; 6] = ["steps", "collect", "order", "events", "then", "seed"];

/// Returns the choice of the command `why`, or why its options do not fit.
pub(crate) fn why_choice<'w>(options: &ArgMatches<'w>) -> Result<Choice<'w>, Misfit>
    requires { IsWhyTaken (rows_of (found_of options.now)) }
    ensures ok { IfOk result (IsChoice (codes "why", rows_of (found_of options.now))) }
    ensures err { IfErr result (HasWhyMisfit (rows_of (found_of options.now))) }
{
    let asking = asking_of(options)?;
    match (options.get_str("FILE"), options.get_str("acts")) {
        (Some(_file), None) => Ok(Choice::Show(run_choice(options, false)?, Shape::Why(asking))),
        (None, Some(file)) => Ok(Choice::WhyActs(foreign_acts(options, file)?, asking)),
        (Some(_file), Some(_acts)) => Err(Misfit::Sources),
        (None, None) => Err(Misfit::NoSource),
    }
}

fn asking_of(options: &ArgMatches<'_>) -> Result<Asking, Misfit>
    requires { IsWhyTaken (rows_of (found_of options.now)) }
    ensures ok { IfOk result (IsAsking (rows_of (found_of options.now))) }
    ensures err { IfErr result (λ misfit. (misfit ≡ unfit.SameAct)
        × (some_number_in (codes "and") (rows_of (found_of options.now))
        ≡ Some (option_number (codes "act") (rows_of (found_of options.now))))) }
{
    let act = number_of(options, "act");
    let other = some_number_of(options, "and");
    if other == Some(act) {
        Err(Misfit::SameAct)
    } else {
        Ok(Asking { act, other })
    }
}

// Acts from this file.
fn foreign_acts<'w>(options: &ArgMatches<'w>, file: &'w str) -> Result<ForeignActs<'w>, Misfit>
    requires taken { IsWhyTaken (rows_of (found_of options.now)) }
    requires file { first_of (codes "acts") (rows_of (found_of options.now)) ≡ Some file.now }
    ensures ok { IfOk result (AreForeignActs (rows_of (found_of options.now))) }
    ensures err { IfErr result (HasForeignMisfit (rows_of (found_of options.now))) }
{
    if has_run_option(options) {
        return Err(Misfit::RunOption);
    }
    let size = size_of(options)?;
    let nodes = some_nodes(given_number_of(options, "nodes"))?;
    Ok(ForeignActs { file, nodes, size })
}

// Whether the words give an option that only a run of the nodes has.
fn has_run_option(options: &ArgMatches<'_>) -> bool
    ensures { result ≡ has_run_option (rows_of (found_of options.now)) }
{
    is_any_given(options, RUN_OPTIONS.as_slice())
}
