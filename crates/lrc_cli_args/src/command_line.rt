// The words of the command line, read by clap.

ghost use Rattle.std.specs.Prelude.{◌≡◌, [], IfErr, IfOk, IsSomeAnd, Ok, OnOk, Err, Some, codes, map};
ghost use Rattle.std.specs.Int.{IsOutOfRange};
ghost use Rattle.clap.specs.Words.{fault_of, found_of, rows_of, subcommand_of, subcommand_rows_of};
ghost use Rattle.lrc_cli_words.specs.Commands.{treadmarks};
ghost use Rattle.lrc_cli_args.specs.CommandLine.{Chooses, HasMisfit, HasPlainMisfit, HasRequestMisfit, HasShowMisfit};
ghost use Rattle.lrc_cli_args.specs.CommandLine.{HasAnswerMisfit, HasTopicMisfit, IsAnswerTaken, IsRequest, IsRequestTaken};
ghost use Rattle.lrc_cli_args.specs.CommandLine.{IsAskTaken, IsChoice, IsFoundFault, IsShowTaken};
ghost use Rattle.lrc_cli_args.specs.CommandLine.{IsCommandTaken, fault_from, words_meant};
ghost use Rattle.lrc_cli_args.specs.Options.{IsPlainTaken};
ghost use Rattle.lrc_cli_args.specs.declared.choice.ChooseFault.TheVariants.{NoMemory};
ghost use Rattle.lrc_cli_args.specs.declared.misfit.Misfit.TheVariants.{Number};
ghost use Rattle.lrc_cli_args.specs.declared.misfit.Misfit.TheVariants as unfit;

use crate::chart::chart_choice;
use crate::choice::{Choice, ChooseFault, CommandName, PlainRun, Request, Shape, Topic};
use crate::explore::explore_choice;
use crate::judge::judge_choice;
use crate::misfit::{Misfit, fault_of_misfit};
use crate::races::races_request;
use crate::reading::{is_given, is_named, nodes_of, steps_of, text_of};
use crate::runs::{run_choice, showing_choice, step_choice, threads_run, trace_choice};
use crate::why::why_choice;
use clap::ArgMatches;
use clap::error::ErrorKind;
use lrc_cli_words::{command_line, is_command};
use std::alloc::{AllocError, Global};
use std::convert::AsStr;

// What the program does where it gets no words.
static NO_WORDS: [&str; 2] = ["sim", "-"];

/// Reads the words that follow the program's name, and returns the request. No words mean `sim -`. The errors are those
/// of [`ChooseFault`].
pub fn choose<'w, S: AsStr>(alloc: Global, words: &'w [S]) -> Result<Request<'w>, ChooseFault>
    ensures { Chooses (words_meant (map S.text words.entry.now)) result }
{
    if words.is_empty() {
        request_in(alloc, NO_WORDS.as_slice())
    } else {
        request_in(alloc, words)
    }
}

fn request_in<'w, S: AsStr>(alloc: Global, words: &'w [S]) -> Result<Request<'w>, ChooseFault>
    ensures { Chooses (map S.text words.entry.now) result }
{
    let matches = matches_of(alloc, words)?;
    request_from(&matches).map_err(|misfit| fault_of_misfit(alloc, misfit))
}

/// Returns what clap reads in the words, or clap's error.
pub(crate) fn matches_of<'w, S: AsStr>(
    alloc: Global,
    words: &'w [S],
) -> Result<ArgMatches<'w>, ChooseFault>
    ensures free { OnOk result (fault_of treadmarks (map S.text words.entry.now) ≡ []) }
    ensures rows { IfOk result (λ matches.
        subcommand_rows_of matches ≡ subcommand_of treadmarks (map S.text words.entry.now)) }
    ensures err { IfErr result (λ fault. IsFoundFault (map S.text words.entry.now) fault) }
{
    let command = command_line(alloc)?;
    Ok(command.try_get_matches_from(words)?)
}

fn request_from<'w>(matches: &ArgMatches<'w>) -> Result<Request<'w>, Misfit>
    requires { IsRequestTaken (subcommand_rows_of matches.now) }
    ensures ok { IfOk result (λ request. IsSomeAnd (subcommand_rows_of matches.now)
        (λ found. IsRequest found request)) }
    ensures err { IfErr result (λ misfit. IsSomeAnd (subcommand_rows_of matches.now)
        (λ found. HasRequestMisfit found misfit)) }
{
    if let Some(options) = matches.subcommand_matches("help") {
        return help_request(options);
    }
    if matches.subcommand_matches("version").is_some() {
        return Ok(Request::About(Topic::Version));
    }
    if let Some(options) = matches.subcommand_matches("races") {
        return races_request(options);
    }
    Ok(Request::Answer(answer_from(matches)?))
}

// What a command asks for that is answered to the texts in files.
fn answer_from<'w>(matches: &ArgMatches<'w>) -> Result<Choice<'w>, Misfit>
    requires { IsAnswerTaken (subcommand_rows_of matches.now) }
    ensures ok { IfOk result (λ choice. IsSomeAnd (subcommand_rows_of matches.now)
        (λ found. IsChoice found choice)) }
    ensures err { IfErr result (λ misfit. IsSomeAnd (subcommand_rows_of matches.now)
        (λ found. HasAnswerMisfit found misfit)) }
{
    if let Some(options) = matches.subcommand_matches("lint") {
        return Ok(Choice::Lint(text_of(options, "FILE")));
    }
    if let Some(options) = matches.subcommand_matches("why") {
        return why_choice(options);
    }
    choice_from(matches)
}

fn help_request<'w>(options: &ArgMatches<'w>) -> Result<Request<'w>, Misfit>
    ensures ok { IfOk result (IsRequest (codes "help", rows_of (found_of options.now))) }
    ensures err { IfErr result (HasTopicMisfit (codes "help", rows_of (found_of options.now))) }
{
    match options.get_str("COMMAND") {
        None => Ok(Request::About(Topic::Commands)),
        Some(name) if is_command(name) => {
            Ok(Request::About(Topic::Command(CommandName { name })))
        }
        Some(_) => Err(Misfit::Topic),
    }
}

fn choice_from<'w>(matches: &ArgMatches<'w>) -> Result<Choice<'w>, Misfit>
    requires { IsCommandTaken (subcommand_rows_of matches.now) }
    ensures ok { IfOk result (λ choice. IsSomeAnd (subcommand_rows_of matches.now)
        (λ found. IsChoice found choice)) }
    ensures err { IfErr result (λ misfit. IsSomeAnd (subcommand_rows_of matches.now)
        (λ found. HasMisfit found misfit)) }
{
    if let Some(options) = matches.subcommand_matches("check") {
        return Ok(Choice::Check(text_of(options, "FILE")));
    }
    if let Some(options) = matches.subcommand_matches("core") {
        return Ok(Choice::Core(text_of(options, "FILE")));
    }
    if let Some(options) = matches.subcommand_matches("plain") {
        return plain_choice(options);
    }
    if let Some(options) = matches.subcommand_matches("judge") {
        return judge_choice(options);
    }
    if let Some(options) = matches.subcommand_matches("explore") {
        return explore_choice(options);
    }
    shown_from(matches)
}

// What a command asks for that shows something of a run.
fn shown_from<'w>(matches: &ArgMatches<'w>) -> Result<Choice<'w>, Misfit>
    requires { IsSomeAnd (subcommand_rows_of matches.now) IsShowTaken }
    ensures ok { IfOk result (λ choice. IsSomeAnd (subcommand_rows_of matches.now)
        (λ found. IsChoice found choice)) }
    ensures err { IfErr result (λ misfit. IsSomeAnd (subcommand_rows_of matches.now)
        (λ found. HasShowMisfit found misfit)) }
{
    if let Some(options) = matches.subcommand_matches("sim") {
        return Ok(Choice::Show(run_choice(options, false)?, Shape::Report));
    }
    if let Some(options) = matches.subcommand_matches("run") {
        return Ok(Choice::Show(threads_run(options)?, Shape::Report));
    }
    asked_from(matches)
}

// What a command asks for that asks more of a run.
fn asked_from<'w>(matches: &ArgMatches<'w>) -> Result<Choice<'w>, Misfit>
    requires { IsSomeAnd (subcommand_rows_of matches.now) IsAskTaken }
    ensures ok { IfOk result (λ choice. IsSomeAnd (subcommand_rows_of matches.now)
        (λ found. IsChoice found choice)) }
    ensures err { IfErr result (λ misfit. IsSomeAnd (subcommand_rows_of matches.now)
        (λ found. HasShowMisfit found misfit)) }
{
    if let Some(options) = matches.subcommand_matches("trace") {
        return trace_choice(options);
    }
    if let Some(options) = matches.subcommand_matches("step") {
        return step_choice(options);
    }
    if let Some(options) = matches.subcommand_matches("chart") {
        return chart_choice(options);
    }
    if let Some(options) = matches.subcommand_matches("explain") {
        return showing_choice(options, Shape::Explain);
    }
    let options = matches.subcommand_matches("stats").unwrap();
    showing_choice(options, Shape::Stats)
}

fn plain_choice<'w>(options: &ArgMatches<'w>) -> Result<Choice<'w>, Misfit>
    requires { IsPlainTaken (rows_of (found_of options.now)) }
    ensures ok { IfOk result (IsChoice (codes "plain", rows_of (found_of options.now))) }
    ensures err { IfErr result (HasPlainMisfit (rows_of (found_of options.now))) }
{
    Ok(Choice::Plain(PlainRun {
        file: text_of(options, "FILE"),
        nodes: nodes_of(options)?,
        nodes_given: is_given(options, "nodes"),
        steps: steps_of(options)?,
    }))
}

impl From<AllocError> for ChooseFault {
    ghost from_gives = { λ _ fault. fault ≡ NoMemory };

    fn from(_error: AllocError) -> ChooseFault {
        ChooseFault::NoMemory
    }
}

impl From<clap::Error> for ChooseFault {
    ghost from_gives = { λ error fault. fault ≡ fault_from error };

    fn from(error: clap::Error) -> ChooseFault {
        match error.kind() {
            ErrorKind::OutOfMemory => ChooseFault::NoMemory,
            _ => ChooseFault::Usage(error),
        }
    }
}
