// Why words in which clap finds no fault are no choice.

ghost use Rattle.std.specs.Prelude.{◌≡◌, ◌≢◌, IfOk};
ghost use Rattle.clap.specs.Words.{kind_of};
ghost use Rattle.lrc_cli_args.specs.CommandLine.{IsMisfitFault, IsUsageKind};
ghost use Rattle.lrc_cli_args.specs.declared.misfit.Misfit.TheVariants.{Number};

use crate::choice::ChooseFault;
use clap::error::ErrorKind;
use lrc_cli_words::command_line;
use std::alloc::{AllocError, Global};

const BAD_ORDER: &str =
    "invalid value for '--order <ORDER>': it is oldest, newest, twice or random";

const BAD_RUN_ORDER: &str = "invalid value for '--order <ORDER>': it is oldest, newest or twice";

const BAD_PAGE: &str = "invalid value for '--page <WORDS>': it is 64 or 256";

const BAD_FORM: &str =
    "invalid value for '--as <FORM>': it is acts, bytes, events, json, rapid or states";

const IDLE_SEED: &str =
    "the argument '--seed <X>' cannot be used without '--order random' or '--then random'";

const BAD_THEN: &str = "invalid value for '--then <ORDER>': it is oldest, newest, twice or random";

const IDLE_THEN: &str =
    "the argument '--then <ORDER>' cannot be used without '--events <PATH>', nor with '--order <ORDER>' or '--threads'";

const BAD_THREADS: &str =
    "the argument '--threads' cannot be used with '--events <PATH>' or '--order random'";

const BAD_MESSAGES: &str =
    "the argument '--messages' cannot be used with a form other than '--as acts'";

const BAD_PART: &str =
    "the arguments '--from <P>' and '--to <Q>' cannot be used with a form other than '--as bytes' or '--as states'";

const BAD_MEMORY: &str = "invalid value for '--memory <MEMORY>': it is flat, lazy or exact";

const BAD_EXACT_MEMORY: &str = "invalid value for '--memory <MEMORY>': it is exact";

const BAD_EXACT_OPTION: &str =
    "the arguments '--page <WORDS>' and '--collect <N>' cannot be used without '--memory exact'";

const BAD_TRIES: &str =
    "the argument '--tries <T>' is of '--outcomes' with '--memory lazy' or '--memory exact' alone, and not of '--outcome <K>'";

const BAD_IGNORED_RACES: &str =
    "the argument '--ignore-races' cannot be used with '--outcomes', '--outcome <K>' or '--memory <MEMORY>'";

const BAD_ENDS: &str =
    "the argument '--ends' cannot be used with '--outcomes', '--outcome <K>' or '--memory <MEMORY>'";

const BAD_EXPLORE_FORM: &str = "invalid value for '--as <FORM>': it is events";

const BAD_EVENTS: &str =
    "the argument '--as events' cannot be used with '--outcomes' or '--memory exact' without '--outcome <K>', or with '--memory lazy'";

const BAD_TOLD_ORDER: &str = "invalid value for '--tell <ORDER>': it is stuck, trap or end";

const BAD_TELL: &str =
    "the argument '--tell <ORDER>' cannot be used without '--as events' or with '--outcome <K>', nor '--tell end' without '--ends'";

const BAD_TOPIC: &str = "invalid value for '[COMMAND]': it is none of the commands";

const BAD_HIDE: &str = "invalid value for '--hide <WHAT>': it is quiet";

const BAD_SOURCE: &str = "the argument '--source' cannot be used with '--text'";

const BAD_TRACE_FORM: &str = "invalid value for '--as <FORM>': it is std or acts";

const BAD_QUESTIONS: &str =
    "the arguments '--group', '--locations', '--score <REPORT>', '--why <I> <J>' and '--witness <I> <J>' cannot be used with one another";

const BAD_SCORE: &str =
    "the argument '--score <REPORT>' cannot be used with '--json', or where FILE and REPORT are '-'";

const BAD_REASONS: &str = "the argument '--why <I> <J>' cannot be used with '--sure' or '--json'";

const BAD_REASON_LINES: &str =
    "invalid value for '--why <I> <J>': they are the numbers of two lines, from 1 on, the lesser one first";

const BAD_WITNESS: &str =
    "the argument '--witness <I> <J>' cannot be used with '--sure' or '--json', or where FILE is '-'";

const BAD_WITNESS_LINES: &str =
    "invalid value for '--witness <I> <J>': they are the numbers of two lines, from 1 on, the lesser one first";

const SAME_ACT: &str = "the argument '--and <Q>' cannot be the act of '--act <P>'";

const BAD_SOURCES: &str = "the argument '[FILE]' cannot be used with '--acts <PATH>'";

const NO_SOURCE: &str = "one of '[FILE]' and '--acts <PATH>' has to be given";

const BAD_RUN_OPTION: &str =
    "with '--acts <PATH>' there are no options but '--act <P>', '--and <Q>', '--nodes <N>' and '--page <WORDS>'";

const BAD_CHART_OPTION: &str =
    "with '--acts <PATH>' there are no options but '--nodes <N>', '--text', '--from <P>', '--to <Q>' and '--hide <WHAT>'";

/// Why the options that clap read are not a choice.
#[derive(Clone, Copy)]
pub(crate) enum Misfit {
    /// The value of `--order` is not one of its words.
    Order,
    /// The value of `--order` in the command `run` is not one of its words.
    RunOrder,
    /// The value of `--page` is not one of its words.
    Page,
    /// The value of `--as` is not one of its words.
    Form,
    /// A seed is given, but the order is not random.
    Seed,
    /// The value of `--then` is not one of its words.
    Then,
    /// The run is to go on behind events, but none are given, or an order or threads are asked for too.
    Followed,
    /// Threads are asked for together with given events or a random order.
    Threads,
    /// Messages are asked for together with a form other than that of acts.
    Messages,
    /// A part of the run is asked for together with a form other than those of bytes and states.
    Part,
    /// The value of `--memory` is not one of its words.
    Memory,
    /// The value of `--memory` in the command `judge` is not its word.
    ExactMemory,
    /// An option of the exact memory is given without it.
    ExactOption,
    /// Runs in random orders are asked for without the list of lazy outcomes.
    Tries,
    /// Races are to be ignored, but outcomes are asked for or a memory is named.
    IgnoredRaces,
    /// It is asked whether every order can end, but outcomes are asked for or a memory is named.
    Ends,
    /// The value of `--as` in the command `explore` is not its word.
    ExploreForm,
    /// Events are asked for together with the list of outcomes or with another memory than the flat one.
    Events,
    /// The value of `--tell` is not one of its words.
    ToldOrder,
    /// An order is named whose events are to be shown, but no events are asked for, or those of an outcome, or no ends are
    /// asked for and the order is that of the ends.
    Tell,
    /// Help is asked for on a word that is not a command.
    Topic,
    /// The value of `--as` in the command `races` is not one of its words.
    TraceForm,
    /// More than one thing is asked of a trace.
    Questions,
    /// A report is to be judged, but objects are asked for, or both the trace and the report are standard input.
    Score,
    /// It is asked how two events are ordered, but sure races or objects are asked for too.
    Reasons,
    /// The values of `--why` are not the numbers of two lines, the lesser one first.
    ReasonLines,
    /// A sure race is to be shown, but sure races or objects are asked for, or the trace is standard input.
    Witness,
    /// The values of `--witness` are not the numbers of two lines, the lesser one first.
    WitnessLines,
    /// The value of `--hide` is not one of its words.
    Hide,
    /// The program's text is asked for together with a chart for a terminal.
    TextSource,
    /// The question is how an act is ordered with itself.
    SameAct,
    /// Both a FILE and a file of acts are given.
    Sources,
    /// Neither a FILE nor a file of acts is given.
    NoSource,
    /// The acts come from a file of acts, but an option of runs is given.
    RunOption,
    /// A chart shows acts from a file of acts, but an option for charts of runs is given.
    ChartRunOption,
    /// A number is outside its option's range.
    Number,
}

/// Returns the fault for a misfit.
pub(crate) fn fault_of_misfit(alloc: Global, misfit: Misfit) -> ChooseFault
    ensures { IsMisfitFault misfit result }
{
    match misfit {
        Misfit::Number => ChooseFault::BadNumber,
        _ => usage_fault(alloc, misfit),
    }
}

fn usage_fault(alloc: Global, misfit: Misfit) -> ChooseFault
    requires { misfit ≢ Number }
    ensures { IsMisfitFault misfit result }
{
    match usage_error(alloc, misfit) {
        Ok(error) => ChooseFault::Usage(error),
        Err(_error) => ChooseFault::NoMemory,
    }
}

fn usage_error(alloc: Global, misfit: Misfit) -> Result<clap::Error, AllocError>
    requires { misfit ≢ Number }
    ensures { IfOk result (λ error. IsUsageKind misfit (kind_of error)) }
{
    let mut command = command_line(alloc)?;
    command.error(usage_kind(misfit), message_of(misfit))
}

fn usage_kind(misfit: Misfit) -> ErrorKind
    requires { misfit ≢ Number }
    ensures { IsUsageKind misfit result }
{
    match misfit {
        Misfit::Seed
        | Misfit::Followed
        | Misfit::Threads
        | Misfit::Messages
        | Misfit::Part
        | Misfit::ExactOption
        | Misfit::Tries
        | Misfit::IgnoredRaces
        | Misfit::Ends
        | Misfit::Events
        | Misfit::Tell
        | Misfit::Questions
        | Misfit::Score
        | Misfit::Reasons
        | Misfit::Witness
        | Misfit::TextSource
        | Misfit::SameAct
        | Misfit::Sources
        | Misfit::RunOption
        | Misfit::ChartRunOption => ErrorKind::ArgumentConflict,
        Misfit::Topic => ErrorKind::InvalidSubcommand,
        Misfit::NoSource => ErrorKind::MissingRequiredArgument,
        _ => ErrorKind::InvalidValue,
    }
}

fn message_of(misfit: Misfit) -> &'static str {
    match misfit {
        Misfit::Order => BAD_ORDER,
        Misfit::RunOrder => BAD_RUN_ORDER,
        Misfit::Page => BAD_PAGE,
        Misfit::Form => BAD_FORM,
        Misfit::Seed => IDLE_SEED,
        Misfit::Then => BAD_THEN,
        Misfit::Followed => IDLE_THEN,
        Misfit::Threads => BAD_THREADS,
        Misfit::Messages => BAD_MESSAGES,
        Misfit::Part => BAD_PART,
        Misfit::Memory => BAD_MEMORY,
        Misfit::ExactMemory => BAD_EXACT_MEMORY,
        Misfit::ExactOption => BAD_EXACT_OPTION,
        Misfit::Tries => BAD_TRIES,
        Misfit::IgnoredRaces => BAD_IGNORED_RACES,
        Misfit::Ends => BAD_ENDS,
        Misfit::ExploreForm => BAD_EXPLORE_FORM,
        Misfit::Events => BAD_EVENTS,
        Misfit::ToldOrder => BAD_TOLD_ORDER,
        Misfit::Tell => BAD_TELL,
        Misfit::Topic => BAD_TOPIC,
        Misfit::TraceForm => BAD_TRACE_FORM,
        Misfit::Questions => BAD_QUESTIONS,
        Misfit::Score => BAD_SCORE,
        Misfit::Reasons => BAD_REASONS,
        Misfit::ReasonLines => BAD_REASON_LINES,
        Misfit::Witness => BAD_WITNESS,
        Misfit::WitnessLines => BAD_WITNESS_LINES,
        Misfit::Hide => BAD_HIDE,
        Misfit::TextSource => BAD_SOURCE,
        Misfit::SameAct => SAME_ACT,
        Misfit::Sources => BAD_SOURCES,
        Misfit::NoSource => NO_SOURCE,
        Misfit::RunOption => BAD_RUN_OPTION,
        Misfit::ChartRunOption => BAD_CHART_OPTION,
        Misfit::Number => "number out of range",
    }
}
