// The commands and their options, as clap is told of them.

ghost use Rattle.std.specs.Prelude.{◌≡◌, [], IfOk, false};
ghost use Rattle.clap.specs.Words.{App, Rule, app_of, rule_of, with_rule, with_subcommand};
ghost use Rattle.clap.specs.declared.builder.command.Command.TheViews.{out-Command as fields_of};
ghost use Rattle.lrc_cli_words.specs.Commands.{act, bare_number, chart_command, check_command, collect, core_command, explain_command, explore_command, file, flag_option, form, help_command, judge_command, line_pair, lint_command, memory, most, nodes, number_option, option, order};
ghost use Rattle.lrc_cli_words.specs.Commands.{optional_file, page, plain_command, races_command, run_command, sim_command, stats_command, step_command, steps, trace_command, trace_form, treadmarks, treadmarks_shape, version_command, why_command};
ghost use Rattle.lrc_cli_words.specs.Commands.{is_command, with_counts, with_hints, with_part, with_ways};
ghost use Rattle.lrc_cli_words.specs.Commands.{with_questions, with_reports, with_run_options, with_showing_options, with_topics, with_way_options};

use clap::{Arg, ArgAction, Command, value_parser};
use std::alloc::{AllocError, Global};

const FILE_HELP: &str = "The program's text; `-` is standard input";

const ACTS_FILE_HELP: &str = "The text of acts; `-` is standard input";

const NODES_HELP: &str =
    "How many nodes run the program: 1 to 16. For a named program its `nodes N;` is the default";

const STEPS_HELP: &str = "How many statements each node may begin: 1 to 1000000";

const COLLECT_HELP: &str =
    "From how many stored intervals on a node asks for a collection: 0 to 1000000, 0 for never";

const RUN_ORDER_HELP: &str =
    "Which message is delivered next: oldest, newest or twice (the oldest, and each two times)";

const ORDER_HELP: &str =
    "Which message is delivered next: oldest, newest or twice (the oldest, and each two times); random: any event is next";

const PAGE_HELP: &str = "How many words a page has: 64 or 256";

const EVENTS_HELP: &str =
    "A file of events to play, `run N`, `deliver I` or `repeat I` on each line; without it all nodes run in turn";

const THEN_HELP: &str =
    "With `--events`: in which order the run goes on behind them: oldest, newest, twice or random, as `--order` has them. Left out, it ends there";

const SEED_HELP: &str =
    "With `--order random` or `--then random`: from which number it starts. Left out it is 0";

const THREADS_HELP: &str =
    "Runs each node on a thread of its own; not with events or a random order";

const FORM_HELP: &str =
    "How the acts are shown: acts, events (as `--events` reads them), json, rapid (for race detectors), bytes (the turns, with the bytes of their messages), or states (the turns, with the states of the nodes)";

const MESSAGES_HELP: &str = "With the acts: the messages that are taken and sent between them";

const TEXT_HELP: &str = "Draws for a terminal of 100 columns, in place of an SVG document";

const FROM_HELP: &str =
    "The position of the first act that is shown, counted from 0. Left out, the run is shown from its beginning";

const TO_HELP: &str =
    "The position of the last act that is shown. Left out, the run is shown to its end";

const STATES_FROM_HELP: &str =
    "With the bytes or the states: the position of the act of the first turn that is shown, counted from 0. Left out, the run is shown from its beginning";

const STATES_TO_HELP: &str =
    "With the bytes or the states: the position of the act of the last turn that is shown. Left out, the run is shown to its end";

const STEP_FROM_HELP: &str =
    "The position of the act of the first turn that is shown, counted from 0. Left out, the run is shown from its beginning";

const STEP_TO_HELP: &str =
    "The position of the act of the last turn that is shown. Left out, the run is shown to its end";

const HIDE_HELP: &str =
    "Leaves out rows: quiet leaves out those that have nothing but an assignment or a condition";

const SOURCE_HELP: &str =
    "Shows the program's text beside the picture, with the lines marked that are of acts shown; not with `--text`";

const ACTS_NODES_HELP: &str =
    "How many nodes there are: 1 to 16. Left out it is one more than the greatest that acts";

const PAIRS_HELP: &str = "Names every pair of acts that race, in place of the races";

const ALL_HELP: &str =
    "Where reads are not allowed, or not in order, names each of them, in place of the first";

const EXACT_HELP: &str =
    "exact: also says whether each read gives what the exact memory has, with the pages of `--page` and the collections of `--collect`, which go with it alone";

const MOST_HELP: &str = "How many states the search may meet: 1 to 100000000";

const OUTCOMES_HELP: &str = "Shows every outcome of the runs, and looks for no race";

const IGNORE_RACES_HELP: &str =
    "Looks for no race, and tells of any program whether an order gets stuck and whether a node traps in one";

const ENDS_HELP: &str =
    "Tells too whether every order can end, so that no node waits for what can no longer come";

const EXPLORE_FORM_HELP: &str =
    "events: in place of all lines, prints the events by which `sim --events` makes a run that follows the order told, the first if several are. Not with the list of outcomes, or `--memory lazy`; with `--memory exact` only of `--outcome`";

const TELL_HELP: &str =
    "With `--as events`: which order they are of: stuck, trap, or end, which goes with `--ends`; not with `--outcome`. Left out, the first that is told";

const OUTCOME_HELP: &str =
    "Shows the acts of a run that has the outcome of this number in the list of `--outcomes`, counted from 1, in place of the list";

const MEMORY_HELP: &str =
    "Whose runs there are: flat (every order over one flat memory), lazy (every run of any memory that keeps lazy reading), or exact (the runs of this memory, with the pages of `--page` and the collections of `--collect`, which go with it alone). Races are the same by all";

const TRIES_HELP: &str =
    "With the outcomes of the lazy or the exact memory: plays so many runs at random, of the seeds 0, 1, .., and names the least seed whose run has an outcome: 1 to 1000000";

const ACTS_HELP: &str =
    "A file of acts, in place of FILE; `-` is standard input. It goes with `--nodes` and `--page` alone, and `--nodes` left out is one more than the greatest that acts";

const CHART_ACTS_HELP: &str =
    "A file of acts, in place of FILE; `-` is standard input. It goes with `--nodes`, `--text`, `--from`, `--to` and `--hide` alone, and `--nodes` left out is one more than the greatest that acts";

const ACT_HELP: &str = "The position of the act, counted from 0";

const AND_HELP: &str = "That of another act: says how the two are ordered";

const TRACE_HELP: &str =
    "The trace; `-` is standard input, and its races are told as its lines come";

const TRACE_FORM_HELP: &str =
    "The form of the trace: std (an event `THREAD|OP(TARGET)|LOCATION` on each line) or acts (as `judge` reads it)";

const GROUP_HELP: &str =
    "Tells the races by their locations, with how often each was told, when the trace has ended";

const LOCATIONS_HELP: &str =
    "Tells each pair of locations that race once, when the trace has ended";

const SURE_HELP: &str =
    "Tells only the sure races: those of which another trace of the same program shows the two accesses side by side";

const JSON_HELP: &str = "Prints each line as a JSON object";

const STRICT_HELP: &str = "Takes the first event that no program would give for a fault";

const SCORE_HELP: &str =
    "Says of each claim of a detector's report, a file or `-`, whether it is true, and what the report missed; not with `--json`, or where FILE is `-` too";

const REASONS_HELP: &str =
    "Says step by step how the events at lines I and J are ordered, or that they race. I is less than J; not with `--sure` or `--json`";

// What the help of `races` says of traces.
const TRACE_NOTES: &str = "Operations:
  r(X), w(X)             read or write the variable X
  acq(L), rel(L)         acquire or release the lock L
  post(L), wait(L)       order as rel and acq of L do, and hold nothing
  fork(T), join(T)       start the thread T, or wait for its end
  arrive(B), depart(B)   come to the barrier B, or leave it
  begin, end, enter, exit, req, branch
                         do nothing

What orders, of two events the earlier before the later:
  both are of one thread
  a rel or post, and an acq or wait of the same lock
  a fork of the later one's thread; a join of the earlier one's thread; a fork and a join of one thread
  an arrive and a depart in one cycle of a barrier: the first depart closes the cycle
  and what follows from these step by step

Claims of a report, one on each line; status 3 where one is false, else 4 where something is missed:
  event J                the access at line J races with an earlier one
  pair I J               the accesses at lines I and J race
  locations A|B          some two accesses race, one at the location A and the other at B
  variable V             some two accesses of V race
  first V J              line J is the first access of V that races with an earlier one

Of `--group`, `--locations`, `--score`, `--why` and `--witness` one can be given";

const WITNESS_HELP: &str =
    "Shows by which events the accesses at lines I and J were reached, if they are a sure race; else says why, with status 4. I is less than J; not with `--sure` or `--json`, or where FILE is `-`";

// The two lines that `--why` and `--witness` take.
static LINE_PAIR: [&str; 2] = ["I", "J"];

const COMMAND_HELP: &str = "The command. Left out, the commands are listed";

// The version of the program. The message bytes have versions of their own.
const VERSION: &str = "0.1.0";

// What the help says of the exit status, and of the one line that cannot say which option it means.
const STATUSES: &str = "Exit status:
  0  all nodes ended, and no race was found (check, core, lint: the text is a program; chart: the run was drawn; judge, explore:
     nothing was found; races: no race was told; why, help, version: always)
  1  a fault of the text, a file, the events, memory or the output (check, core, lint: the text is no program)
  2  a fault of the words, or `--help` or `--version`. `number out of range` says that a number is not in the range that the help of
     its command gives
  3  a race was found (races --score: a claim is false)
  4  no race, and a node trapped or is unfinished (judge: the acts are of no run; explore: some order gets stuck or traps,
     or can no longer end; races --witness: it is no sure race; races --score: no claim is false, and something is missed)";

// The names of the commands.
static COMMANDS: [&str; 17] = [
    "check", "core", "plain", "sim", "run", "trace", "step", "explain", "stats", "chart", "judge",
    "explore", "why", "lint", "races", "help", "version",
];

/// Returns whether a command has this name.
pub fn is_command(word: &str) -> bool
    ensures { result ≡ is_command word.now }
{
    COMMANDS.contains(&word)
}

/// Returns the command line of the program, as clap takes it.
pub fn command_line<'w>(alloc: Global) -> Result<Command<'w>, AllocError>
    ensures { IfOk result (λ command. app_of command ≡ treadmarks) }
{
    let command = taking_reports(alloc, bare_command_line(alloc)?)?;
    let command = taking_questions(alloc, command)?;
    taking_topics(alloc, taking_hints(alloc, command)?)
}

// The command line without its commands.
fn bare_command_line<'w>(alloc: Global) -> Result<Command<'w>, AllocError>
    ensures { IfOk result (λ command. app_of command
        ≡ record { top = treadmarks_shape; subs = [] }) }
{
    Command::new(alloc, "treadmarks")
        .about("Runs programs on lazy-release-consistent shared memory. With no words: `sim -`")
        .after_help(STATUSES)
        .version(VERSION)
        .no_binary_name(true)
        .subcommand_required(true)
        .disable_help_subcommand(true)
        .bin_name("treadmarks")
}

// Adds the commands that check, and that report of a run.
fn taking_reports<'w>(alloc: Global, command: Command<'w>) -> Result<Command<'w>, AllocError>
    ensures { IfOk result (λ given. app_of given ≡ with_reports (app_of command.entry)) }
{
    let command = having(Ok(command), check_command(alloc));
    let command = having(command, core_command(alloc));
    let command = having(command, plain_command(alloc));
    let command = having(command, sim_command(alloc));
    having(command, run_command(alloc))
}

// Adds those that ask more of a run, of acts or of a program.
fn taking_questions<'w>(alloc: Global, command: Command<'w>) -> Result<Command<'w>, AllocError>
    ensures { IfOk result (λ given. app_of given ≡ with_questions (app_of command.entry)) }
{
    let command = having(Ok(command), trace_command(alloc));
    let command = having(command, step_command(alloc));
    let command = having(command, explain_command(alloc));
    let command = having(command, stats_command(alloc));
    let command = having(command, chart_command(alloc));
    let command = having(command, judge_command(alloc));
    having(command, explore_command(alloc))
}

// Adds those that say why acts are as they are, and what is wrong with texts and traces.
fn taking_hints<'w>(alloc: Global, command: Command<'w>) -> Result<Command<'w>, AllocError>
    ensures { IfOk result (λ given. app_of given ≡ with_hints (app_of command.entry)) }
{
    let command = having(Ok(command), why_command(alloc));
    let command = having(command, lint_command(alloc));
    having(command, races_command(alloc))
}

// Adds those that say something of the program.
fn taking_topics<'w>(alloc: Global, command: Command<'w>) -> Result<Command<'w>, AllocError>
    ensures { IfOk result (λ given. app_of given ≡ with_topics (app_of command.entry)) }
{
    let command = having(Ok(command), help_command(alloc));
    having(command, Ok(version_command(alloc)))
}

// The command with another one below it, where memory lasted for both.
fn having<'w>(
    command: Result<Command<'w>, AllocError>,
    below: Result<Command<'w>, AllocError>,
) -> Result<Command<'w>, AllocError>
    ensures { (app sub : App) → IfOk command.entry (λ command. app_of command ≡ app)
        → IfOk below.entry (λ below. app_of below ≡ sub)
        → IfOk below.entry (λ below. (fields_of below).has_globals ≡ false)
        → IfOk result (λ given. app_of given ≡ with_subcommand app sub.top) }
{
    match below {
        Ok(below) => command?.subcommand(below),
        Err(error) => Err(error),
    }
}

// The command with one argument more, where memory lasted for it.
fn taking<'w>(
    command: Result<Command<'w>, AllocError>,
    arg: Arg<'w>,
) -> Result<Command<'w>, AllocError>
    ensures app { (app : App) (rule : Rule) → arg.entry.global ≡ false → rule_of arg.entry ≡ rule
        → IfOk command.entry (λ command. app_of command ≡ app)
        → IfOk result (λ given. app_of given ≡ with_rule app rule) }
    ensures local { arg.entry.global ≡ false
        → IfOk command.entry (λ command. (fields_of command).has_globals ≡ false)
        → IfOk result (λ given. (fields_of given).has_globals ≡ false) }
{
    match command {
        Ok(command) => command.arg(arg),
        Err(error) => Err(error),
    }
}

fn check_command<'w>(alloc: Global) -> Result<Command<'w>, AllocError>
    ensures app { IfOk result (λ command. app_of command ≡ check_command) }
    ensures local { IfOk result (λ command. (fields_of command).has_globals ≡ false) }
{
    Command::new(alloc, "check")
        .about("Prints `ok` if the text of FILE is a program")
        .arg(file(alloc, FILE_HELP))
}

fn core_command<'w>(alloc: Global) -> Result<Command<'w>, AllocError>
    ensures app { IfOk result (λ command. app_of command ≡ core_command) }
    ensures local { IfOk result (λ command. (fields_of command).has_globals ≡ false) }
{
    Command::new(alloc, "core")
        .about(
            "Prints the core of the program of FILE: what it stands for, with numbered words and locks in place of names",
        )
        .arg(file(alloc, FILE_HELP))
}

fn plain_command<'w>(alloc: Global) -> Result<Command<'w>, AllocError>
    ensures app { IfOk result (λ command. app_of command ≡ plain_command) }
    ensures local { IfOk result (λ command. (fields_of command).has_globals ≡ false) }
{
    let command = Command::new(alloc, "plain").about(
        "Runs the program of FILE over one flat memory, each node in turn, and looks for no race",
    );
    let command = taking(Ok(command), file(alloc, FILE_HELP));
    let command = taking(command, nodes(alloc));
    taking(command, steps(alloc))
}

fn sim_command<'w>(alloc: Global) -> Result<Command<'w>, AllocError>
    ensures app { IfOk result (λ command. app_of command ≡ sim_command) }
    ensures local { IfOk result (λ command. (fields_of command).has_globals ≡ false) }
{
    let command = Command::new(alloc, "sim").about(
        "Runs the program of FILE, one event after the other",
    );
    taking_way_options(alloc, command)
}

fn run_command<'w>(alloc: Global) -> Result<Command<'w>, AllocError>
    ensures app { IfOk result (λ command. app_of command ≡ run_command) }
    ensures local { IfOk result (λ command. (fields_of command).has_globals ≡ false) }
{
    let command = Command::new(alloc, "run").about(
        "Runs the program of FILE, each node on a thread of its own",
    );
    taking_run_options(alloc, command, RUN_ORDER_HELP)
}

fn trace_command<'w>(alloc: Global) -> Result<Command<'w>, AllocError>
    ensures app { IfOk result (λ command. app_of command ≡ trace_command) }
    ensures local { IfOk result (λ command. (fields_of command).has_globals ≡ false) }
{
    let command = Command::new(alloc, "trace").about(
        "Shows the acts of a run, one on each line, or its turns with the bytes of their messages or the states of the nodes",
    );
    let command = taking_showing_options(alloc, command);
    let command = taking(command, form(alloc));
    let command = taking(command, flag_option(alloc, "messages", MESSAGES_HELP));
    taking_part(alloc, command, STATES_FROM_HELP, STATES_TO_HELP)
}

fn step_command<'w>(alloc: Global) -> Result<Command<'w>, AllocError>
    ensures app { IfOk result (λ command. app_of command ≡ step_command) }
    ensures local { IfOk result (λ command. (fields_of command).has_globals ≡ false) }
{
    let command = Command::new(alloc, "step").about(
        "Shows a run turn by turn, with the state of each node, as a page for a browser, an HTML document",
    );
    let command = taking_showing_options(alloc, command);
    taking_part(alloc, command, STEP_FROM_HELP, STEP_TO_HELP)
}

fn explain_command<'w>(alloc: Global) -> Result<Command<'w>, AllocError>
    ensures app { IfOk result (λ command. app_of command ≡ explain_command) }
    ensures local { IfOk result (λ command. (fields_of command).has_globals ≡ false) }
{
    let command = Command::new(alloc, "explain").about(
        "Says of a run why nodes trapped or are unfinished, and which lines race",
    );
    taking_showing_options(alloc, command)
}

fn stats_command<'w>(alloc: Global) -> Result<Command<'w>, AllocError>
    ensures app { IfOk result (λ command. app_of command ≡ stats_command) }
    ensures local { IfOk result (λ command. (fields_of command).has_globals ≡ false) }
{
    let command = Command::new(alloc, "stats").about(
        "Counts the events, acts and messages of a run",
    );
    taking_showing_options(alloc, command)
}

fn chart_command<'w>(alloc: Global) -> Result<Command<'w>, AllocError>
    ensures app { IfOk result (λ command. app_of command ≡ chart_command) }
    ensures local { IfOk result (λ command. (fields_of command).has_globals ≡ false) }
{
    let command = Command::new(alloc, "chart").about(
        "Draws a run, or acts from anywhere, as a picture, an SVG document",
    );
    let command = taking(Ok(command), optional_file(alloc));
    let command = taking_ways(alloc, taking_counts(alloc, command, ORDER_HELP));
    let command = taking(command, flag_option(alloc, "threads", THREADS_HELP));
    let command = taking(command, text(alloc, "acts", "PATH", CHART_ACTS_HELP));
    let command = taking(command, flag_option(alloc, "text", TEXT_HELP));
    let command = taking_part(alloc, command, FROM_HELP, TO_HELP);
    let command = taking(command, text(alloc, "hide", "WHAT", HIDE_HELP));
    taking(command, flag_option(alloc, "source", SOURCE_HELP))
}

fn judge_command<'w>(alloc: Global) -> Result<Command<'w>, AllocError>
    ensures app { IfOk result (λ command. app_of command ≡ judge_command) }
    ensures local { IfOk result (λ command. (fields_of command).has_globals ≡ false) }
{
    let command = Command::new(alloc, "judge").about(
        "Says whether the acts of FILE, in the form of `trace`, are a run of this memory, and which race",
    );
    let command = taking(Ok(command), file(alloc, ACTS_FILE_HELP));
    let command = taking(command, bare_number(alloc, "nodes", "N", ACTS_NODES_HELP));
    let command = taking(command, flag_option(alloc, "pairs", PAIRS_HELP));
    let command = taking(command, flag_option(alloc, "all", ALL_HELP));
    let command = taking(command, text(alloc, "memory", "MEMORY", EXACT_HELP));
    let command = taking(command, page(alloc));
    taking(command, collect(alloc))
}

fn explore_command<'w>(alloc: Global) -> Result<Command<'w>, AllocError>
    ensures app { IfOk result (λ command. app_of command ≡ explore_command) }
    ensures local { IfOk result (λ command. (fields_of command).has_globals ≡ false) }
{
    let command = Command::new(alloc, "explore").about(
        "Looks at every order in which the nodes may make their acts, for a race, for nodes that get stuck and for traps",
    );
    let command = taking(Ok(command), file(alloc, FILE_HELP));
    let command = taking(command, nodes(alloc));
    let command = taking(command, number_option(alloc, "most", "1000000", MOST_HELP));
    let command = taking(command, memory(alloc));
    let command = taking(command, flag_option(alloc, "outcomes", OUTCOMES_HELP));
    let command = taking(command, bare_number(alloc, "outcome", "K", OUTCOME_HELP));
    let command = taking(command, bare_number(alloc, "tries", "T", TRIES_HELP));
    let command = taking(
        command,
        flag_option(alloc, "ignore-races", IGNORE_RACES_HELP),
    );
    let command = taking(command, flag_option(alloc, "ends", ENDS_HELP));
    let command = taking(command, text(alloc, "as", "FORM", EXPLORE_FORM_HELP));
    let command = taking(command, text(alloc, "tell", "ORDER", TELL_HELP));
    let command = taking(command, page(alloc));
    taking(command, collect(alloc))
}

fn why_command<'w>(alloc: Global) -> Result<Command<'w>, AllocError>
    ensures app { IfOk result (λ command. app_of command ≡ why_command) }
    ensures local { IfOk result (λ command. (fields_of command).has_globals ≡ false) }
{
    let command = Command::new(alloc, "why").about(
        "Says why an act of a run, or of acts from anywhere, is as it is, or how two acts are ordered",
    );
    let command = taking(Ok(command), optional_file(alloc));
    let command = taking_ways(alloc, taking_counts(alloc, command, ORDER_HELP));
    let command = taking(command, text(alloc, "acts", "PATH", ACTS_HELP));
    let command = taking(command, act(alloc));
    taking(command, bare_number(alloc, "and", "Q", AND_HELP))
}

fn lint_command<'w>(alloc: Global) -> Result<Command<'w>, AllocError>
    ensures app { IfOk result (λ command. app_of command ≡ lint_command) }
    ensures local { IfOk result (λ command. (fields_of command).has_globals ≡ false) }
{
    Command::new(alloc, "lint")
        .about("Says what is wrong with the text of FILE, or warns of what is likely to be")
        .arg(file(alloc, FILE_HELP))
}

fn races_command<'w>(alloc: Global) -> Result<Command<'w>, AllocError>
    ensures app { IfOk result (λ command. app_of command ≡ races_command) }
    ensures local { IfOk result (λ command. (fields_of command).has_globals ≡ false) }
{
    let command = Command::new(alloc, "races")
        .about(
            "Finds the races in a trace of any length and of any number of threads, as it is read",
        )
        .after_help(TRACE_NOTES);
    let command = taking(Ok(command), file(alloc, TRACE_HELP));
    let command = taking(command, trace_form(alloc));
    let command = taking(command, flag_option(alloc, "group", GROUP_HELP));
    let command = taking(command, flag_option(alloc, "locations", LOCATIONS_HELP));
    let command = taking(command, flag_option(alloc, "sure", SURE_HELP));
    let command = taking(command, flag_option(alloc, "json", JSON_HELP));
    let command = taking(command, flag_option(alloc, "strict", STRICT_HELP));
    let command = taking(command, text(alloc, "score", "REPORT", SCORE_HELP));
    let command = taking(command, line_pair(alloc, "why", REASONS_HELP));
    taking(command, line_pair(alloc, "witness", WITNESS_HELP))
}

fn help_command<'w>(alloc: Global) -> Result<Command<'w>, AllocError>
    ensures app { IfOk result (λ command. app_of command ≡ help_command) }
    ensures local { IfOk result (λ command. (fields_of command).has_globals ≡ false) }
{
    Command::new(alloc, "help")
        .about("Prints the help of a command, or this page")
        .arg(Arg::new(alloc, "COMMAND").help(COMMAND_HELP))
}

fn version_command<'w>(alloc: Global) -> Command<'w>
    ensures app { app_of result ≡ version_command }
    ensures local { (fields_of result).has_globals ≡ false }
{
    Command::new(alloc, "version").about("Prints the version of the program")
}

// Adds what the commands have in common that show something of a run in any way.
fn taking_showing_options<'w>(
    alloc: Global,
    command: Command<'w>,
) -> Result<Command<'w>, AllocError>
    requires { (fields_of command).has_globals ≡ false }
    ensures app { IfOk result (λ given. app_of given
        ≡ with_showing_options (app_of command.entry)) }
    ensures local { IfOk result (λ given. (fields_of given).has_globals ≡ false) }
{
    let command = taking_way_options(alloc, command);
    taking(command, flag_option(alloc, "threads", THREADS_HELP))
}

// Adds what they have in common with `sim`.
fn taking_way_options<'w>(alloc: Global, command: Command<'w>) -> Result<Command<'w>, AllocError>
    requires { (fields_of command).has_globals ≡ false }
    ensures app { IfOk result (λ given. app_of given ≡ with_way_options (app_of command.entry)) }
    ensures local { IfOk result (λ given. (fields_of given).has_globals ≡ false) }
{
    taking_ways(alloc, taking_run_options(alloc, command, ORDER_HELP))
}

// Adds what says how a run goes on.
fn taking_ways<'w>(
    alloc: Global,
    command: Result<Command<'w>, AllocError>,
) -> Result<Command<'w>, AllocError>
    ensures app { (app : App) → IfOk command.entry (λ command. app_of command ≡ app)
        → IfOk result (λ given. app_of given ≡ with_ways app) }
    ensures local { IfOk command.entry (λ command. (fields_of command).has_globals ≡ false)
        → IfOk result (λ given. (fields_of given).has_globals ≡ false) }
{
    let command = taking(command, text(alloc, "events", "PATH", EVENTS_HELP));
    let command = taking(command, text(alloc, "then", "ORDER", THEN_HELP));
    taking(command, bare_number(alloc, "seed", "X", SEED_HELP))
}

// Adds what says which part of a run is shown.
fn taking_part<'w>(
    alloc: Global,
    command: Result<Command<'w>, AllocError>,
    from: &'w str,
    to: &'w str,
) -> Result<Command<'w>, AllocError>
    ensures app { (app : App) → IfOk command.entry (λ command. app_of command ≡ app)
        → IfOk result (λ given. app_of given ≡ with_part app) }
    ensures local { IfOk command.entry (λ command. (fields_of command).has_globals ≡ false)
        → IfOk result (λ given. (fields_of given).has_globals ≡ false) }
{
    let command = taking(command, bare_number(alloc, "from", "P", from));
    taking(command, bare_number(alloc, "to", "Q", to))
}

// Adds what they have in common with `run`, whose orders are others.
fn taking_run_options<'w>(
    alloc: Global,
    command: Command<'w>,
    orders: &'w str,
) -> Result<Command<'w>, AllocError>
    requires { (fields_of command).has_globals ≡ false }
    ensures app { IfOk result (λ given. app_of given ≡ with_run_options (app_of command.entry)) }
    ensures local { IfOk result (λ given. (fields_of given).has_globals ≡ false) }
{
    taking_counts(alloc, taking(Ok(command), file(alloc, FILE_HELP)), orders)
}

// Adds the options that all runs of the nodes have in common.
fn taking_counts<'w>(
    alloc: Global,
    command: Result<Command<'w>, AllocError>,
    orders: &'w str,
) -> Result<Command<'w>, AllocError>
    ensures app { (app : App) → IfOk command.entry (λ command. app_of command ≡ app)
        → IfOk result (λ given. app_of given ≡ with_counts app) }
    ensures local { IfOk command.entry (λ command. (fields_of command).has_globals ≡ false)
        → IfOk result (λ given. (fields_of given).has_globals ≡ false) }
{
    let command = taking(command, nodes(alloc));
    let command = taking(command, steps(alloc));
    let command = taking(command, collect(alloc));
    let command = taking(command, order(alloc, orders));
    taking(command, page(alloc))
}

fn file<'w>(alloc: Global, help: &'w str) -> Arg<'w>
    ensures rule { rule_of result ≡ file }
    ensures local { result.global ≡ false }
{
    Arg::new(alloc, "FILE").required(true).help(help)
}

fn text<'w>(alloc: Global, name: &'w str, value: &'w str, help: &'w str) -> Arg<'w>
    ensures rule { rule_of result ≡ option name.entry.now }
    ensures local { result.global ≡ false }
{
    Arg::new(alloc, name)
        .long(name)
        .value_name(value)
        .help(help)
}

// An option that takes two lines of a trace.
fn line_pair<'w>(alloc: Global, name: &'w str, help: &'w str) -> Arg<'w>
    ensures rule { rule_of result ≡ line_pair name.entry.now }
    ensures local { result.global ≡ false }
{
    Arg::new(alloc, name)
        .long(name)
        .value_names(&LINE_PAIR)
        .help(help)
}

fn nodes<'w>(alloc: Global) -> Arg<'w>
    ensures rule { rule_of result ≡ nodes }
    ensures local { result.global ≡ false }
{
    number_option(alloc, "nodes", "1", NODES_HELP)
}

fn steps<'w>(alloc: Global) -> Arg<'w>
    ensures rule { rule_of result ≡ steps }
    ensures local { result.global ≡ false }
{
    number_option(alloc, "steps", "1000000", STEPS_HELP)
}

fn collect<'w>(alloc: Global) -> Arg<'w>
    ensures rule { rule_of result ≡ collect }
    ensures local { result.global ≡ false }
{
    number_option(alloc, "collect", "0", COLLECT_HELP)
}

fn order<'w>(alloc: Global, help: &'w str) -> Arg<'w>
    ensures rule { rule_of result ≡ order }
    ensures local { result.global ≡ false }
{
    text(alloc, "order", "ORDER", help).default_value("oldest")
}

fn page<'w>(alloc: Global) -> Arg<'w>
    ensures rule { rule_of result ≡ page }
    ensures local { result.global ≡ false }
{
    text(alloc, "page", "WORDS", PAGE_HELP).default_value("64")
}

fn memory<'w>(alloc: Global) -> Arg<'w>
    ensures rule { rule_of result ≡ memory }
    ensures local { result.global ≡ false }
{
    text(alloc, "memory", "MEMORY", MEMORY_HELP).default_value("flat")
}

fn number_option<'w>(alloc: Global, name: &'w str, default: &'w str, help: &'w str) -> Arg<'w>
    ensures rule { rule_of result ≡ number_option name.entry.now default.entry.now }
    ensures local { result.global ≡ false }
{
    bare_number(alloc, name, "N", help).default_value(default)
}

// An option whose number need not be given.
fn bare_number<'w>(alloc: Global, name: &'w str, value: &'w str, help: &'w str) -> Arg<'w>
    ensures rule { rule_of result ≡ bare_number name.entry.now }
    ensures local { result.global ≡ false }
{
    text(alloc, name, value, help).value_parser(value_parser!(u64))
}

fn form<'w>(alloc: Global) -> Arg<'w>
    ensures rule { rule_of result ≡ form }
    ensures local { result.global ≡ false }
{
    text(alloc, "as", "FORM", FORM_HELP).default_value("acts")
}

fn trace_form<'w>(alloc: Global) -> Arg<'w>
    ensures rule { rule_of result ≡ trace_form }
    ensures local { result.global ≡ false }
{
    text(alloc, "as", "FORM", TRACE_FORM_HELP).default_value("std")
}

fn optional_file<'w>(alloc: Global) -> Arg<'w>
    ensures rule { rule_of result ≡ optional_file }
    ensures local { result.global ≡ false }
{
    Arg::new(alloc, "FILE").help(FILE_HELP)
}

fn act<'w>(alloc: Global) -> Arg<'w>
    ensures rule { rule_of result ≡ act }
    ensures local { result.global ≡ false }
{
    bare_number(alloc, "act", "P", ACT_HELP).required(true)
}

fn flag_option<'w>(alloc: Global, name: &'w str, help: &'w str) -> Arg<'w>
    ensures rule { rule_of result ≡ flag_option name.entry.now }
    ensures local { result.global ≡ false }
{
    Arg::new(alloc, name)
        .long(name)
        .action(ArgAction::SetTrue)
        .help(help)
}
