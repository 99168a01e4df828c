// The runs of the nodes that the options ask for.

ghost use Rattle.std.specs.Prelude.{◌≡◌, IfErr, IfOk, IfSome, None, Some, codes, false, option_map};
ghost use Rattle.clap.specs.Words.{first_of, found_of, rows_of};
ghost use Rattle.lrc_envelope.specs.declared.picker.Picker.{Picker as AnyPicker};
ghost use Rattle.lrc_cli_args.specs.CommandLine.{HasMisfitOfRun, HasShowingMisfit, HasThreadsMisfit, HasTraceMisfit, IsRun, IsShowingRun, IsThreadsRun};
ghost use Rattle.lrc_cli_args.specs.CommandLine.{IsChoice};
ghost use Rattle.lrc_cli_args.specs.Options.{AreRunOptions, HasBareWayMisfit, HasFollowedMisfit, HasFormMisfitIn, HasOptionsMisfit, HasThenMisfit, HasValue, HasWayMisfit, HasWayMisfitIn};
ghost use Rattle.lrc_cli_args.specs.Options.{HasNameMisfit, HasWordMisfit, IsForm, IsFormIn, IsOrder, IsPart, IsPartTaken, IsPicker, IsRunTaken};
ghost use Rattle.lrc_cli_args.specs.Options.{IsShowingTaken, IsSimTaken, IsStepTaken, IsThen, IsTraceTaken, IsWay, IsWayIn, is_whole};
ghost use Rattle.lrc_cli_args.specs.declared.misfit.Misfit.TheVariants as unfit;
ghost use Rattle.lrc_cli_args.specs.declared.choice.RunChoice.{RunChoice as AnyRun};
ghost use Rattle.lrc_cli_args.specs.declared.runs.Order.{Order as AnyOrder};

use crate::choice::{Choice, Form, Nodes, Part, RunChoice, RunOptions, Shape, Then, Way};
use crate::misfit::Misfit;
use crate::reading::{
    collect_of, is_given, is_named, nodes_of, size_of, some_number_of, steps_of, text_of,
};
use clap::ArgMatches;
use lrc_envelope::Picker;

/// The order of a run's events if none are given.
#[derive(Clone, Copy)]
pub(crate) enum Order {
    /// In rounds. The picker determines which message is delivered next.
    Picked(Picker),
    /// At random.
    Random,
}

/// Returns the run of a command that has a flag for threads, or why its options do not fit.
pub(crate) fn showing_run<'w>(options: &ArgMatches<'w>) -> Result<RunChoice<'w>, Misfit>
    requires { IsShowingTaken (rows_of (found_of options.now)) }
    ensures ok { IfOk result (IsShowingRun (rows_of (found_of options.now))) }
    ensures err { IfErr result (HasShowingMisfit (rows_of (found_of options.now))) }
{
    run_choice(options, is_named(options, "threads"))
}

/// Returns a run, on threads or not, or why its options do not fit.
pub(crate) fn run_choice<'w>(
    options: &ArgMatches<'w>,
    threads: bool,
) -> Result<RunChoice<'w>, Misfit>
    requires { IsSimTaken (rows_of (found_of options.now)) }
    ensures ok { IfOk result (IsRun threads (rows_of (found_of options.now))) }
    ensures err { IfErr result (HasMisfitOfRun threads (rows_of (found_of options.now))) }
{
    let way = way_of(options, threads)?;
    let options = run_options(options)?;
    Ok(RunChoice { options, way })
}

/// Returns the choice of the command `trace`, or why its options do not fit.
pub(crate) fn trace_choice<'w>(options: &ArgMatches<'w>) -> Result<Choice<'w>, Misfit>
    requires { IsTraceTaken (rows_of (found_of options.now)) }
    ensures ok { IfOk result (IsChoice (codes "trace", rows_of (found_of options.now))) }
    ensures err { IfErr result (HasTraceMisfit (rows_of (found_of options.now))) }
{
    let form = form_of(options)?;
    Ok(Choice::Show(showing_run(options)?, Shape::Trace(form)))
}

/// Returns the choice of the command `step`, or why its options do not fit.
pub(crate) fn step_choice<'w>(options: &ArgMatches<'w>) -> Result<Choice<'w>, Misfit>
    requires { IsStepTaken (rows_of (found_of options.now)) }
    ensures ok { IfOk result (IsChoice (codes "step", rows_of (found_of options.now))) }
    ensures err { IfErr result (HasShowingMisfit (rows_of (found_of options.now))) }
{
    let part = part_of(options);
    Ok(Choice::Show(showing_run(options)?, Shape::Step(part)))
}

/// Returns the choice of a command whose only options are those of its run, or why these do not fit.
pub(crate) fn showing_choice<'w>(
    options: &ArgMatches<'w>,
    shape: Shape,
) -> Result<Choice<'w>, Misfit>
    requires { IsShowingTaken (rows_of (found_of options.now)) }
    ensures ok { IfOk result (λ choice. (run : AnyRun) × (choice ≡ Choice.Show run shape)
        × IsShowingRun (rows_of (found_of options.now)) run) }
    ensures err { IfErr result (HasShowingMisfit (rows_of (found_of options.now))) }
{
    Ok(Choice::Show(showing_run(options)?, shape))
}

/// Returns the run of a command that always uses threads, or why its options do not fit.
pub(crate) fn threads_run<'w>(options: &ArgMatches<'w>) -> Result<RunChoice<'w>, Misfit>
    requires { IsRunTaken (rows_of (found_of options.now)) }
    ensures ok { IfOk result (IsThreadsRun (rows_of (found_of options.now))) }
    ensures err { IfErr result (HasThreadsMisfit (rows_of (found_of options.now))) }
{
    let picker = picker_of(options)?;
    let options = run_options(options)?;
    Ok(RunChoice {
        options,
        way: Way::Threads(picker),
    })
}

fn run_options<'w>(options: &ArgMatches<'w>) -> Result<RunOptions<'w>, Misfit>
    requires { IsRunTaken (rows_of (found_of options.now)) }
    ensures ok { IfOk result (λ run. AreRunOptions run (rows_of (found_of options.now))) }
    ensures err { IfErr result (HasOptionsMisfit (rows_of (found_of options.now))) }
{
    let size = size_of(options)?;
    Ok(RunOptions {
        file: text_of(options, "FILE"),
        nodes: nodes_of(options)?,
        nodes_given: is_given(options, "nodes"),
        default_nodes: Nodes { count: 1 },
        steps: steps_of(options)?,
        collect: collect_of(options)?,
        size,
    })
}

fn way_of<'w>(options: &ArgMatches<'w>, threads: bool) -> Result<Way<'w>, Misfit>
    requires { IsSimTaken (rows_of (found_of options.now)) }
    ensures ok { IfOk result (IsWayIn threads (rows_of (found_of options.now))) }
    ensures err { IfErr result (HasWayMisfitIn threads (rows_of (found_of options.now))) }
{
    match options.get_str("then") {
        Some(word) => followed_way(options, word, threads),
        None => bare_way(options, threads),
    }
}

// How a run goes on by the events of a file and behind them.
fn followed_way<'w>(options: &ArgMatches<'w>, word: &str, threads: bool) -> Result<Way<'w>, Misfit>
    requires taken { IsSimTaken (rows_of (found_of options.now)) }
    requires word { first_of (codes "then") (rows_of (found_of options.now)) ≡ Some word.now }
    ensures ok { IfOk result (IsWayIn threads (rows_of (found_of options.now))) }
    ensures err { IfErr result (HasFollowedMisfit threads (rows_of (found_of options.now))) }
{
    let then = then_of(word, some_number_of(options, "seed"))?;
    match events_of(options) {
        Some(path) if !threads && !is_given(options, "order") => Ok(Way::Followed(path, then)),
        _ => Err(Misfit::Followed),
    }
}

// What comes behind the events.
fn then_of(word: &str, seed: Option<u64>) -> Result<Then, Misfit>
    ensures ok { IfOk result (IsThen (Some word.now) seed) }
    ensures err { IfErr result (HasThenMisfit (Some word.now) seed) }
{
    match order_named(word) {
        Ok(Order::Random) => Ok(Then::Random(seed.unwrap_or(0))),
        Ok(Order::Picked(picker)) if seed.is_none() => Ok(Then::Rounds(picker)),
        Ok(Order::Picked(_)) => Err(Misfit::Seed),
        Err(_) => Err(Misfit::Then),
    }
}

// How a run goes on that has nothing behind its events.
fn bare_way<'w>(options: &ArgMatches<'w>, threads: bool) -> Result<Way<'w>, Misfit>
    requires taken { IsSimTaken (rows_of (found_of options.now)) }
    requires bare { first_of (codes "then") (rows_of (found_of options.now)) ≡ None }
    ensures ok { IfOk result (IsWayIn threads (rows_of (found_of options.now))) }
    ensures err { IfErr result (HasBareWayMisfit threads (rows_of (found_of options.now))) }
{
    let order = order_of(options)?;
    let seed = some_number_of(options, "seed");
    way_in(order, seed, events_of(options), threads)
}

// The file of the events, if one is named.
fn events_of<'w>(options: &ArgMatches<'w>) -> Option<&'w str>
    ensures { option_map (λ path. path.now) result
        ≡ first_of (codes "events") (rows_of (found_of options.now)) }
{
    options.get_str("events")
}

// How a run in an order goes on.
fn way_in<'w>(
    order: Order,
    seed: Option<u64>,
    events: Option<&'w str>,
    threads: bool,
) -> Result<Way<'w>, Misfit>
    ensures ok { IfOk result (IsWay order seed
        (option_map (λ path. path.now) events.entry) threads) }
    ensures err { IfErr result (HasWayMisfit order seed
        (option_map (λ path. path.now) events.entry) threads) }
{
    match order {
        Order::Random => random_way(seed, events, threads),
        Order::Picked(picker) if seed.is_none() => picked_way(picker, events, threads),
        Order::Picked(_) => Err(Misfit::Seed),
    }
}

fn random_way<'w>(
    seed: Option<u64>,
    events: Option<&'w str>,
    threads: bool,
) -> Result<Way<'w>, Misfit>
    ensures ok { IfOk result (IsWay Order.Random seed
        (option_map (λ path. path.now) events.entry) threads) }
    ensures err { IfErr result (HasWayMisfit Order.Random seed
        (option_map (λ path. path.now) events.entry) threads) }
{
    match events {
        _ if threads => Err(Misfit::Threads),
        Some(path) => Ok(Way::Events(path)),
        None => Ok(Way::Random(seed.unwrap_or(0))),
    }
}

fn picked_way<'w>(picker: Picker, events: Option<&'w str>, threads: bool) -> Result<Way<'w>, Misfit>
    ensures ok { IfOk result (IsWay (Order.Picked picker) None
        (option_map (λ path. path.now) events.entry) threads) }
    ensures err { IfErr result (HasWayMisfit (Order.Picked picker) None
        (option_map (λ path. path.now) events.entry) threads) }
{
    match events {
        Some(_) if threads => Err(Misfit::Threads),
        Some(path) => Ok(Way::Events(path)),
        None if threads => Ok(Way::Threads(picker)),
        None => Ok(Way::Rounds(picker)),
    }
}

fn order_of(options: &ArgMatches<'_>) -> Result<Order, Misfit>
    requires { HasValue (codes "order") (rows_of (found_of options.now)) }
    ensures ok { IfOk result (IsOrder (first_of (codes "order") (rows_of (found_of options.now)))) }
    ensures err { IfErr result (λ misfit. (misfit ≡ unfit.Order)
        × ((order : AnyOrder) → ¬ IsOrder
        (first_of (codes "order") (rows_of (found_of options.now))) order)) }
{
    order_named(text_of(options, "order"))
}

fn order_named(word: &str) -> Result<Order, Misfit>
    ensures ok { IfOk result (IsOrder (Some word.now)) }
    ensures err { IfErr result (λ misfit. (misfit ≡ unfit.Order)
        × ((order : AnyOrder) → ¬ IsOrder (Some word.now) order)) }
{
    match picker_named(word) {
        Some(picker) => Ok(Order::Picked(picker)),
        None if word == "random" => Ok(Order::Random),
        None => Err(Misfit::Order),
    }
}

fn picker_of(options: &ArgMatches<'_>) -> Result<Picker, Misfit>
    requires { HasValue (codes "order") (rows_of (found_of options.now)) }
    ensures ok { IfOk result (IsPicker (first_of (codes "order")
        (rows_of (found_of options.now)))) }
    ensures err { IfErr result (λ misfit. (misfit ≡ unfit.RunOrder)
        × ((picker : AnyPicker) → ¬ IsPicker
        (first_of (codes "order") (rows_of (found_of options.now))) picker)) }
{
    picker_named(text_of(options, "order")).ok_or(Misfit::RunOrder)
}

fn picker_named(word: &str) -> Option<Picker>
    ensures some { IfSome result (IsPicker (Some word.now)) }
    ensures none { result ≡ None → (picker : AnyPicker) → ¬ IsPicker (Some word.now) picker }
{
    if word == "oldest" {
        Some(Picker::Oldest)
    } else if word == "newest" {
        Some(Picker::Newest)
    } else if word == "twice" {
        Some(Picker::Twice)
    } else {
        None
    }
}

fn form_of(options: &ArgMatches<'_>) -> Result<Form, Misfit>
    requires { IsTraceTaken (rows_of (found_of options.now)) }
    ensures ok { IfOk result (IsFormIn (rows_of (found_of options.now))) }
    ensures err { IfErr result (HasFormMisfitIn (rows_of (found_of options.now))) }
{
    let messages = is_named(options, "messages");
    form_named(text_of(options, "as"), messages, part_of(options))
}

// Which part of a run is shown.
fn part_of(options: &ArgMatches<'_>) -> Part
    requires { IsPartTaken (rows_of (found_of options.now)) }
    ensures { IsPart (rows_of (found_of options.now)) result }
{
    Part {
        from: some_number_of(options, "from"),
        to: some_number_of(options, "to"),
    }
}

fn form_named(word: &str, messages: bool, part: Part) -> Result<Form, Misfit>
    ensures ok { IfOk result (IsForm (Some word.now) messages part) }
    ensures err { IfErr result (HasWordMisfit (Some word.now) messages part) }
{
    match form_without_messages(word, part)? {
        Form::Acts if messages => Ok(Form::Messages),
        _ if messages => Err(Misfit::Messages),
        form => Ok(form),
    }
}

fn form_without_messages(word: &str, part: Part) -> Result<Form, Misfit>
    ensures ok { IfOk result (IsForm (Some word.now) false part) }
    ensures err { IfErr result (HasNameMisfit (Some word.now) part) }
{
    if word == "states" {
        Ok(Form::States(part))
    } else if word == "bytes" {
        Ok(Form::Bytes(part))
    } else if !is_whole(part) {
        Err(Misfit::Part)
    } else if word == "acts" {
        Ok(Form::Acts)
    } else if word == "events" {
        Ok(Form::Events)
    } else if word == "json" {
        Ok(Form::Json)
    } else if word == "rapid" {
        Ok(Form::Rapid)
    } else {
        Err(Misfit::Form)
    }
}

// Whether a part is the whole run.
fn is_whole(part: Part) -> bool
    ensures { result ≡ is_whole part }
{
    part.from.is_none() && part.to.is_none()
}
