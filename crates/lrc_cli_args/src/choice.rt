// What the words of the command line ask for.

ghost use Rattle.std.specs.Prelude.{◌≡◌, ◌≢◌, ◌<◌, ◌≤◌, Some, codes, true};
ghost use Rattle.lrc_cli_words.specs.Commands.{is_command};

use lrc_envelope::Picker;
use lrc_page::Size;
pub use lrc_setting::setting::{Nodes, Steps};
use thiserror::Error;

/// The least number of stored intervals at which a node asks for a collection, 0 to 1,000,000. With 0 it never asks.
#[derive(Clone, Copy)]
pub struct Collect {
    pub count: u32,
    pub ghost few: { count ≤ 1000000 },
}

/// The options of the command `plain`.
#[derive(Clone, Copy)]
pub struct PlainRun<'w> {
    /// The file of the program's text; `-` is standard input.
    pub file: &'w str,
    pub nodes: Nodes,
    /// Whether the words give the number of nodes. If not, it is the default.
    pub nodes_given: bool,
    pub steps: Steps,
}

/// The most states that a search through every order may meet, 1 to 100,000,000.
#[derive(Clone, Copy)]
pub struct Most {
    pub count: u32,
    pub ghost some: { 1 ≤ count },
    pub ghost few: { count ≤ 100000000 },
}

/// The number of an outcome in the list of all outcomes, counted from 1.
#[derive(Clone, Copy)]
pub struct OutcomeNumber {
    pub number: u64,
    pub ghost some: { 1 ≤ number },
}

/// The number of runs to play in random orders: 1 to 1,000,000.
#[derive(Clone, Copy)]
pub struct Tries {
    pub count: u32,
    pub ghost some: { 1 ≤ count },
    pub ghost few: { count ≤ 1000000 },
}

/// The options that all runs have, however they go on.
#[derive(Clone, Copy)]
pub struct RunOptions<'w> {
    /// The file of the program's text; `-` is standard input.
    pub file: &'w str,
    pub nodes: Nodes,
    /// Whether the words give the number of nodes. If not, it is the default.
    pub nodes_given: bool,
    /// The number of nodes that run if the words do not give it: one, or as many as the text asks for.
    pub default_nodes: Nodes,
    pub steps: Steps,
    pub collect: Collect,
    /// The size of a page.
    pub size: Size,
}

/// How a run goes on behind the events of a file.
#[derive(Clone, Copy)]
pub enum Then {
    /// In rounds. The picker determines which message is delivered next.
    Rounds(Picker),
    /// At random, from this seed.
    Random(u64),
}

/// How a run goes on.
#[derive(Clone, Copy)]
pub enum Way<'w> {
    /// By the events in this file.
    Events(&'w str),
    /// By the events in this file, and then on so.
    Followed(&'w str, Then),
    /// In rounds. The picker determines which message is delivered next.
    Rounds(Picker),
    /// At random, from this seed.
    Random(u64),
    /// With each node on its own thread. The picker determines which message a mailbox gives next.
    Threads(Picker),
}

/// A run.
#[derive(Clone, Copy)]
pub struct RunChoice<'w> {
    pub options: RunOptions<'w>,
    pub way: Way<'w>,
}

/// The part of a run that is shown turn by turn.
#[derive(Clone, Copy)]
pub struct Part {
    /// The position of the act of the first turn that is shown, if it is given.
    pub from: Option<u64>,
    /// The position of the act of the last turn that is shown, if it is given.
    pub to: Option<u64>,
}

/// The form in which `trace` shows a run.
#[derive(Clone, Copy)]
pub enum Form {
    /// A line for each act.
    Acts,
    /// A line for each act, and between them the messages that are taken and sent.
    Messages,
    /// The events that `--events` reads.
    Events,
    /// A JSON object for each act.
    Json,
    /// The trace form of RAPID, the framework for race detectors.
    Rapid,
    /// A JSON object for each turn of a part of the run, with its node's state.
    States(Part),
    /// A JSON object for each turn of a part of the run, with the bytes of its messages.
    Bytes(Part),
}

/// The part of a run that a chart shows, and how the chart shows it.
#[derive(Clone, Copy)]
pub struct Charting {
    /// Whether the chart is for a terminal. If not, it is an SVG document.
    pub text: bool,
    /// The positions of the first and the last act that it shows, if they are given.
    pub from: Option<u64>,
    pub to: Option<u64>,
    /// Whether it hides the rows that have nothing but a quiet act.
    pub hides_quiet: bool,
    /// Whether it shows the program's text beside the picture.
    pub source: bool,
}

/// A question about acts: why one act is as it is, or how it and another are ordered.
#[derive(Clone, Copy)]
pub struct Asking {
    /// The position of an act, counted from 0.
    pub act: u64,
    /// The position of another act, counted from 0, if the question is about two.
    pub other: Option<u64>,
    pub ghost apart: { other ≢ Some act },
}

/// What is shown of a run.
#[derive(Clone, Copy)]
pub enum Shape {
    /// The output of the nodes, how they end, and the races.
    Report,
    /// Its acts, or its turns.
    Trace(Form),
    /// A page for a browser that shows a part of the run turn by turn, with the state of each node.
    Step(Part),
    /// The report with reasons.
    Explain,
    /// How often each kind of thing happened.
    Stats,
    /// A picture of the run.
    Chart(Charting),
    /// Why an act of the run is as it is, or how two acts are ordered.
    Why(Asking),
}

/// The exact memory that acts are held against.
#[derive(Clone, Copy)]
pub struct ExactOptions {
    /// The size of a page.
    pub size: Size,
    pub collect: Collect,
}

/// The options of the command `judge`.
#[derive(Clone, Copy)]
pub struct Judging<'w> {
    /// The file of the text of acts; `-` is standard input.
    pub file: &'w str,
    /// The number of nodes. By default it is the greatest node that acts plus one.
    pub nodes: Option<Nodes>,
    /// Whether every racing pair is listed, instead of the named races.
    pub pairs: bool,
    /// Whether each read that is not allowed, and each that is not in order, is named, instead of the first.
    pub all: bool,
    /// The exact memory that the reads are held against too, if one is named.
    pub memory: Option<ExactOptions>,
}

/// The memory whose runs are searched.
#[derive(Clone, Copy)]
pub enum Memory {
    /// One flat memory. Its runs are those of the plain machine, in every order.
    Flat,
    /// Any memory that keeps lazy reading.
    Lazy,
    /// The memory of this protocol, without its messages.
    Exact(ExactOptions),
}

/// Of which order the events are shown, of the orders that `explore` tells of.
#[derive(Clone, Copy)]
pub enum Tell {
    /// The first that it tells of.
    First,
    /// The order that gets stuck.
    Stuck,
    /// The order in which a node traps.
    Trap,
    /// The order that can no longer end. It comes only where ends are asked for.
    End,
}

/// The options of the command `explore`.
#[derive(Clone, Copy)]
pub struct Exploring<'w> {
    /// The file of the program's text; `-` is standard input.
    pub file: &'w str,
    pub nodes: Nodes,
    /// Whether the words say how many nodes.
    pub nodes_given: bool,
    /// The most states that the search may meet.
    pub most: Most,
    /// The memory whose runs have the outcomes. The races are the same for all memories.
    pub memory: Memory,
    /// Whether the search is for the outcomes, instead of a race.
    pub outcomes: bool,
    /// The outcome for which a run is shown, instead of the list of all outcomes.
    pub outcome: Option<OutcomeNumber>,
    /// The number of runs in random orders that are searched for the listed outcomes, if any. It comes only with the
    /// list of lazy or of exact outcomes.
    pub tries: Option<Tries>,
    /// Whether no race is looked for, so that programs that race are searched for stuck orders and traps too. It does not
    /// come with outcomes, nor where a memory is named.
    pub ignores_races: bool,
    /// Whether it is asked whether every order can end. It does not come with outcomes, nor where a memory is named.
    pub ends: bool,
    /// The order whose events are shown in place of all lines, if events are asked for. They come neither with the list of
    /// outcomes nor with lazy memory, with exact memory only of one outcome, and with one outcome only as those of the first
    /// order.
    pub events: Option<Tell>,
}

/// The form of a trace that is searched for races.
#[derive(Clone, Copy)]
pub enum TraceForm {
    /// The form of RAPID, the framework for race detectors, with further words for what orders events.
    Std,
    /// The form of `judge`.
    Acts,
}

/// How the races of a trace are put together.
#[derive(Clone, Copy)]
pub enum Grouping {
    /// Each race is reported by itself, as the trace is read.
    Each,
    /// The reported races are put together by their locations, after the trace has ended.
    Groups,
    /// Each pair of locations that race is reported once, after the trace has ended.
    Locations,
}

/// The options of the command `races`.
#[derive(Clone, Copy)]
pub struct Racing<'w> {
    /// The file of the trace; `-` is standard input.
    pub file: &'w str,
    pub form: TraceForm,
    pub grouping: Grouping,
    /// Whether only the sure races are reported: those that another trace of the same program shows, too.
    pub sure: bool,
    /// Whether each line is a JSON object.
    pub json: bool,
    /// Whether the first event that no program would give is a fault.
    pub strict: bool,
}

/// The numbers of two lines of a trace, counted from 1, the lesser one first.
#[derive(Clone, Copy)]
pub struct LinePair {
    pub first: u64,
    pub second: u64,
    pub ghost some: { 1 ≤ first },
    pub ghost ascending: { first < second },
}

/// The options of the command `races` if a sure race is to be shown.
#[derive(Clone, Copy)]
pub struct Witnessing<'w> {
    /// The file of the trace. It is not standard input.
    pub file: &'w str,
    pub form: TraceForm,
    /// The lines of the two accesses.
    pub lines: LinePair,
    /// Whether the first event that no program would give is a fault.
    pub strict: bool,
}

/// The options of the command `races` if it is asked how two events of a trace are ordered.
#[derive(Clone, Copy)]
pub struct Reasoning<'w> {
    /// The file of the trace; `-` is standard input.
    pub file: &'w str,
    pub form: TraceForm,
    /// The lines of the two events.
    pub lines: LinePair,
    /// Whether the first event that no program would give is a fault.
    pub strict: bool,
}

/// The options of the command `races` if a detector's report is judged.
#[derive(Clone, Copy)]
pub struct Scoring<'w> {
    /// The file of the trace; `-` is standard input.
    pub file: &'w str,
    pub form: TraceForm,
    /// The file of the report; `-` is standard input.
    pub report: &'w str,
    /// Whether the races are sure races throughout.
    pub sure: bool,
    /// Whether the first event that no program would give is a fault.
    pub strict: bool,
    pub ghost apart: { report.now ≡ codes "-" → file.now ≢ codes "-" },
}

/// A text of acts for the command `why`. The acts may come from any system.
#[derive(Clone, Copy)]
pub struct ForeignActs<'w> {
    /// The file of the text of acts; `-` is standard input.
    pub file: &'w str,
    /// The number of nodes. By default it is the greatest node that acts plus one.
    pub nodes: Option<Nodes>,
    /// The size of a page.
    pub size: Size,
}

/// A text of acts for the command `chart`. The acts may come from any system.
#[derive(Clone, Copy)]
pub struct ChartedActs<'w> {
    /// The file of the text of acts; `-` is standard input.
    pub file: &'w str,
    /// The number of nodes. By default it is the greatest node that acts plus one.
    pub nodes: Option<Nodes>,
}

/// A request about the texts in files, each of which is read to its end.
#[derive(Clone, Copy)]
pub enum Choice<'w> {
    /// Whether the text in this file is a program; `-` is standard input.
    Check(&'w str),
    /// The core of the program in this file; `-` is standard input.
    Core(&'w str),
    /// A run on the plain machine, in rounds.
    Plain(PlainRun<'w>),
    /// A run of the nodes, and what is shown of it.
    Show(RunChoice<'w>, Shape),
    /// A judgement of the acts in a text.
    Judge(Judging<'w>),
    /// What every order of the plain machine reaches.
    Explore(Exploring<'w>),
    /// What is wrong with the text in this file, and what is probably wrong; `-` is standard input.
    Lint(&'w str),
    /// Why an act in a text of acts is as it is, or how two are ordered.
    WhyActs(ForeignActs<'w>, Asking),
    /// A picture of the acts in a text.
    ChartActs(ChartedActs<'w>, Charting),
}

/// The name of a command.
#[derive(Clone, Copy)]
pub struct CommandName<'w> {
    pub name: &'w str,
    pub ghost known: { is_command name.now ≡ true },
}

/// What the program can say about itself.
#[derive(Clone, Copy)]
pub enum Topic<'w> {
    /// Its commands: the output of `--help`.
    Commands,
    /// A command and its options: the output of `--help` after its name.
    Command(CommandName<'w>),
    /// Its version: the output of `--version`.
    Version,
}

/// What the command line asks for.
#[derive(Clone, Copy)]
pub enum Request<'w> {
    /// What the program says about itself.
    About(Topic<'w>),
    /// The races of a trace, which are reported while it is read.
    Races(Racing<'w>),
    /// The events that show a sure race of a trace.
    Witness(Witnessing<'w>),
    /// How two events of a trace are ordered.
    Reasons(Reasoning<'w>),
    /// What of a detector's report on a trace is true, and what it missed.
    Score(Scoring<'w>),
    /// An answer to the texts in files.
    Answer(Choice<'w>),
}

/// Why the words are not a request.
#[derive(Debug, Drop, Error)]
pub enum ChooseFault {
    /// The words are not a command, or they ask for help. The error holds the text to show.
    #[error("{0}")]
    Usage(clap::Error),
    /// A number of 64 bits is outside its option's range.
    #[error("number out of range")]
    BadNumber,
    /// Memory ran out.
    #[error("out of memory")]
    NoMemory,
}
