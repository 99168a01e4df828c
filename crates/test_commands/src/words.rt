// Lines of words, and the choice that they make.

use crate::checks::passes;
use crate::searches::{Search, is_wanted_search};
use crate::traces::{Report, TwoLines, is_wanted_of_trace};
use lrc_cli_args::choice::{
    Asking, ChartedActs, Charting, Choice, ChooseFault, ForeignActs, Form, Judging, Part, PlainRun,
    Racing, Request, RunOptions, Shape, Then, Topic, Way,
};
use lrc_cli_args::choose;
use lrc_envelope::Picker;
use lrc_page::Size;
use std::alloc::{AllocError, Global};

/// What is shown of a run, but for reasons, which a constant cannot have: what they ask of keeps a fact of its own.
#[derive(Clone, Copy)]
pub enum Look {
    Report,
    Trace(Form),
    Step(Part),
    Explain,
    Stats,
    Chart(Charting),
}

/// A run, in plain numbers.
#[derive(Clone, Copy)]
pub struct Run {
    file: &'static str,
    nodes: u32,
    steps: u32,
    collect: u32,
    size: Size,
    way: Way<'static>,
    shape: Look,
}

/// What is to come of a line of words.
#[derive(Clone, Copy)]
pub enum Wanted {
    Lint(&'static str),
    /// The core of a program.
    Core(&'static str),
    Races(Racing<'static>),
    Witness(TwoLines),
    Reasons(TwoLines),
    Score(Report),
    /// Of a run: of which act it is asked, and of which other.
    Why(Run, u64, Option<u64>),
    /// The same of acts from a file, of so many nodes, with pages of this size.
    WhyActs(&'static str, Option<u32>, Size, u64, Option<u64>),
    /// A chart of acts from a file, of so many nodes.
    ChartActs(&'static str, Option<u32>, Charting),
    Check(&'static str),
    /// With so many nodes and steps.
    Plain(&'static str, u32, u32),
    Run(Run),
    /// Of so many nodes, where it is given, by pairs or not.
    Judge(&'static str, Option<u32>, bool),
    /// Against the exact memory with pages of this size, from so many intervals on.
    JudgeExact(&'static str, Size, u32),
    Explore(Search),
    /// The list of commands.
    Commands,
    /// The help of this command.
    Help(&'static str),
    Version,
    BadNumber,
    Usage,
}

fn are_options(made: &RunOptions<'_>, wanted: &Run) -> bool {
    made.file == wanted.file
        && made.nodes.count == wanted.nodes
        && made.steps.count == wanted.steps
        && made.collect.count == wanted.collect
        && made.size == wanted.size
}

fn is_same_way(made: Way<'_>, wanted: Way<'_>) -> bool {
    match (made, wanted) {
        (Way::Events(made), Way::Events(wanted)) => made == wanted,
        (Way::Followed(made, next), Way::Followed(wanted, other)) => {
            made == wanted && is_same_next(next, other)
        }
        (Way::Rounds(made), Way::Rounds(wanted)) => made == wanted,
        (Way::Threads(made), Way::Threads(wanted)) => made == wanted,
        (Way::Random(made), Way::Random(wanted)) => made == wanted,
        _ => false,
    }
}

fn is_same_next(made: Then, wanted: Then) -> bool {
    match (made, wanted) {
        (Then::Rounds(made), Then::Rounds(wanted)) => made == wanted,
        (Then::Random(made), Then::Random(wanted)) => made == wanted,
        _ => false,
    }
}

fn is_same_part(made: Part, wanted: Part) -> bool {
    made.from == wanted.from && made.to == wanted.to
}

fn is_same_form(made: Form, wanted: Form) -> bool {
    match (made, wanted) {
        (Form::Acts, Form::Acts)
        | (Form::Messages, Form::Messages)
        | (Form::Events, Form::Events)
        | (Form::Json, Form::Json)
        | (Form::Rapid, Form::Rapid) => true,
        (Form::States(made), Form::States(wanted)) => is_same_part(made, wanted),
        _ => false,
    }
}

fn is_same_charting(made: Charting, wanted: Charting) -> bool {
    made.text == wanted.text
        && made.from == wanted.from
        && made.to == wanted.to
        && made.hides_quiet == wanted.hides_quiet
        && made.source == wanted.source
}

fn is_same_shape(made: Shape, wanted: Look) -> bool {
    match (made, wanted) {
        (Shape::Report, Look::Report)
        | (Shape::Explain, Look::Explain)
        | (Shape::Stats, Look::Stats) => true,
        (Shape::Trace(made), Look::Trace(wanted)) => is_same_form(made, wanted),
        (Shape::Step(made), Look::Step(wanted)) => is_same_part(made, wanted),
        (Shape::Chart(made), Look::Chart(wanted)) => is_same_charting(made, wanted),
        _ => false,
    }
}

fn is_plain(made: &PlainRun<'_>, file: &str, nodes: u32, steps: u32) -> bool {
    made.file == file && made.nodes.count == nodes && made.steps.count == steps
}

fn is_judging(made: &Judging<'_>, file: &str, nodes: Option<u32>, pairs: bool) -> bool {
    made.file == file && made.nodes.map(|nodes| nodes.count) == nodes && made.pairs == pairs
}

fn is_exact(made: &Judging<'_>, size: Size, collect: u32) -> bool {
    match made.memory {
        Some(memory) => memory.size == size && memory.collect.count == collect,
        None => false,
    }
}

fn is_asking(made: Asking, act: u64, other: Option<u64>) -> bool {
    made.act == act && made.other == other
}

fn is_foreign(made: &ForeignActs<'_>, file: &str, nodes: Option<u32>, size: Size) -> bool {
    made.file == file && made.nodes.map(|nodes| nodes.count) == nodes && made.size == size
}

fn are_charted(made: &ChartedActs<'_>, file: &str, nodes: Option<u32>) -> bool {
    made.file == file && made.nodes.map(|nodes| nodes.count) == nodes
}

fn is_wanted_why(made: &Choice<'_>, wanted: &Wanted) -> bool {
    match (made, wanted) {
        (Choice::Show(made, Shape::Why(asking)), Wanted::Why(run, act, other)) => {
            are_options(&made.options, run)
                && is_same_way(made.way, run.way)
                && is_asking(*asking, *act, *other)
        }
        (Choice::WhyActs(made, asking), Wanted::WhyActs(file, nodes, size, act, other)) => {
            is_foreign(made, file, *nodes, *size) && is_asking(*asking, *act, *other)
        }
        _ => false,
    }
}

fn is_wanted(made: &Choice<'_>, wanted: &Wanted) -> bool {
    match (made, wanted) {
        (Choice::Lint(made), Wanted::Lint(file)) => made == file,
        (Choice::Show(_, Shape::Why(_)) | Choice::WhyActs(..), _) => is_wanted_why(made, wanted),
        (Choice::ChartActs(made, charting), Wanted::ChartActs(file, nodes, wanted)) => {
            are_charted(made, file, *nodes) && is_same_charting(*charting, *wanted)
        }
        (Choice::Check(made), Wanted::Check(file)) => made == file,
        (Choice::Core(made), Wanted::Core(file)) => made == file,
        (Choice::Plain(made), Wanted::Plain(file, nodes, steps)) => {
            is_plain(made, file, *nodes, *steps)
        }
        (Choice::Show(made, shape), Wanted::Run(run)) => {
            are_options(&made.options, run)
                && is_same_way(made.way, run.way)
                && is_same_shape(*shape, run.shape)
        }
        (Choice::Judge(made), Wanted::Judge(file, nodes, pairs)) => {
            is_judging(made, file, *nodes, *pairs) && made.memory.is_none()
        }
        (Choice::Judge(made), Wanted::JudgeExact(file, size, collect)) => {
            is_judging(made, file, None, false) && is_exact(made, *size, *collect)
        }
        (Choice::Explore(made), Wanted::Explore(search)) => is_wanted_search(made, search),
        _ => false,
    }
}

fn is_wanted_topic(made: &Topic<'_>, wanted: &Wanted) -> bool {
    match (made, wanted) {
        (Topic::Commands, Wanted::Commands) | (Topic::Version, Wanted::Version) => true,
        (Topic::Command(made), Wanted::Help(name)) => made.name == *name,
        _ => false,
    }
}

fn is_wanted_request(made: &Request<'_>, wanted: &Wanted) -> bool {
    match made {
        Request::About(topic) => is_wanted_topic(topic, wanted),
        Request::Races(_) | Request::Witness(_) | Request::Reasons(_) | Request::Score(_) => {
            is_wanted_of_trace(made, wanted)
        }
        Request::Answer(choice) => is_wanted(choice, wanted),
    }
}

fn is_wanted_fault(fault: &ChooseFault, wanted: &Wanted) -> bool {
    match fault {
        ChooseFault::BadNumber => matches!(wanted, Wanted::BadNumber),
        ChooseFault::Usage(_) => matches!(wanted, Wanted::Usage),
        ChooseFault::NoMemory => false,
    }
}

/// Whether the words make what is wanted.
fn make(alloc: Global, words: &[&str], wanted: &Wanted) -> bool {
    match choose(alloc, words) {
        Ok(made) => is_wanted_request(&made, wanted),
        Err(fault) => is_wanted_fault(&fault, wanted),
    }
}

/// Puts the words between the single spaces of a line. An empty line has none.
fn put_words<'l>(words: &mut Vec<&'l str>, line: &'l str) -> Result<(), AllocError> {
    if !line.is_empty() {
        for word in line.split(' ') {
            words.push(word)?;
        }
    }
    Ok(())
}

fn is_as_wanted(alloc: Global, line: &str, wanted: &Wanted) -> bool {
    let mut words = Vec::new(alloc);
    put_words(&mut words, line).is_ok() && make(alloc, &words, wanted)
}

/// A line of words, and what is to come of it.
pub type Row = (&'static str, Wanted);

/// The first line that does not make what is wanted of it.
pub fn first_wrong(alloc: Global, rows: &[Row]) -> Option<&'static str> {
    for (line, wanted) in rows {
        if !is_as_wanted(alloc, line, wanted) {
            return Some(line);
        }
    }
    None
}

const OLDEST: Way<'static> = Way::Rounds(Picker::Oldest);

/// A run of this file, as it is without options.
const A_RUN: Run = Run {
    file: "a.tm",
    nodes: 1,
    steps: 1_000_000,
    collect: 0,
    size: Size::Words64,
    way: OLDEST,
    shape: Look::Report,
};

const OF_THREE: Run = Run {
    file: "-",
    nodes: 3,
    ..A_RUN
};

const WHOLE_RUN: Part = Part {
    from: None,
    to: None,
};

const WHOLE_CHART: Charting = Charting {
    text: false,
    from: None,
    to: None,
    hides_quiet: false,
    source: false,
};

const CHOICES: &[Row] = &[
    (
        "plain counter.tm --nodes 16 --steps +20",
        Wanted::Plain("counter.tm", 16, 20),
    ),
    ("plain -", Wanted::Plain("-", 1, 1_000_000)),
    (
        "sim a.tm --events -",
        Wanted::Run(Run {
            way: Way::Events("-"),
            ..A_RUN
        }),
    ),
    ("", Wanted::Run(Run { file: "-", ..A_RUN })),
    ("check a.tm", Wanted::Check("a.tm")),
    ("core a.tm", Wanted::Core("a.tm")),
    ("core -", Wanted::Core("-")),
    // The options of a run.
    (
        "sim - --nodes 3 --order newest --page=256 --collect 1000000",
        Wanted::Run(Run {
            collect: 1_000_000,
            size: Size::Words256,
            way: Way::Rounds(Picker::Newest),
            ..OF_THREE
        }),
    ),
    (
        "sim --order=twice --page 64 - --nodes=3",
        Wanted::Run(Run {
            way: Way::Rounds(Picker::Twice),
            ..OF_THREE
        }),
    ),
    ("sim - --nodes 3 --order oldest", Wanted::Run(OF_THREE)),
    (
        "run - --nodes 3 --order=twice --page 256 --collect 7",
        Wanted::Run(Run {
            collect: 7,
            size: Size::Words256,
            way: Way::Threads(Picker::Twice),
            ..OF_THREE
        }),
    ),
    // What comes behind events.
    (
        "sim a.tm --events=e --then newest",
        Wanted::Run(Run {
            way: Way::Followed("e", Then::Rounds(Picker::Newest)),
            ..A_RUN
        }),
    ),
    (
        "sim a.tm --then random --seed 7 --events e",
        Wanted::Run(Run {
            way: Way::Followed("e", Then::Random(7)),
            ..A_RUN
        }),
    ),
    (
        "sim a.tm --then=random --events=e",
        Wanted::Run(Run {
            way: Way::Followed("e", Then::Random(0)),
            ..A_RUN
        }),
    ),
    // Random orders and traces.
    (
        "sim a.tm --seed=7 --order=random",
        Wanted::Run(Run {
            way: Way::Random(7),
            ..A_RUN
        }),
    ),
    (
        "sim a.tm --order random",
        Wanted::Run(Run {
            way: Way::Random(0),
            ..A_RUN
        }),
    ),
    (
        "sim a.tm --order=random --events=e",
        Wanted::Run(Run {
            way: Way::Events("e"),
            ..A_RUN
        }),
    ),
    (
        "trace a.tm --as=rapid --threads --order=newest",
        Wanted::Run(Run {
            way: Way::Threads(Picker::Newest),
            shape: Look::Trace(Form::Rapid),
            ..A_RUN
        }),
    ),
    // States, and steps.
    (
        "trace a.tm --as states",
        Wanted::Run(Run {
            shape: Look::Trace(Form::States(WHOLE_RUN)),
            ..A_RUN
        }),
    ),
    (
        "trace a.tm --as=states --to 7 --from=2 --order random",
        Wanted::Run(Run {
            way: Way::Random(0),
            shape: Look::Trace(Form::States(Part {
                from: Some(2),
                to: Some(7),
            })),
            ..A_RUN
        }),
    ),
    (
        "trace a.tm --to 0 --as states",
        Wanted::Run(Run {
            shape: Look::Trace(Form::States(Part {
                to: Some(0),
                ..WHOLE_RUN
            })),
            ..A_RUN
        }),
    ),
    (
        "step a.tm",
        Wanted::Run(Run {
            shape: Look::Step(WHOLE_RUN),
            ..A_RUN
        }),
    ),
    (
        "step - --nodes 3 --from 18446744073709551615",
        Wanted::Run(Run {
            shape: Look::Step(Part {
                from: Some(u64::MAX),
                ..WHOLE_RUN
            }),
            ..OF_THREE
        }),
    ),
    (
        "step --from=5 --to=3 a.tm --nodes=3 --steps=5 --collect=7 --order=random --seed=9 --page=256",
        Wanted::Run(Run {
            nodes: 3,
            steps: 5,
            collect: 7,
            size: Size::Words256,
            way: Way::Random(9),
            shape: Look::Step(Part {
                from: Some(5),
                to: Some(3),
            }),
            ..A_RUN
        }),
    ),
    (
        "step a.tm --events e",
        Wanted::Run(Run {
            way: Way::Events("e"),
            shape: Look::Step(WHOLE_RUN),
            ..A_RUN
        }),
    ),
    (
        "step a.tm --threads --order=newest --to 4",
        Wanted::Run(Run {
            way: Way::Threads(Picker::Newest),
            shape: Look::Step(Part {
                to: Some(4),
                ..WHOLE_RUN
            }),
            ..A_RUN
        }),
    ),
    // What is judged.
    ("judge a.acts", Wanted::Judge("a.acts", None, false)),
    (
        "judge a.acts --nodes 3 --pairs",
        Wanted::Judge("a.acts", Some(3), true),
    ),
    (
        "judge a.acts --memory exact",
        Wanted::JudgeExact("a.acts", Size::Words64, 0),
    ),
    (
        "judge a.acts --memory=exact --page=256 --collect=7",
        Wanted::JudgeExact("a.acts", Size::Words256, 7),
    ),
    // What is asked of a run or a program.
    (
        "trace a.tm --messages",
        Wanted::Run(Run {
            shape: Look::Trace(Form::Messages),
            ..A_RUN
        }),
    ),
    (
        "explain a.tm --order random --seed 9",
        Wanted::Run(Run {
            way: Way::Random(9),
            shape: Look::Explain,
            ..A_RUN
        }),
    ),
    (
        "stats a.tm --threads --order=twice",
        Wanted::Run(Run {
            way: Way::Threads(Picker::Twice),
            shape: Look::Stats,
            ..A_RUN
        }),
    ),
    // What is wrong with texts and traces, and why acts are as they are.
    ("lint a.tm", Wanted::Lint("a.tm")),
    ("lint -", Wanted::Lint("-")),
    ("why a.tm --act 3", Wanted::Why(A_RUN, 3, None)),
    (
        "why --act=0 - --nodes 3 --and 18446744073709551615",
        Wanted::Why(OF_THREE, 0, Some(u64::MAX)),
    ),
    (
        "why a.tm --act 3 --and 0 --order=random --seed 9 --nodes=3 --steps=5 --collect=7 --page=256",
        Wanted::Why(
            Run {
                nodes: 3,
                steps: 5,
                collect: 7,
                size: Size::Words256,
                way: Way::Random(9),
                ..A_RUN
            },
            3,
            Some(0),
        ),
    ),
    (
        "why a.tm --act 3 --events e",
        Wanted::Why(
            Run {
                way: Way::Events("e"),
                ..A_RUN
            },
            3,
            None,
        ),
    ),
    (
        "why --acts a.acts --act 3",
        Wanted::WhyActs("a.acts", None, Size::Words64, 3, None),
    ),
    (
        "why --acts - --act 3 --and 1 --nodes 1 --page 256",
        Wanted::WhyActs("-", Some(1), Size::Words256, 3, Some(1)),
    ),
    // What the program says of itself.
    ("help", Wanted::Commands),
    ("help explore", Wanted::Help("explore")),
    ("help step", Wanted::Help("step")),
    ("help -- help", Wanted::Help("help")),
    ("version", Wanted::Version),
    // Charts.
    (
        "chart a.tm",
        Wanted::Run(Run {
            shape: Look::Chart(WHOLE_CHART),
            ..A_RUN
        }),
    ),
    (
        "chart a.tm --text --from 0 --to=5",
        Wanted::Run(Run {
            shape: Look::Chart(Charting {
                text: true,
                from: Some(0),
                to: Some(5),
                ..WHOLE_CHART
            }),
            ..A_RUN
        }),
    ),
    (
        "chart --from=18446744073709551615 a.tm",
        Wanted::Run(Run {
            shape: Look::Chart(Charting {
                from: Some(u64::MAX),
                ..WHOLE_CHART
            }),
            ..A_RUN
        }),
    ),
    (
        "chart a.tm --to +18446744073709551615",
        Wanted::Run(Run {
            shape: Look::Chart(Charting {
                to: Some(u64::MAX),
                ..WHOLE_CHART
            }),
            ..A_RUN
        }),
    ),
    (
        "chart a.tm --text --to=2 --from=3",
        Wanted::Run(Run {
            shape: Look::Chart(Charting {
                text: true,
                from: Some(3),
                to: Some(2),
                ..WHOLE_CHART
            }),
            ..A_RUN
        }),
    ),
    (
        "chart a.tm --nodes=3 --steps=5 --collect=7 --order=random --seed=9 --page=256",
        Wanted::Run(Run {
            nodes: 3,
            steps: 5,
            collect: 7,
            size: Size::Words256,
            way: Way::Random(9),
            shape: Look::Chart(WHOLE_CHART),
            ..A_RUN
        }),
    ),
    (
        "chart a.tm --threads --order=twice --text",
        Wanted::Run(Run {
            way: Way::Threads(Picker::Twice),
            shape: Look::Chart(Charting {
                text: true,
                ..WHOLE_CHART
            }),
            ..A_RUN
        }),
    ),
    (
        "chart a.tm --events e --to=3",
        Wanted::Run(Run {
            way: Way::Events("e"),
            shape: Look::Chart(Charting {
                to: Some(3),
                ..WHOLE_CHART
            }),
            ..A_RUN
        }),
    ),
    (
        "chart a.tm --hide quiet",
        Wanted::Run(Run {
            shape: Look::Chart(Charting {
                hides_quiet: true,
                ..WHOLE_CHART
            }),
            ..A_RUN
        }),
    ),
    (
        "chart --source a.tm --hide=quiet --from 2",
        Wanted::Run(Run {
            shape: Look::Chart(Charting {
                from: Some(2),
                hides_quiet: true,
                source: true,
                ..WHOLE_CHART
            }),
            ..A_RUN
        }),
    ),
    (
        "chart a.tm --text --hide quiet",
        Wanted::Run(Run {
            shape: Look::Chart(Charting {
                text: true,
                hides_quiet: true,
                ..WHOLE_CHART
            }),
            ..A_RUN
        }),
    ),
    (
        "chart --acts a.acts",
        Wanted::ChartActs("a.acts", None, WHOLE_CHART),
    ),
    (
        "chart --acts=- --nodes 3 --text --from 1 --to 2 --hide quiet",
        Wanted::ChartActs(
            "-",
            Some(3),
            Charting {
                text: true,
                from: Some(1),
                to: Some(2),
                hides_quiet: true,
                source: false,
            },
        ),
    ),
];

#[test]
fn words_make_their_choice(rt: HostRuntime) {
    passes(&rt, first_wrong(rt.alloc(), CHOICES));
}
