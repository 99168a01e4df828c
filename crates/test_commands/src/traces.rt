// Lines of words that ask something of a trace, and the request that they make.

use crate::checks::passes;
use crate::words::{Row, Wanted, first_wrong};
use lrc_cli_args::choice::{
    Grouping, LinePair, Racing, Reasoning, Request, Scoring, TraceForm, Witnessing,
};

/// Two lines of a trace, which has the form of acts or not.
#[derive(Clone, Copy)]
pub struct TwoLines {
    file: &'static str,
    acts: bool,
    first: u64,
    second: u64,
    strict: bool,
}

/// A report on a trace, which has the form of acts or not.
#[derive(Clone, Copy)]
pub struct Report {
    file: &'static str,
    acts: bool,
    report: &'static str,
    sure: bool,
    strict: bool,
}

fn is_acts(form: TraceForm) -> bool {
    matches!(form, TraceForm::Acts)
}

fn is_same_grouping(made: Grouping, wanted: Grouping) -> bool {
    matches!(
        (made, wanted),
        (Grouping::Each, Grouping::Each)
            | (Grouping::Groups, Grouping::Groups)
            | (Grouping::Locations, Grouping::Locations)
    )
}

fn is_racing(made: &Racing<'_>, wanted: &Racing<'_>) -> bool {
    made.file == wanted.file
        && is_acts(made.form) == is_acts(wanted.form)
        && is_same_grouping(made.grouping, wanted.grouping)
        && made.sure == wanted.sure
        && made.json == wanted.json
        && made.strict == wanted.strict
}

fn is_witnessing(made: &Witnessing<'_>, wanted: &TwoLines) -> bool {
    made.file == wanted.file
        && is_acts(made.form) == wanted.acts
        && are_lines(made.lines, wanted.first, wanted.second)
        && made.strict == wanted.strict
}

fn is_reasoning(made: &Reasoning<'_>, wanted: &TwoLines) -> bool {
    made.file == wanted.file
        && is_acts(made.form) == wanted.acts
        && are_lines(made.lines, wanted.first, wanted.second)
        && made.strict == wanted.strict
}

fn is_scoring(made: &Scoring<'_>, wanted: &Report) -> bool {
    made.file == wanted.file
        && is_acts(made.form) == wanted.acts
        && made.report == wanted.report
        && made.sure == wanted.sure
        && made.strict == wanted.strict
}

fn are_lines(made: LinePair, first: u64, second: u64) -> bool {
    made.first == first && made.second == second
}

/// Whether what is asked of a trace is what is wanted.
pub fn is_wanted_of_trace(made: &Request<'_>, wanted: &Wanted) -> bool {
    match (made, wanted) {
        (Request::Races(made), Wanted::Races(racing)) => is_racing(made, racing),
        (Request::Witness(made), Wanted::Witness(lines)) => is_witnessing(made, lines),
        (Request::Reasons(made), Wanted::Reasons(lines)) => is_reasoning(made, lines),
        (Request::Score(made), Wanted::Score(report)) => is_scoring(made, report),
        _ => false,
    }
}

/// The races of this trace, as they are told without options.
const THE_RACES: Racing<'static> = Racing {
    file: "t.std",
    form: TraceForm::Std,
    grouping: Grouping::Each,
    sure: false,
    json: false,
    strict: false,
};

/// The greatest lines of this trace.
const THE_LAST_LINES: TwoLines = TwoLines {
    file: "t.std",
    acts: false,
    first: u64::MAX - 1,
    second: u64::MAX,
    strict: false,
};

const THE_REPORT: Report = Report {
    file: "t.std",
    acts: false,
    report: "r.txt",
    sure: false,
    strict: false,
};

const TRACES: &[Row] = &[
    (
        "races -",
        Wanted::Races(Racing {
            file: "-",
            ..THE_RACES
        }),
    ),
    (
        "races t.std --as std --group",
        Wanted::Races(Racing {
            grouping: Grouping::Groups,
            ..THE_RACES
        }),
    ),
    (
        "races --locations t.std",
        Wanted::Races(Racing {
            grouping: Grouping::Locations,
            ..THE_RACES
        }),
    ),
    (
        "races --as=acts t.std --sure",
        Wanted::Races(Racing {
            form: TraceForm::Acts,
            sure: true,
            ..THE_RACES
        }),
    ),
    (
        "races --json t.std --strict --group --sure",
        Wanted::Races(Racing {
            grouping: Grouping::Groups,
            sure: true,
            json: true,
            strict: true,
            ..THE_RACES
        }),
    ),
    (
        "races --json t.std --locations",
        Wanted::Races(Racing {
            grouping: Grouping::Locations,
            json: true,
            ..THE_RACES
        }),
    ),
    (
        "races t.std --strict",
        Wanted::Races(Racing {
            strict: true,
            ..THE_RACES
        }),
    ),
    (
        "races t.std --witness 18446744073709551614 18446744073709551615",
        Wanted::Witness(THE_LAST_LINES),
    ),
    (
        "races --strict --witness 01 +2 --as=acts t.acts",
        Wanted::Witness(TwoLines {
            file: "t.acts",
            acts: true,
            first: 1,
            second: 2,
            strict: true,
        }),
    ),
    (
        "races t.std --why 18446744073709551614 18446744073709551615",
        Wanted::Reasons(THE_LAST_LINES),
    ),
    (
        "races - --why 01 +2 --as=acts --strict",
        Wanted::Reasons(TwoLines {
            file: "-",
            acts: true,
            first: 1,
            second: 2,
            strict: true,
        }),
    ),
    ("races t.std --score r.txt", Wanted::Score(THE_REPORT)),
    (
        "races t.std --score - --sure",
        Wanted::Score(Report {
            report: "-",
            sure: true,
            ..THE_REPORT
        }),
    ),
    (
        "races - --score=r.txt --as acts --strict",
        Wanted::Score(Report {
            file: "-",
            acts: true,
            strict: true,
            ..THE_REPORT
        }),
    ),
];

#[test]
fn words_ask_of_traces(rt: HostRuntime) {
    passes(&rt, first_wrong(rt.alloc(), TRACES));
}
