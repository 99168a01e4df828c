// What is asked of a trace.

ghost use Rattle.std.specs.Prelude.{◌≡◌, ◌≢◌, ◌≤◌, ◌∷◌, [], ℕ, IfErr, IfOk, MatchOption, codes, map, option_map};
ghost use Rattle.clap.specs.Words.{found_of, first_of, rows_of};
ghost use Rattle.lrc_cli_args.specs.CommandLine.{IsRacing, IsReasoning, IsRequest, IsScoring, IsWitnessing};
ghost use Rattle.lrc_cli_args.specs.Options.{AreLines, HasMisfitBeside, HasRacesMisfit, IsFlag, IsGrouping, IsLine, IsOneOf, IsQuestion, IsRacesTaken, IsTraceForm, texts_of};
ghost use Rattle.lrc_cli_args.specs.declared.choice.Grouping.{Grouping as AnyGrouping};
ghost use Rattle.lrc_cli_args.specs.declared.choice.Grouping.TheVariants as groupings;
ghost use Rattle.lrc_cli_args.specs.declared.choice.LinePair.{LinePair as AnyLines};
ghost use Rattle.lrc_cli_args.specs.declared.choice.TraceForm.{TraceForm as AnyTraceForm};
ghost use Rattle.lrc_cli_args.specs.declared.misfit.Misfit.TheVariants as unfit;
ghost use Rattle.lrc_cli_args.specs.declared.races.Question.{Question as AnyQuestion};
ghost use Rattle.lrc_cli_args.specs.declared.races.Question.TheVariants as questions;

use crate::choice::{
    Grouping, LinePair, Racing, Reasoning, Request, Scoring, TraceForm, Witnessing,
};
use crate::misfit::Misfit;
use crate::reading::{is_named, some_text_of, some_texts_of, text_of};
use clap::ArgMatches;

/// What the words ask of a trace.
#[derive(Clone, Copy)]
pub(crate) enum Question<'q, 'w> {
    /// Its races, put together in this way.
    Told(Grouping),
    /// What of the report in this file is true, and what it missed.
    Scored(&'w str),
    /// How the events on these lines are ordered.
    Reasoned(&'q [&'w str]),
    /// Whether the accesses on these lines are a sure race.
    Witnessed(&'q [&'w str]),
}

/// Returns the request of the command `races`, or why its options do not fit.
pub(crate) fn races_request<'w>(options: &ArgMatches<'w>) -> Result<Request<'w>, Misfit>
    requires { IsRacesTaken (rows_of (found_of options.now)) }
    ensures ok { IfOk result (IsRequest (codes "races", rows_of (found_of options.now))) }
    ensures err { IfErr result (HasRacesMisfit (rows_of (found_of options.now))) }
{
    let form = trace_form_named(text_of(options, "as"))?;
    match question_of(options)? {
        Question::Told(grouping) => Ok(Request::Races(racing(options, form, grouping))),
        Question::Scored(report) => Ok(Request::Score(scoring(options, form, report)?)),
        Question::Reasoned(lines) => Ok(Request::Reasons(reasoning(options, form, lines)?)),
        Question::Witnessed(lines) => Ok(Request::Witness(witnessing(options, form, lines)?)),
    }
}

// What the words ask, which is one thing at most besides the races.
fn question_of<'q, 'w>(options: &'q ArgMatches<'w>) -> Result<Question<'q, 'w>, Misfit>
    requires { IsRacesTaken (rows_of (found_of options.now)) }
    ensures ok { IfOk result (IsQuestion (rows_of (found_of options.now))) }
    ensures err { IfErr result (λ misfit. (misfit ≡ unfit.Questions)
        × ((question : AnyQuestion) → ¬ IsQuestion (rows_of (found_of options.now)) question)) }
{
    let grouping = grouping_of(options)?;
    let report = some_text_of(options, "score");
    let why = some_texts_of(options, "why");
    let witness = some_texts_of(options, "witness");
    one_of(grouping, report, why, witness)
}

// The one question among these options, if no two of them ask one.
fn one_of<'q, 'w>(
    grouping: Grouping,
    report: Option<&'w str>,
    why: Option<&'q [&'w str]>,
    witness: Option<&'q [&'w str]>,
) -> Result<Question<'q, 'w>, Misfit>
    ensures ok { IfOk result (IsOneOf grouping (option_map (λ text. text.now) report.entry)
        (option_map texts_of why.entry) (option_map texts_of witness.entry)) }
    ensures err { IfErr result (λ misfit. (misfit ≡ unfit.Questions) × ((question : AnyQuestion)
        → ¬ IsOneOf grouping (option_map (λ text. text.now) report.entry)
        (option_map texts_of why.entry) (option_map texts_of witness.entry) question)) }
{
    match (report, why, witness) {
        (None, None, None) => Ok(Question::Told(grouping)),
        (Some(report), None, None) => alone(grouping, Question::Scored(report)),
        (None, Some(lines), None) => alone(grouping, Question::Reasoned(lines)),
        (None, None, Some(lines)) => alone(grouping, Question::Witnessed(lines)),
        _ => Err(Misfit::Questions),
    }
}

// A question beside which no races are put together.
fn alone<'q, 'w>(grouping: Grouping, question: Question<'q, 'w>) -> Result<Question<'q, 'w>, Misfit>
    ensures ok { IfOk result (λ asked. (asked ≡ question.entry) × (grouping ≡ groupings.Each)) }
    ensures err { IfErr result (λ misfit. (misfit ≡ unfit.Questions) × (grouping ≢ groupings.Each)) }
{
    match grouping {
        Grouping::Each => Ok(question),
        Grouping::Groups | Grouping::Locations => Err(Misfit::Questions),
    }
}

// How the races are put together, if this is asked in one way.
fn grouping_of(options: &ArgMatches<'_>) -> Result<Grouping, Misfit>
    requires { IsRacesTaken (rows_of (found_of options.now)) }
    ensures ok { IfOk result (IsGrouping (rows_of (found_of options.now))) }
    ensures err { IfErr result (λ misfit. (misfit ≡ unfit.Questions)
        × ((grouping : AnyGrouping) → ¬ IsGrouping (rows_of (found_of options.now)) grouping)) }
{
    match (is_named(options, "group"), is_named(options, "locations")) {
        (false, false) => Ok(Grouping::Each),
        (true, false) => Ok(Grouping::Groups),
        (false, true) => Ok(Grouping::Locations),
        (true, true) => Err(Misfit::Questions),
    }
}

// Whether the first event that no program would give is a fault.
fn is_strict(options: &ArgMatches<'_>) -> bool
    requires { IsRacesTaken (rows_of (found_of options.now)) }
    ensures { IsFlag (codes "strict") result (rows_of (found_of options.now)) }
{
    is_named(options, "strict")
}

// What is asked where races are told.
fn racing<'w>(options: &ArgMatches<'w>, form: TraceForm, grouping: Grouping) -> Racing<'w>
    requires taken { IsRacesTaken (rows_of (found_of options.now)) }
    requires form { IsTraceForm (first_of (codes "as") (rows_of (found_of options.now))) form }
    requires asked { IsQuestion (rows_of (found_of options.now)) (questions.Told grouping) }
    ensures { IsRacing (rows_of (found_of options.now)) result }
{
    Racing {
        file: text_of(options, "FILE"),
        form,
        grouping,
        sure: is_named(options, "sure"),
        json: is_named(options, "json"),
        strict: is_strict(options),
    }
}

// What is asked where the report in this file is judged.
fn scoring<'w>(
    options: &ArgMatches<'w>,
    form: TraceForm,
    report: &'w str,
) -> Result<Scoring<'w>, Misfit>
    requires taken { IsRacesTaken (rows_of (found_of options.now)) }
    requires form { IsTraceForm (first_of (codes "as") (rows_of (found_of options.now))) form }
    requires asked { IsQuestion (rows_of (found_of options.now)) (questions.Scored report) }
    ensures ok { IfOk result (IsScoring (rows_of (found_of options.now))) }
    ensures err { IfErr result (HasMisfitBeside (rows_of (found_of options.now))
        (questions.Scored report.entry)) }
{
    let file = text_of(options, "FILE");
    if is_named(options, "json") || (file == "-" && report == "-") {
        return Err(Misfit::Score);
    }
    let sure = is_named(options, "sure");
    Ok(Scoring {
        file,
        form,
        report,
        sure,
        strict: is_strict(options),
    })
}

// What is asked where the order of the events on these lines is.
fn reasoning<'w>(
    options: &ArgMatches<'w>,
    form: TraceForm,
    lines: &[&'w str],
) -> Result<Reasoning<'w>, Misfit>
    requires taken { IsRacesTaken (rows_of (found_of options.now)) }
    requires form { IsTraceForm (first_of (codes "as") (rows_of (found_of options.now))) form }
    requires asked { IsQuestion (rows_of (found_of options.now)) (questions.Reasoned lines) }
    ensures ok { IfOk result (IsReasoning (rows_of (found_of options.now))) }
    ensures err { IfErr result (HasMisfitBeside (rows_of (found_of options.now))
        (questions.Reasoned lines.entry)) }
{
    if is_named(options, "sure") || is_named(options, "json") {
        return Err(Misfit::Reasons);
    }
    match line_pair(lines) {
        Some(lines) => Ok(Reasoning {
            file: text_of(options, "FILE"),
            form,
            lines,
            strict: is_strict(options),
        }),
        None => Err(Misfit::ReasonLines),
    }
}

// What is asked where the accesses on these lines are to be shown to be a sure race.
fn witnessing<'w>(
    options: &ArgMatches<'w>,
    form: TraceForm,
    lines: &[&'w str],
) -> Result<Witnessing<'w>, Misfit>
    requires taken { IsRacesTaken (rows_of (found_of options.now)) }
    requires form { IsTraceForm (first_of (codes "as") (rows_of (found_of options.now))) form }
    requires asked { IsQuestion (rows_of (found_of options.now)) (questions.Witnessed lines) }
    ensures ok { IfOk result (IsWitnessing (rows_of (found_of options.now))) }
    ensures err { IfErr result (HasMisfitBeside (rows_of (found_of options.now))
        (questions.Witnessed lines.entry)) }
{
    let file = text_of(options, "FILE");
    if is_named(options, "sure") || is_named(options, "json") || file == "-" {
        return Err(Misfit::Witness);
    }
    match line_pair(lines) {
        Some(lines) => Ok(Witnessing {
            file,
            form,
            lines,
            strict: is_strict(options),
        }),
        None => Err(Misfit::WitnessLines),
    }
}

// The two lines that texts write, if they write two, the lesser one first.
fn line_pair(texts: &[&str]) -> Option<LinePair>
    ensures { MatchOption result ((lines : AnyLines)
        → ¬ AreLines (map (λ text. text.now) texts.now) lines)
        (AreLines (map (λ text. text.now) texts.now)) }
{
    match texts {
        [first, second] => pair_of(first, second),
        _ => None,
    }
}

fn pair_of(first: &str, second: &str) -> Option<LinePair>
    ensures { MatchOption result ((lines : AnyLines)
        → ¬ AreLines (first.now ∷ second.now ∷ []) lines)
        (AreLines (first.now ∷ second.now ∷ [])) }
{
    let Some(first) = line_of(first) else {
        return None;
    };
    let Some(second) = line_of(second) else {
        return None;
    };
    if first < second {
        Some(LinePair { first, second })
    } else {
        None
    }
}

// The number of a line that a text writes.
fn line_of(text: &str) -> Option<u64>
    ensures { MatchOption result ((line : ℕ) → ¬ IsLine text.now line) (λ line. (1 ≤ line) × IsLine text.now line) }
{
    match text.parse::<u64>() {
        Ok(line) if line > 0 => Some(line),
        _ => None,
    }
}

fn trace_form_named(word: &str) -> Result<TraceForm, Misfit>
    ensures ok { IfOk result (IsTraceForm (Some word.now)) }
    ensures err { IfErr result (λ misfit. (misfit ≡ unfit.TraceForm)
        × ((form : AnyTraceForm) → ¬ IsTraceForm (Some word.now) form)) }
{
    if word == "std" {
        Ok(TraceForm::Std)
    } else if word == "acts" {
        Ok(TraceForm::Acts)
    } else {
        Err(Misfit::TraceForm)
    }
}
