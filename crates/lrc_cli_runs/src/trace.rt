// Traces of a run.

ghost use Rattle.std.specs.Prelude.{◌≡◌, ◌≢◌, ℕ, IfErr, IfOk, List, length, map};
ghost use Rattle.lrc_protocol.specs.Run.{turns_of_logs};
ghost use Rattle.lrc_cli_answer.specs.Labels.{labels_in};
ghost use Rattle.lrc_cli_runs.specs.Lines.{AreLinesIn};
ghost use Rattle.lrc_cli_runs.specs.Runs.{IsRunWith, turns_in};
ghost use Rattle.lrc_world.specs.declared.keep.Keep.TheVariants.{All as Whole};
ghost use Rattle.lrc_cli_runs.specs.Shown.{IsBytes, IsFormShown, IsRunFor, IsTraceFault, IsTraceShown, IsWrittenAs};
ghost use Rattle.lrc_cli_args.specs.declared.choice.Form.TheVariants.{Bytes, States};
ghost use Rattle.lrc_cli_args.specs.declared.choice.Part.{Part as ShownPart};
ghost use Rattle.lrc_cli_args.specs.declared.choice.RunOptions.{RunOptions as AnyOptions};
ghost use Rattle.lrc_cli_args.specs.declared.choice.Shape.TheVariants.{Trace};
ghost use Rattle.lrc_program.specs.declared.Program.{Program as AnyProgram};
ghost use Rattle.lrc_lines.specs.Statements.{act_statements};
ghost use Rattle.lrc_timeline.specs.Timeline.{times_in};
ghost use Rattle.lrc_trace.specs.declared.act.Act.{Act as AnyAct};
ghost use Rattle.lrc_events.specs.Writing.{events_text};
ghost use Rattle.lrc_acts_text.specs.Json.{json_of_acts};
ghost use Rattle.lrc_text.specs.Parts.{whole_text};
ghost use Rattle.lrc_turns_text.specs.TurnsText.{messages_text};

use crate::stated::stated;
use lrc_acts_text::{acts_part, json_part, rapid_part};
use lrc_bytes_turns::{Section, bytes_part};
use lrc_chart_rows::turns_of;
use lrc_cli_answer::fault::Fault;
use lrc_cli_answer::printout::in_one;
use lrc_cli_args::choice::{Form, Part, RunOptions};
use lrc_events::events_part;
use lrc_lines::statements::lines_of_statements;
use lrc_log::Entry;
use lrc_protocol::Event;
use lrc_source::source::Source;
use lrc_states::Telling;
use lrc_turns_text::messages_part;
use lrc_world::run::Run;
use lrc_world::turned::Turned;
use std::alloc::{AllocError, Global};

/// Returns a trace of a run of the program of this source, in the chosen form.
pub(crate) fn traced(
    alloc: Global,
    form: Form,
    source: &Source<'_>,
    options: &RunOptions<'_>,
    run: &Run,
) -> Result<Vec<Vec<u8>>, Fault>
    requires { IsRunFor (Trace form) source.now.program options.now run.now }
    ensures ok { IfOk result (λ parts. IsTraceShown form source.now.text source.now.program
        options.now run.now (whole_text parts.items)) }
    ensures err { IfErr result (IsTraceFault form source.now.text source.now.program options.now
        run.now) }
{
    match form {
        Form::States(part) => stated(alloc, Telling::InWords, part, source, options, run),
        Form::Bytes(part) => Ok(bytes_parts(alloc, part, run)?),
        Form::Acts | Form::Messages | Form::Events | Form::Json | Form::Rapid => {
            Ok(trace_parts(alloc, form, source, options, run)?)
        }
    }
}

// A trace in a form that is one of acts, messages or events.
fn trace_parts(
    alloc: Global,
    form: Form,
    source: &Source<'_>,
    options: &RunOptions<'_>,
    run: &Run,
) -> Result<Vec<Vec<u8>>, AllocError>
    requires ran { IsRunWith source.now.program options.now Whole run.now }
    requires stateless { (part : ShownPart) → form ≢ States part }
    requires byteless { (part : ShownPart) → form ≢ Bytes part }
    ensures { IfOk result (λ parts. IsFormShown form source.now.text source.now.program
        options.now run.now (whole_text parts.items)) }
{
    let lines = lines_kept(alloc, source, &run.origins.statements)?;
    let part = form_part(alloc, form, source, options, run, &lines)?;
    in_one(alloc, part)
}

// A run in one of the forms, with these lines of its acts.
fn form_part(
    alloc: Global,
    form: Form,
    source: &Source<'_>,
    options: &RunOptions<'_>,
    run: &Run,
    lines: &[u32],
) -> Result<Vec<u8>, AllocError>
    requires ran { IsRunWith source.now.program options.now Whole run.now }
    requires each { length lines.now ≡ length run.now.report.acts.items }
    requires stateless { (part : ShownPart) → form ≢ States part }
    requires byteless { (part : ShownPart) → form ≢ Bytes part }
    ensures { IfOk result (λ part. IsWrittenAs form source.now.text source.now.program
        options.now run.now lines.now part.items) }
{
    let acts = run.report.acts.as_slice();
    let logs = run.report.logs.as_slice();
    let turns = run.turned.as_slice();
    let nodes = options.nodes.count as u8;
    match form {
        Form::Acts => acts_part(alloc, acts, lines),
        Form::Messages => messages_of(alloc, logs, turns, lines),
        Form::Events => events_of(alloc, turns),
        Form::Json => json_of(alloc, source, run, lines),
        Form::Rapid => rapid_part(alloc, acts, lines, source.program().locks, nodes),
        Form::States(_) | Form::Bytes(_) => unreachable!(),
    }
}

// The acts of the logs with the messages among them, in the order of these turns.
fn messages_of(
    alloc: Global,
    logs: &[Vec<Entry>],
    turns: &[Turned],
    lines: &[u32],
) -> Result<Vec<u8>, AllocError>
    ensures { IfOk result (λ part. part.items ≡ messages_text (turns_of_logs logs.now)
        (map (λ turn. turn.node) turns.now) lines.now) }
{
    let order: Vec<u8> = turns.iter().map(|turn| turn.node).collect(alloc)?;
    messages_part(alloc, logs, &order, lines)
}

// The turns of a part of a run of which all is kept, each with the bytes of its messages.
fn bytes_parts(alloc: Global, part: Part, run: &Run) -> Result<Vec<Vec<u8>>, AllocError>
    ensures { (program : AnyProgram) (options : AnyOptions)
        → IsRunWith program options Whole run.now
        → IfOk result (λ parts. IsBytes part run.now.report
        (turns_in program options run.now.events.items) (whole_text parts.items)) }
{
    let bytes = bytes_of(alloc, part, run)?;
    in_one(alloc, bytes)
}

// The same in one text, of the events that are kept.
fn bytes_of(alloc: Global, part: Part, run: &Run) -> Result<Vec<u8>, AllocError>
    ensures { IfOk result (λ bytes. IsBytes part run.now.report run.now.turned.items bytes.items) }
{
    let turned = run.turned.as_slice();
    let events = events_in(alloc, turned)?;
    let order = nodes_in(alloc, turned)?;
    let turns = turns_of(alloc, &run.report.logs, &order)?;
    bytes_part(alloc, section_of(part, &events), &turns)
}

// The events that these turns answer.
fn events_in(alloc: Global, turns: &[Turned]) -> Result<Vec<Event>, AllocError>
    ensures { IfOk result (λ events. events.items ≡ map (λ turn. turn.event) turns.now) }
{
    let events = turns.iter().map(|turn| turn.event).collect(alloc)?;
    Ok(events)
}

// The nodes that make these turns.
fn nodes_in(alloc: Global, turns: &[Turned]) -> Result<Vec<u8>, AllocError>
    ensures { IfOk result (λ nodes. nodes.items ≡ map (λ turn. turn.node) turns.now) }
{
    let nodes = turns.iter().map(|turn| turn.node).collect(alloc)?;
    Ok(nodes)
}

// The part of a run with these events.
fn section_of(part: Part, events: &[Event]) -> Section<'_>
    ensures events { result.events.now ≡ events.entry.now }
    ensures from { result.from ≡ part.from }
    ensures to { result.to ≡ part.to }
{
    Section {
        events,
        from: part.from,
        to: part.to,
    }
}

// The events of these turns.
fn events_of(alloc: Global, turns: &[Turned]) -> Result<Vec<u8>, AllocError>
    ensures { IfOk result (λ part. part.items ≡ events_text (map (λ turn. turn.event) turns.now)) }
{
    let mut events: Vec<Event> = Vec::new(alloc);
    for turn in turns {
        events.push(turn.event)?;
    }
    events_part(alloc, &events)
}

// The acts of a run as JSON, each with the time that its node has just after it, and with the labels of the program's text.
fn json_of(
    alloc: Global,
    source: &Source<'_>,
    run: &Run,
    lines: &[u32],
) -> Result<Vec<u8>, AllocError>
    requires lined { length lines.now ≡ length run.now.report.acts.items }
    requires timed { length (times_in run.now.origins.times) ≡ length run.now.report.acts.items }
    ensures { IfOk result (λ part. part.items
        ≡ json_of_acts (labels_in source.now.text.core source.now.program) run.now.report.acts.items
        lines.now (times_in run.now.origins.times)) }
{
    let acts = run.report.acts.as_slice();
    json_part(alloc, source.labels(), acts, lines, &run.origins.times)
}

/// Returns, for each act of a run of which all is kept, the line of the text that holds the act's statement.
pub(crate) fn lines_kept(
    alloc: Global,
    source: &Source<'_>,
    statements: &[u32],
) -> Result<Vec<u32>, AllocError>
    ensures lines { IfOk result (λ lines. (nodes : ℕ) (acts : List AnyAct)
        → statements.now ≡ act_statements source.now.program nodes acts
        → AreLinesIn source.now.text source.now.program nodes acts lines.items) }
    ensures each { IfOk result (λ lines. length lines.items ≡ length statements.now) }
{
    lines_of_statements(alloc, source.lines(), statements)
}
