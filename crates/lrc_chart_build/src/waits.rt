// What a turn without an act is for.

ghost use Rattle.std.specs.Prelude.{◌≡◌, ◌++◌, [], IfOk, OnOk, codes, if◌then◌else◌, map};
ghost use Rattle.lrc_labels.specs.Reading.{label_seen};
ghost use Rattle.lrc_log.specs.Input.{seen_input};
ghost use Rattle.lrc_chart_build.specs.Counts.{AreCountsAt};
ghost use Rattle.lrc_chart_build.specs.Waits.{begins_collection, collects, first_wish, idle_kind, idle_words, kind_by, turn_kind, turn_words, wish_of};

use crate::counts::Counts;
use crate::course::Course;
use crate::pages::taken_before;
use crate::part::Place;
use crate::words::{deed_kind, push_act_words, push_lock};
use lrc_chart_model::Kind;
use lrc_chart_rows::TurnOf;
use lrc_envelope::{Envelope, Message};
use lrc_labels::label::Label;
use lrc_log::Input;
use lrc_text::push_number;
use lrc_trace::act::Act;
use std::alloc::{AllocError, Global};

// Adds what a request asks for.
fn push_wish(text: &mut Vec<u8>, labels: &[Label<'_>], message: &Message) -> Result<(), AllocError>
    ensures { OnOk result (text.new.items
        ≡ text.old.items ++ wish_of (map label_seen labels.now) message.now) }
{
    match message {
        Message::LockRequest(request) => push_lock(text, labels, b": lock ", request.lock),
        Message::LockForward(forward) => push_lock(text, labels, b": lock ", forward.lock),
        Message::ChangesRequest(request) => push_number(text, b": page ", u64::from(request.page)),
        Message::PageRequest(request) => push_number(text, b": page ", u64::from(request.page)),
        _ => Ok(()),
    }
}

// Adds what the first of the messages asks for.
fn push_first_wish(
    text: &mut Vec<u8>,
    labels: &[Label<'_>],
    out: &[Envelope],
) -> Result<(), AllocError>
    ensures { OnOk result (text.new.items
        ≡ text.old.items ++ first_wish (map label_seen labels.now) out.now) }
{
    match out {
        [envelope, ..] => push_wish(text, labels, &envelope.message),
        [] => Ok(()),
    }
}

fn collects(message: &Message) -> bool
    ensures { result ≡ collects message.now }
{
    match message {
        Message::Depart(depart) => depart.collect,
        _ => false,
    }
}

// Whether a turn at this position takes a departure from a barrier that collects, and no repeat of one.
fn begins_collection(turns: &[TurnOf<'_>], position: usize, input: &Input) -> bool
    ensures { result ≡ begins_collection turns.now position (seen_input input.now) }
{
    match input {
        Input::Run => false,
        Input::Taken(envelope) => {
            collects(&envelope.message) && !taken_before(turns, position, envelope)
        }
    }
}

fn push_collection(text: &mut Vec<u8>, collects: bool) -> Result<(), AllocError>
    ensures { OnOk result (text.new.items
        ≡ text.old.items ++ (if collects then codes "waits: collection" else [])) }
{
    if collects {
        text.extend_from_slice(b"waits: collection")?;
    }
    Ok(())
}

// Adds the words of a turn that makes no act.
fn push_idle_words(
    text: &mut Vec<u8>,
    labels: &[Label<'_>],
    collects: bool,
    input: &Input,
    out: &[Envelope],
) -> Result<(), AllocError>
    ensures { OnOk result (text.new.items
        ≡ text.old.items ++ idle_words (map label_seen labels.now) collects
        (seen_input input.now) out.now) }
{
    match input {
        Input::Run => {
            text.extend_from_slice(b"waits")?;
            push_first_wish(text, labels, out)
        }
        Input::Taken(_) => push_collection(text, collects),
    }
}

/// Returns a description of what a turn does, given the counts at its act.
pub(crate) fn turn_words(
    alloc: Global,
    course: &Course<'_>,
    counts: &Counts,
    place: Place,
    turn: &TurnOf<'_>,
) -> Result<Vec<u8>, AllocError>
    requires { AreCountsAt course.now.known.acts place.act counts.now }
    ensures { IfOk result (λ words. words.items ≡ turn_words course.now place turn.now) }
{
    let entry = turn.entry;
    let mut words = Vec::new(alloc);
    match entry.turn.act {
        Some(act) => push_act_words(&mut words, &course.known, counts, place.act, act.deed)?,
        None => {
            let collects = begins_collection(course.turns, place.turn, &entry.input);
            let labels = course.known.labels;
            push_idle_words(
                &mut words,
                labels,
                collects,
                &entry.input,
                entry.turn.out.as_slice(),
            )?
        }
    }
    Ok(words)
}

fn idle_kind(collects: bool, input: &Input) -> Kind
    ensures { result ≡ idle_kind collects (seen_input input.now) }
{
    match input {
        Input::Run => Kind::Wait,
        Input::Taken(_) => { if collects { Kind::Wait } else { Kind::Message } }
    }
}

fn kind_by(turns: &[TurnOf<'_>], position: usize, input: &Input, act: Option<Act>) -> Kind
    ensures { result ≡ kind_by turns.now position (seen_input input.now) act }
{
    match act {
        Some(act) => deed_kind(act.deed),
        None => idle_kind(begins_collection(turns, position, input), input),
    }
}

/// Returns the kind of row for the turn at a position.
pub(crate) fn turn_kind(turns: &[TurnOf<'_>], position: usize, turn: &TurnOf<'_>) -> Kind
    ensures { result ≡ turn_kind turns.now position turn.now }
{
    let entry = turn.entry;
    kind_by(turns, position, &entry.input, entry.turn.act)
}
