// Acts as JSON.

ghost use Rattle.std.specs.Prelude.{◌≡◌, ◌++◌, IfOk, OnErr, OnOk, length, map};
ghost use Rattle.lrc_labels.specs.Reading.{label_seen};
ghost use Rattle.lrc_text.specs.Front.{BeginsWith};
ghost use Rattle.lrc_timeline.specs.Timeline.{times_in};
ghost use Rattle.lrc_trace.specs.Interval.{closes};
ghost use Rattle.lrc_acts_text.specs.Json.{access_members, act_json, deed_json, deed_members, entry_text, lock_members};
ghost use Rattle.lrc_acts_text.specs.Json.{json_line, json_of_acts, place_json, time_json, with_commas};

use crate::tally::Tally;
use lrc_labels::label::Label;
use lrc_labels::{push_lock_member, push_word_member};
use lrc_text::{deed_name, push_number};
use lrc_time::Time;
use lrc_timeline::timeline::Timeline;
use lrc_trace::act::{Act, Deed};
use std::alloc::{AllocError, Global};

/// Returns a JSON object for each act, in order, one on each line. An object has the act's line of the program's text,
/// its interval, and its node's vector time just after it. The label of a word or lock is a member behind its number.
pub fn json_part(
    alloc: Global,
    labels: &[Label<'_>],
    acts: &[Act],
    lines: &[u32],
    times: &Timeline,
) -> Result<Vec<u8>, AllocError>
    requires lined { length lines.now ≡ length acts.now }
    requires timed { length (times_in times.now) ≡ length acts.now }
    ensures { IfOk result (λ part. part.items
        ≡ json_of_acts (map label_seen labels.now) acts.now lines.now (times_in times.now)) }
{
    let mut text = Vec::new(alloc);
    let mut closes = Tally::new();
    for (position, act) in acts.iter().enumerate() {
        let place = Place {
            position: position as u64,
            line: lines[position],
            interval: 1 + closes.of(act.node),
        };
        let time = times.at(position).unwrap();
        push_json_line(&mut text, labels, *act, place, time)?;
        closes.note(act.node, closes_interval(act.deed));
    }
    Ok(text)
}

// Where an act stands: in the run, in the text, and in its node's course.
#[derive(Clone, Copy)]
struct Place {
    position: u64,
    line: u32,
    interval: u64,
}

fn closes_interval(deed: Deed) -> bool
    ensures { result ≡ closes deed }
{
    matches!(deed, Deed::Acquire(_) | Deed::Release(_) | Deed::Arrive)
}

fn push_json_line(
    text: &mut Vec<u8>,
    labels: &[Label<'_>],
    act: Act,
    place: Place,
    time: &Time,
) -> Result<(), AllocError>
    ensures { OnOk result (text.new.items
        ≡ text.old.items ++ json_line
        (map label_seen labels.now) place.position act place.line place.interval time.now) }
{
    text.extend_from_slice(b"{")?;
    push_act(text, labels, act, place.position)?;
    push_place(text, place)?;
    push_time(text, time)?;
    text.extend_from_slice(b"}\n")
}

fn push_act(
    text: &mut Vec<u8>,
    labels: &[Label<'_>],
    act: Act,
    position: u64,
) -> Result<(), AllocError>
    ensures { OnOk result (text.new.items
        ≡ text.old.items ++ act_json (map label_seen labels.now) position act) }
{
    push_number(text, b"\"act\":", position)?;
    push_number(text, b",\"node\":", u64::from(act.node))?;
    push_deed(text, labels, act.deed)
}

fn push_place(text: &mut Vec<u8>, place: Place) -> Result<(), AllocError>
    ensures { OnOk result (text.new.items
        ≡ text.old.items ++ place_json place.line place.interval) }
{
    push_number(text, b",\"line\":", u64::from(place.line))?;
    push_number(text, b",\"interval\":", place.interval)
}

// Adds the name of a deed, and what it has.
fn push_deed(text: &mut Vec<u8>, labels: &[Label<'_>], deed: Deed) -> Result<(), AllocError>
    ensures { OnOk result (text.new.items
        ≡ text.old.items ++ deed_json (map label_seen labels.now) deed) }
{
    text.extend_from_slice(b",\"deed\":\"")?;
    text.extend_from_slice(deed_name(deed))?;
    text.extend_from_slice(b"\"")?;
    push_members(text, labels, deed)
}

fn push_members(text: &mut Vec<u8>, labels: &[Label<'_>], deed: Deed) -> Result<(), AllocError>
    ensures { OnOk result (text.new.items
        ≡ text.old.items ++ deed_members (map label_seen labels.now) deed) }
{
    match deed {
        Deed::Print(value) => push_number(text, b",\"value\":", value),
        Deed::Read(word, value) | Deed::Write(word, value) => {
            push_access(text, labels, word, value)
        }
        Deed::Acquire(lock) | Deed::Release(lock) => push_lock(text, labels, lock),
        Deed::Trap(cause) => push_number(text, b",\"cause\":", u64::from(cause as u8)),
        _ => Ok(()),
    }
}

fn push_lock(text: &mut Vec<u8>, labels: &[Label<'_>], lock: u8) -> Result<(), AllocError>
    ensures { OnOk result (text.new.items
        ≡ text.old.items ++ lock_members (map label_seen labels.now) lock) }
{
    push_number(text, b",\"lock\":", u64::from(lock))?;
    push_lock_member(text, labels, lock)
}

fn push_access(
    text: &mut Vec<u8>,
    labels: &[Label<'_>],
    word: u32,
    value: u64,
) -> Result<(), AllocError>
    ensures { OnOk result (text.new.items
        ≡ text.old.items ++ access_members (map label_seen labels.now) word value) }
{
    push_number(text, b",\"word\":", u64::from(word))?;
    push_word_member(text, labels, word)?;
    push_number(text, b",\"value\":", value)
}

fn push_time(text: &mut Vec<u8>, time: &Time) -> Result<(), AllocError>
    ensures { OnOk result (text.new.items ≡ text.old.items ++ time_json time.now) }
{
    text.extend_from_slice(b",\"time\":[")?;
    push_entries(text, time)?;
    text.extend_from_slice(b"]")
}

/// Adds the entries of a vector time, separated by commas.
pub fn push_entries(text: &mut Vec<u8>, time: &Time) -> Result<(), AllocError>
    ensures ok { OnOk result (text.new.items ≡ text.old.items ++ with_commas time.now) }
    ensures err { OnErr result (BeginsWith text.new.items text.old.items) }
{
    for node in 0..time.nodes() {
        push_entry(text, node, time.at(node))?;
    }
    Ok(())
}

fn push_entry(text: &mut Vec<u8>, place: u8, number: u32) -> Result<(), AllocError>
    ensures ok { OnOk result (text.new.items ≡ text.old.items ++ entry_text place number) }
    ensures err { OnErr result (BeginsWith text.new.items text.old.items) }
{
    if place == 0 {
        push_number(text, b"", u64::from(number))
    } else {
        push_number(text, b",", u64::from(number))
    }
}
