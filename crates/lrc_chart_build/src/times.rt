// Times of acts in words.

ghost use Rattle.std.specs.Prelude.{◌≡◌, ◌++◌, IfOk, OnOk, option_map};
ghost use Rattle.lrc_clock.specs.Times.{acts_at};
ghost use Rattle.lrc_timeline.specs.Timeline.{times_in};
ghost use Rattle.lrc_chart_build.specs.Words.{changes_since, entries_text, hint_text, hint_words, is_act_of, last_act, new_time_text, same_time};

use crate::course::Known;
use crate::part::Place;
use crate::words::line_at;
use lrc_acts_text::push_entries;
use lrc_text::push_number;
use lrc_time::Time;
use lrc_timeline::timeline::Timeline;
use lrc_trace::act::Act;
use std::alloc::{AllocError, Global};

fn acts_at(acts: &[Act], node: u8, position: usize) -> bool
    ensures { result ≡ acts_at acts.now node position }
{
    match acts.get(position) {
        Some(act) => act.node == node,
        None => false,
    }
}

fn is_act_of(acts: &[Act], node: u8, act: Option<usize>) -> bool
    ensures { result ≡ is_act_of acts.now node act }
{
    match act {
        Some(position) => acts_at(acts, node, position),
        None => false,
    }
}

// The position of the last act of a node in these rows.
fn last_act(acts: &[Act], node: u8, places: &[Place]) -> Option<usize>
    ensures { result ≡ last_act acts.now node places.now }
{
    let mut last = None;
    for place in places {
        if is_act_of(acts, node, place.act) {
            last = place.act;
        }
    }
    last
}

fn is_same(a: Option<&Time>, b: Option<&Time>) -> bool
    ensures { result ≡ same_time (option_map (λ time. time.now) a.entry)
        (option_map (λ time. time.now) b.entry) }
{
    match (a, b) {
        (Some(a), Some(b)) => a == b,
        _ => false,
    }
}

// Whether the time at a position is another one than at the position before.
fn changes_since(times: &Timeline, position: usize, before: Option<usize>) -> bool
    ensures { result ≡ changes_since (times_in times.now) position before }
{
    match before {
        Some(before) => !is_same(times.at(before), times.at(position)),
        None => true,
    }
}

fn push_entries_if(text: &mut Vec<u8>, time: Option<&Time>) -> Result<(), AllocError>
    ensures { OnOk result (text.new.items
        ≡ text.old.items ++ entries_text (option_map (λ time. time.now) time.entry)) }
{
    match time {
        Some(time) => push_entries(text, time),
        None => Ok(()),
    }
}

/// Returns the node's time just after its act at a position, if this is the node's first act shown, or if the time has
/// changed since its act shown before. `before` holds the rows above this one.
pub fn new_time_text(
    alloc: Global,
    known: &Known<'_>,
    before: &[Place],
    node: u8,
    act: Option<usize>,
) -> Result<Vec<u8>, AllocError>
    ensures { IfOk result (λ text. text.items ≡ new_time_text known.now before.now node act) }
{
    let mut text = Vec::new(alloc);
    if let Some(position) = act {
        let last = last_act(known.acts, node, before);
        if changes_since(known.times, position, last) {
            push_entries_if(&mut text, known.times.at(position))?;
        }
    }
    Ok(text)
}

fn push_hint(
    text: &mut Vec<u8>,
    position: usize,
    line: u32,
    time: Option<&Time>,
) -> Result<(), AllocError>
    ensures { OnOk result (text.new.items
        ≡ text.old.items ++ hint_words position line (option_map (λ time. time.now) time.entry)) }
{
    push_number(text, b"act ", position as u64)?;
    push_number(text, b", line ", u64::from(line))?;
    text.extend_from_slice(b", time ")?;
    push_entries_if(text, time)
}

/// Returns an act's position, its line, and its node's time just after it, in words; nothing if there is no act.
pub fn hint_text(
    alloc: Global,
    known: &Known<'_>,
    act: Option<usize>,
) -> Result<Vec<u8>, AllocError>
    ensures { IfOk result (λ text. text.items ≡ hint_text known.now act) }
{
    let mut text = Vec::new(alloc);
    if let Some(position) = act {
        let line = line_at(known.lines, position);
        push_hint(&mut text, position, line, known.times.at(position))?;
    }
    Ok(text)
}
