// What is written of an act, but for its time.

ghost use Rattle.std.specs.Prelude.{◌≡◌, ◌++◌, IfOk, OnOk, map, slice_index};
ghost use Rattle.lrc_labels.specs.Reading.{label_seen};
ghost use Rattle.lrc_chart_build.specs.Counts.{AreCountsAt};
ghost use Rattle.lrc_chart_build.specs.Words.{access_words, act_closes, act_place_text, act_words, deed_kind, deed_words, lock_words, place_words};

use crate::bands::barrier_at;
use crate::counts::{Counts, closes_interval};
use crate::course::Known;
use lrc_chart_model::Kind;
use lrc_labels::label::Label;
use lrc_labels::{push_lock_label, push_word_label};
use lrc_text::{push_deed, push_number};
use lrc_trace::act::{Act, Deed};
use std::alloc::{AllocError, Global};

fn push_access(
    text: &mut Vec<u8>,
    labels: &[Label<'_>],
    name: &[u8],
    word: u32,
    value: u64,
) -> Result<(), AllocError>
    ensures { OnOk result (text.new.items
        ≡ text.old.items ++ access_words (map label_seen labels.now) name.now word value) }
{
    push_number(text, name, u64::from(word))?;
    push_word_label(text, labels, word)?;
    push_number(text, b": ", value)
}

/// Adds what a deed does with a lock, and the lock with its label.
pub(crate) fn push_lock(
    text: &mut Vec<u8>,
    labels: &[Label<'_>],
    name: &[u8],
    lock: u8,
) -> Result<(), AllocError>
    ensures { OnOk result (text.new.items
        ≡ text.old.items ++ lock_words (map label_seen labels.now) name.now lock) }
{
    push_number(text, name, u64::from(lock))?;
    push_lock_label(text, labels, lock)
}

fn push_deed_words(
    text: &mut Vec<u8>,
    labels: &[Label<'_>],
    barrier: u64,
    deed: Deed,
) -> Result<(), AllocError>
    ensures { OnOk result (text.new.items
        ≡ text.old.items ++ deed_words (map label_seen labels.now) barrier deed) }
{
    match deed {
        Deed::Read(word, value) => push_access(text, labels, b"read ", word, value),
        Deed::Write(word, value) => push_access(text, labels, b"write ", word, value),
        Deed::Acquire(lock) => push_lock(text, labels, b"acquire ", lock),
        Deed::Release(lock) => push_lock(text, labels, b"release ", lock),
        Deed::Arrive => push_number(text, b"arrive ", barrier),
        Deed::Depart => push_number(text, b"depart ", barrier),
        _ => push_deed(text, deed),
    }
}

/// Adds the deed of the act at a position, in words, given the counts there.
pub fn push_act_words(
    text: &mut Vec<u8>,
    known: &Known<'_>,
    counts: &Counts,
    position: Option<usize>,
    deed: Deed,
) -> Result<(), AllocError>
    requires { AreCountsAt known.now.acts position counts.now }
    ensures { OnOk result (text.new.items ≡ text.old.items ++ act_words known.now position deed) }
{
    let barrier = barrier_at(known.acts, counts, position);
    push_deed_words(text, known.labels, barrier, deed)
}

/// Returns the kind of row for a deed.
pub fn deed_kind(deed: Deed) -> Kind
    ensures { result ≡ deed_kind deed }
{
    match deed {
        Deed::Arrive | Deed::Depart => Kind::Barrier,
        Deed::Trap(_) => Kind::Trap,
        _ => Kind::Act,
    }
}

/// Returns whether an act closes an interval.
pub fn act_closes(act: Option<Act>) -> bool
    ensures { result ≡ act_closes act }
{
    match act {
        Some(act) => closes_interval(act.deed),
        None => false,
    }
}

/// Returns the line at a position, or 0 if there is none.
pub(crate) fn line_at(lines: &[u32], position: usize) -> u32
    ensures { result ≡ slice_index lines.now position }
{
    if position < lines.len() {
        lines[position]
    } else {
        0
    }
}

fn push_place(text: &mut Vec<u8>, line: u32, interval: u64) -> Result<(), AllocError>
    ensures { OnOk result (text.new.items ≡ text.old.items ++ place_words line interval) }
{
    push_number(text, b"line ", u64::from(line))?;
    push_number(text, b", interval ", interval)
}

/// Returns the line and the interval of a node's act at a position, given the counts there.
pub fn act_place_text(
    alloc: Global,
    known: &Known<'_>,
    counts: &Counts,
    node: u8,
    act: Option<usize>,
) -> Result<Vec<u8>, AllocError>
    requires { AreCountsAt known.now.acts act counts.now }
    ensures { IfOk result (λ text. text.items ≡ act_place_text known.now node act) }
{
    let mut text = Vec::new(alloc);
    if let Some(position) = act {
        let line = line_at(known.lines, position);
        push_place(&mut text, line, counts.interval(node))?;
    }
    Ok(text)
}
