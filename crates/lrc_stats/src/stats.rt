// The counts of a run in words.

ghost use Rattle.std.specs.Prelude.{◌≡◌, ◌++◌, IfOk, OnOk};
ghost use Rattle.lrc_protocol.specs.Run.{turns_of_logs};
ghost use Rattle.lrc_stats.specs.Learned.{learned_intervals, learned_notices, repeats};
ghost use Rattle.lrc_stats.specs.Sent.{sent_messages};
ghost use Rattle.lrc_stats.specs.StatsText.{act_counts_text, acts_line, collections_line, count_line, kind_line, kinds_text};
ghost use Rattle.lrc_stats.specs.StatsText.{learned_lines, learned_text, message_counts_text, misses_line, sent_line, stats_text, turns_lines};
ghost use Rattle.lrc_stats.specs.Turns.{turn_count};

use crate::deed_kind::DeedKind;
use crate::learned::{Learned, collections, learned_by_all};
use crate::sent::{Sent, Wanted, sent_messages, total_of};
use crate::turns::{misses, turns_made, turns_making};
use lrc_log::Entry;
use lrc_messages::kind_name;
use lrc_text::push_number;
use lrc_wire::MessageKind;
use std::alloc::{AllocError, Global};

/// Returns the counts of a run, one on each line. `events` is the number of its events, and `logs` are the logs of its
/// nodes, from node 0 up. The lines tell events, events that made no turn, and turns; acts by their deeds; misses,
/// repeats, what was learned, and collections; and messages by their kinds, with their bytes.
pub fn stats_part(alloc: Global, events: u64, logs: &[Vec<Entry>]) -> Result<Vec<u8>, AllocError>
    ensures { IfOk result (λ part. part.items
        ≡ stats_text events (turns_of_logs logs.now)) }
{
    let mut text = Vec::new(alloc);
    push_turns(&mut text, events, logs)?;
    push_acts(&mut text, logs)?;
    push_misses(&mut text, logs)?;
    push_learned(alloc, &mut text, logs)?;
    push_all_sent(alloc, &mut text, logs)?;
    Ok(text)
}

#[tactic(auto, unfolding(crate::specs::StatsText::count_line))]
fn push_count(text: &mut Vec<u8>, words: &[u8], count: u64) -> Result<(), AllocError>
    ensures { OnOk result (text.new.items ≡ text.old.items ++ count_line words.now count) }
{
    text.extend_from_slice(words)?;
    push_number(text, b" ", count)?;
    text.extend_from_slice(b"\n")
}

fn push_turns(text: &mut Vec<u8>, events: u64, logs: &[Vec<Entry>]) -> Result<(), AllocError>
    ensures { OnOk result (text.new.items
        ≡ text.old.items ++ turns_lines events (turn_count (turns_of_logs logs.now))) }
{
    let turns = turns_made(logs)?;
    push_turn_counts(text, events, turns)
}

#[tactic(auto, unfolding(crate::specs::StatsText::turns_lines))]
fn push_turn_counts(text: &mut Vec<u8>, events: u64, turns: u64) -> Result<(), AllocError>
    ensures { OnOk result (text.new.items ≡ text.old.items ++ turns_lines events turns) }
{
    push_count(text, b"events", events)?;
    push_count(text, b"skipped", events.saturating_sub(turns))?;
    push_count(text, b"turns", turns)
}

fn push_acts(text: &mut Vec<u8>, logs: &[Vec<Entry>]) -> Result<(), AllocError>
    ensures { OnOk result (text.new.items
        ≡ text.old.items ++ act_counts_text (turns_of_logs logs.now)) }
{
    for kind in &DeedKind::ALL {
        push_acts_of(text, *kind, logs)?;
    }
    Ok(())
}

#[tactic(auto, unfolding(crate::specs::StatsText::acts_line))]
fn push_acts_of(text: &mut Vec<u8>, kind: DeedKind, logs: &[Vec<Entry>]) -> Result<(), AllocError>
    ensures { OnOk result (text.new.items
        ≡ text.old.items ++ acts_line (turns_of_logs logs.now) kind) }
{
    text.extend_from_slice(b"acts ")?;
    push_count(text, kind.name(), turns_making(kind, logs)?)
}

#[tactic(auto, unfolding(crate::specs::StatsText::misses_line))]
fn push_misses(text: &mut Vec<u8>, logs: &[Vec<Entry>]) -> Result<(), AllocError>
    ensures { OnOk result (text.new.items
        ≡ text.old.items ++ misses_line (turns_of_logs logs.now)) }
{
    push_count(text, b"misses", misses(logs)?)
}

#[tactic(auto, unfolding(crate::specs::StatsText::learned_text))]
fn push_learned(alloc: Global, text: &mut Vec<u8>, logs: &[Vec<Entry>]) -> Result<(), AllocError>
    ensures { OnOk result (text.new.items
        ≡ text.old.items ++ learned_text (turns_of_logs logs.now)) }
{
    push_told(alloc, text, logs)?;
    push_collections(alloc, text, logs)
}

fn push_told(alloc: Global, text: &mut Vec<u8>, logs: &[Vec<Entry>]) -> Result<(), AllocError>
    ensures { let all = turns_of_logs logs.now in
        OnOk result (text.new.items
        ≡ text.old.items ++ learned_lines (repeats all) (learned_intervals all)
        (learned_notices all)) }
{
    let learned = learned_by_all(alloc, logs)?;
    push_learned_counts(text, learned)
}

#[tactic(auto, unfolding(crate::specs::StatsText::learned_lines))]
fn push_learned_counts(text: &mut Vec<u8>, learned: Learned) -> Result<(), AllocError>
    ensures { OnOk result (text.new.items
        ≡ text.old.items ++ learned_lines learned.repeats learned.intervals learned.notices) }
{
    push_count(text, b"repeats", learned.repeats)?;
    push_count(text, b"intervals learned", learned.intervals)?;
    push_count(text, b"notices learned", learned.notices)
}

#[tactic(auto, unfolding(crate::specs::StatsText::collections_line))]
fn push_collections(
    alloc: Global,
    text: &mut Vec<u8>,
    logs: &[Vec<Entry>],
) -> Result<(), AllocError>
    ensures { OnOk result (text.new.items
        ≡ text.old.items ++ collections_line (turns_of_logs logs.now)) }
{
    push_count(text, b"collections", collections(alloc, logs)?)
}

fn push_all_sent(alloc: Global, text: &mut Vec<u8>, logs: &[Vec<Entry>]) -> Result<(), AllocError>
    ensures { OnOk result (text.new.items
        ≡ text.old.items ++ message_counts_text (sent_messages (turns_of_logs logs.now))) }
{
    let sent = sent_messages(alloc, logs)?;
    push_messages(text, &sent)
}

#[tactic(auto, unfolding(crate::specs::StatsText::message_counts_text))]
fn push_messages(text: &mut Vec<u8>, sent: &[Sent]) -> Result<(), AllocError>
    ensures { OnOk result (text.new.items ≡ text.old.items ++ message_counts_text sent.now) }
{
    push_kinds(text, sent)?;
    push_sent(text, b"all", Wanted::Each, sent)?;
    push_sent(text, b"to itself", Wanted::ToItself, sent)
}

// A line for each kind.
#[tactic(auto, unfolding(crate::specs::StatsText::kinds_text))]
fn push_kinds(text: &mut Vec<u8>, sent: &[Sent]) -> Result<(), AllocError>
    ensures { OnOk result (text.new.items ≡ text.old.items ++ kinds_text sent.now) }
{
    for kind in &MessageKind::ALL {
        push_kind(text, *kind, sent)?;
    }
    Ok(())
}

fn push_kind(text: &mut Vec<u8>, kind: MessageKind, sent: &[Sent]) -> Result<(), AllocError>
    ensures { OnOk result (text.new.items ≡ text.old.items ++ kind_line sent.now kind) }
{
    push_sent(text, kind_name(kind), Wanted::Kind(kind), sent)
}

#[tactic(auto, unfolding(crate::specs::StatsText::sent_line))]
fn push_sent(
    text: &mut Vec<u8>,
    words: &[u8],
    wanted: Wanted,
    sent: &[Sent],
) -> Result<(), AllocError>
    ensures { OnOk result (text.new.items ≡ text.old.items ++ sent_line words.now wanted sent.now) }
{
    let total = total_of(wanted, sent)?;
    text.extend_from_slice(b"messages ")?;
    text.extend_from_slice(words)?;
    push_number(text, b" ", total.count)?;
    push_number(text, b" ", total.bytes)?;
    text.extend_from_slice(b"\n")
}
