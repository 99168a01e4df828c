// What comes next of a node, in words.

ghost use Rattle.std.specs.Prelude.{◌≡◌, ◌∷◌, ◌++◌, OnErr, OnOk, codes, map};
ghost use Rattle.lrc_text.specs.Front.{BeginsWith};
ghost use Rattle.lrc_labels.specs.Reading.{label_seen};
ghost use Rattle.lrc_named_core.specs.View.{trap_of};
ghost use Rattle.lrc_explain_waits.specs.Words.{acquire_words, barrier_words, by_words, coming_words, fate_mark, held_words, holder_words, missing_words, others_words, since_words, trap_words};

use crate::holder::Holder;
use crate::missing::{Missing, missing_nodes};
use crate::stand::{Coming, Fate, Stand};
use lrc_labels::label::Label;
use lrc_labels::{push_numbered_lock, push_numbered_word};
use lrc_named_core::tree::Trap;
use lrc_text::push_number;
use lrc_trace::act::Cause;
use lrc_trap_words::push_cause;
use std::alloc::{AllocError, Global};

fn push_trap(text: &mut Vec<u8>, trap: Trap<'_>, cause: Cause) -> Result<(), AllocError>
    ensures ok { OnOk result (text.new.items
        ≡ text.old.items ++ trap_words (trap_of trap.entry) cause) }
    ensures err { OnErr result (BeginsWith text.new.items text.old.items) }
{
    push_number(text, b"trap ", u64::from(cause as u8))?;
    text.extend_from_slice(b", ")?;
    push_cause(text, trap, cause)
}

fn push_by(text: &mut Vec<u8>, node: u64) -> Result<(), AllocError>
    ensures ok { OnOk result (text.new.items ≡ text.old.items ++ by_words node) }
    ensures err { OnErr result (BeginsWith text.new.items text.old.items) }
{
    push_number(text, b", held by node ", node)
}

fn push_since(text: &mut Vec<u8>, line: u64) -> Result<(), AllocError>
    ensures ok { OnOk result (text.new.items ≡ text.old.items ++ since_words line) }
    ensures err { OnErr result (BeginsWith text.new.items text.old.items) }
{
    push_number(text, b" since line ", line)
}

fn push_held(text: &mut Vec<u8>, holder: Holder) -> Result<(), AllocError>
    ensures ok { OnOk result (text.new.items ≡ text.old.items ++ held_words holder) }
    ensures err { OnErr result (BeginsWith text.new.items text.old.items) }
{
    push_by(text, u64::from(holder.node))?;
    push_since(text, u64::from(holder.line))
}

fn push_free(text: &mut Vec<u8>) -> Result<(), AllocError>
    ensures ok { OnOk result (text.new.items ≡ text.old.items ++ codes ", held by nobody") }
    ensures err { OnErr result (BeginsWith text.new.items text.old.items) }
{
    text.extend_from_slice(b", held by nobody")
}

fn push_holder(text: &mut Vec<u8>, holder: Option<Holder>) -> Result<(), AllocError>
    ensures ok { OnOk result (text.new.items ≡ text.old.items ++ holder_words holder) }
    ensures err { OnErr result (BeginsWith text.new.items text.old.items) }
{
    match holder {
        Some(holder) => push_held(text, holder),
        None => push_free(text),
    }
}

fn push_acquire(
    text: &mut Vec<u8>,
    labels: &[Label<'_>],
    lock: u8,
    holder: Option<Holder>,
) -> Result<(), AllocError>
    ensures ok { OnOk result (text.new.items
        ≡ text.old.items ++ acquire_words (map label_seen labels.now) lock holder) }
    ensures err { OnErr result (BeginsWith text.new.items text.old.items) }
{
    push_numbered_lock(text, labels, b"acquire ", lock)?;
    push_holder(text, holder)
}

fn mark_of(fate: Fate) -> &'static [u8]
    ensures { result.now ≡ fate_mark fate }
{
    match fate {
        Fate::Ended => b" (ended)",
        Fate::Trapped(_) => b" (trapped)",
        Fate::Unfinished => b"",
    }
}

fn push_missing(text: &mut Vec<u8>, missing: Missing) -> Result<(), AllocError>
    ensures ok { OnOk result (text.new.items ≡ text.old.items ++ missing_words missing) }
    ensures err { OnErr result (BeginsWith text.new.items text.old.items) }
{
    push_number(text, b"node ", missing.node as u64)?;
    text.extend_from_slice(mark_of(missing.fate))
}

fn push_others(text: &mut Vec<u8>, others: &[Missing]) -> Result<(), AllocError>
    ensures ok { OnOk result (text.new.items ≡ text.old.items ++ others_words others.now) }
    ensures err { OnErr result (BeginsWith text.new.items text.old.items) }
{
    for missing in others {
        text.extend_from_slice(b", ")?;
        push_missing(text, *missing)?;
    }
    Ok(())
}

fn push_without(text: &mut Vec<u8>, first: Missing, others: &[Missing]) -> Result<(), AllocError>
    ensures ok { OnOk result (text.new.items
        ≡ text.old.items ++ barrier_words (first ∷ others.now)) }
    ensures err { OnErr result (BeginsWith text.new.items text.old.items) }
{
    text.extend_from_slice(b", without ")?;
    push_missing(text, first)?;
    push_others(text, others)
}

fn push_barrier(text: &mut Vec<u8>, missing: &[Missing]) -> Result<(), AllocError>
    ensures ok { OnOk result (text.new.items ≡ text.old.items ++ barrier_words missing.now) }
    ensures err { OnErr result (BeginsWith text.new.items text.old.items) }
{
    match missing.split_first() {
        Some((first, others)) => push_without(text, *first, others),
        None => text.extend_from_slice(b", reached by all others"),
    }
}

/// Adds what comes next at node `me`; of a trap of its statement the text says this.
pub(crate) fn push_coming(
    alloc: Global,
    text: &mut Vec<u8>,
    labels: &[Label<'_>],
    trap: Trap<'_>,
    stands: &[Stand],
    me: usize,
    coming: Coming,
) -> Result<(), AllocError>
    ensures ok { OnOk result (text.new.items
        ≡ text.old.items
        ++ coming_words (map label_seen labels.now) (trap_of trap.entry) stands.now me coming) }
    ensures err { OnErr result (BeginsWith text.new.items text.old.items) }
{
    match coming {
        Coming::StepsUsedUp => text.extend_from_slice(b"steps used up"),
        Coming::Trap(cause) => push_trap(text, trap, cause),
        Coming::Acquire(lock, holder) => push_acquire(text, labels, lock, holder),
        Coming::Barrier(number) => {
            let missing = missing_nodes(alloc, number, me, stands)?;
            push_number(text, b"barrier ", number as u64)?;
            push_barrier(text, &missing)
        }
        Coming::Read(word) => push_numbered_word(text, labels, b"read of word ", word),
        Coming::Write(word) => push_numbered_word(text, labels, b"write of word ", word),
        Coming::Print => text.extend_from_slice(b"print"),
        Coming::Release(lock) => push_numbered_lock(text, labels, b"release ", lock),
        Coming::Quiet => text.extend_from_slice(b"assignment or condition"),
        Coming::End => text.extend_from_slice(b"end"),
    }
}
