// Deeds in words, with labels.

ghost use Rattle.std.specs.Prelude.{◌≡◌, ◌++◌, OnOk, map};
ghost use Rattle.lrc_labels.specs.Reading.{label_seen};
ghost use Rattle.lrc_why_lines.specs.Deeds.{access_text, lock_text, shown_deed, word_text};

use lrc_labels::label::Label;
use lrc_labels::{push_lock_label, push_word_label};
use lrc_text::{push_deed, push_number};
use lrc_trace::act::Deed;
use std::alloc::AllocError;

#[tactic(auto, unfolding(crate::specs::Deeds::word_text))]
pub fn push_word(
    text: &mut Vec<u8>,
    labels: &[Label<'_>],
    name: &[u8],
    word: u32,
) -> Result<(), AllocError>
    ensures { OnOk result (text.new.items
        ≡ text.old.items ++ word_text (map label_seen labels.now) name.now word) }
{
    push_number(text, name, u64::from(word))?;
    push_word_label(text, labels, word)
}

#[tactic(auto, unfolding(crate::specs::Deeds::lock_text))]
pub fn push_lock(
    text: &mut Vec<u8>,
    labels: &[Label<'_>],
    name: &[u8],
    lock: u8,
) -> Result<(), AllocError>
    ensures { OnOk result (text.new.items
        ≡ text.old.items ++ lock_text (map label_seen labels.now) name.now lock) }
{
    push_number(text, name, u64::from(lock))?;
    push_lock_label(text, labels, lock)
}

#[tactic(auto, unfolding(crate::specs::Deeds::access_text))]
fn push_access(
    text: &mut Vec<u8>,
    labels: &[Label<'_>],
    name: &[u8],
    word: u32,
    value: u64,
) -> Result<(), AllocError>
    ensures { OnOk result (text.new.items
        ≡ text.old.items ++ access_text (map label_seen labels.now) name.now word value) }
{
    push_word(text, labels, name, word)?;
    push_number(text, b": ", value)
}

#[tactic(auto, unfolding(crate::specs::Deeds::shown_deed))]
/// Adds what an act does, with the labels of its word or lock.
pub(crate) fn push_shown_deed(
    text: &mut Vec<u8>,
    labels: &[Label<'_>],
    deed: Deed,
) -> Result<(), AllocError>
    ensures { OnOk result (text.new.items
        ≡ text.old.items ++ shown_deed (map label_seen labels.now) deed) }
{
    match deed {
        Deed::Read(word, value) => push_access(text, labels, b"read ", word, value),
        Deed::Write(word, value) => push_access(text, labels, b"write ", word, value),
        Deed::Acquire(lock) => push_lock(text, labels, b"acquire ", lock),
        Deed::Release(lock) => push_lock(text, labels, b"release ", lock),
        other => push_deed(text, other),
    }
}
