// Labels behind the numbers of words and locks.

ghost use Rattle.std.specs.Prelude.{◌≡◌, ◌++◌, OnErr, OnOk, find, map, option_map};
ghost use Rattle.std.specs.List.{flat_map};
ghost use Rattle.lrc_text.specs.Front.{BeginsWith};
ghost use Rattle.lrc_labels.specs.Reading.{label_seen};
ghost use Rattle.lrc_labels.specs.Show.{index_text, lock_label_member, lock_label_text, member_text, name_of, names_lock, names_word, numbered_lock};
ghost use Rattle.lrc_labels.specs.Show.{numbered_word, place_text, shown_text, word_label_member, word_label_text};
ghost use Rattle.lrc_labels.specs.Sizes.{indices};

use crate::label::{Label, Target};
use crate::sizes::indices_of;
use lrc_text::push_number;
use std::alloc::AllocError;

/// Appends ` (LABEL)` after the number of a word, if one of the labels names the word. The label is `NAME`; under `words`
/// it is `NAME[I]`, where I is the word's place among its words, or `NAME[I][J]` and so on, if its label has sizes. It
/// fails if memory runs out; then only part of it may have been appended.
pub fn push_word_label(
    text: &mut Vec<u8>,
    labels: &[Label<'_>],
    word: u32,
) -> Result<(), AllocError>
    ensures ok { OnOk result (text.new.items
        ≡ text.old.items ++ word_label_text (map label_seen labels.now) word) }
    ensures err { OnErr result (BeginsWith text.new.items text.old.items) }
{
    match label_of_word(labels, word) {
        Some(label) => push_shown(text, label, word),
        None => Ok(()),
    }
}

/// Appends ` (LABEL)` after the number of a lock, if one of the labels names the lock. It fails if memory runs out;
/// then only part of it may have been appended.
pub fn push_lock_label(text: &mut Vec<u8>, labels: &[Label<'_>], lock: u8) -> Result<(), AllocError>
    ensures ok { OnOk result (text.new.items
        ≡ text.old.items ++ lock_label_text (map label_seen labels.now) lock) }
    ensures err { OnErr result (BeginsWith text.new.items text.old.items) }
{
    match label_of_lock(labels, lock) {
        Some(label) => push_shown(text, label, u32::from(lock)),
        None => Ok(()),
    }
}

/// Appends a name, the number of a word, and the word's label. It fails if memory runs out; then only part of it may
/// have been appended.
pub fn push_numbered_word(
    text: &mut Vec<u8>,
    labels: &[Label<'_>],
    name: &[u8],
    word: u32,
) -> Result<(), AllocError>
    ensures ok { OnOk result (text.new.items
        ≡ text.old.items ++ numbered_word (map label_seen labels.now) name.now word) }
    ensures err { OnErr result (BeginsWith text.new.items text.old.items) }
{
    push_number(text, name, u64::from(word))?;
    push_word_label(text, labels, word)
}

/// Appends a name, the number of a lock, and the lock's label. It fails if memory runs out; then only part of it may
/// have been appended.
pub fn push_numbered_lock(
    text: &mut Vec<u8>,
    labels: &[Label<'_>],
    name: &[u8],
    lock: u8,
) -> Result<(), AllocError>
    ensures ok { OnOk result (text.new.items
        ≡ text.old.items ++ numbered_lock (map label_seen labels.now) name.now lock) }
    ensures err { OnErr result (BeginsWith text.new.items text.old.items) }
{
    push_number(text, name, u64::from(lock))?;
    push_lock_label(text, labels, lock)
}

/// Appends the label of a word as a member of a JSON object, if one of the labels names the word. It fails only if
/// memory runs out.
pub fn push_word_member(
    text: &mut Vec<u8>,
    labels: &[Label<'_>],
    word: u32,
) -> Result<(), AllocError>
    ensures { OnOk result (text.new.items
        ≡ text.old.items ++ word_label_member (map label_seen labels.now) word) }
{
    match label_of_word(labels, word) {
        Some(label) => push_member(text, label, word),
        None => Ok(()),
    }
}

/// Appends the label of a lock as a member of a JSON object, if one of the labels names the lock. It fails only if
/// memory runs out.
pub fn push_lock_member(
    text: &mut Vec<u8>,
    labels: &[Label<'_>],
    lock: u8,
) -> Result<(), AllocError>
    ensures { OnOk result (text.new.items
        ≡ text.old.items ++ lock_label_member (map label_seen labels.now) lock) }
{
    match label_of_lock(labels, lock) {
        Some(label) => push_member(text, label, u32::from(lock)),
        None => Ok(()),
    }
}

// The first of the labels that names a word.
fn label_of_word<'l, 't>(labels: &'l [Label<'t>], word: u32) -> Option<&'l Label<'t>>
    ensures { option_map (λ label. label_seen label.now) result
        ≡ find (λ label. names_word label.target word) (map label_seen labels.now) }
{
    labels.iter().find(|label| names_word(label.target, word))
}

// The first of the labels that names a lock.
fn label_of_lock<'l, 't>(labels: &'l [Label<'t>], lock: u8) -> Option<&'l Label<'t>>
    ensures { option_map (λ label. label_seen label.now) result
        ≡ find (λ label. names_lock label.target lock) (map label_seen labels.now) }
{
    labels.iter().find(|label| names_lock(label.target, lock))
}

fn names_word(target: Target, word: u32) -> bool
    ensures { result ≡ names_word target word }
{
    match target {
        Target::Word(named) => named == word,
        Target::Words(first, last) => first <= word && word <= last,
        Target::Lock(_) | Target::Locks(..) => false,
    }
}

fn names_lock(target: Target, lock: u8) -> bool
    ensures { result ≡ names_lock target lock }
{
    match target {
        Target::Lock(named) => named == lock,
        Target::Locks(first, last) => first <= lock && lock <= last,
        Target::Word(_) | Target::Words(..) => false,
    }
}

fn push_shown(text: &mut Vec<u8>, label: &Label<'_>, number: u32) -> Result<(), AllocError>
    ensures ok { OnOk result (text.new.items
        ≡ text.old.items ++ shown_text number (label_seen label.now)) }
    ensures err { OnErr result (BeginsWith text.new.items text.old.items) }
{
    text.extend_from_slice(b" (")?;
    push_name(text, label, number)?;
    text.extend_from_slice(b")")
}

fn push_member(text: &mut Vec<u8>, label: &Label<'_>, number: u32) -> Result<(), AllocError>
    ensures { OnOk result (text.new.items
        ≡ text.old.items ++ member_text number (label_seen label.now)) }
{
    text.extend_from_slice(b",\"label\":\"")?;
    push_name(text, label, number)?;
    text.extend_from_slice(b"\"")
}

// Adds the name by which a label calls a word or a lock.
fn push_name(text: &mut Vec<u8>, label: &Label<'_>, number: u32) -> Result<(), AllocError>
    ensures ok { OnOk result (text.new.items
        ≡ text.old.items ++ name_of number (label_seen label.now)) }
    ensures err { OnErr result (BeginsWith text.new.items text.old.items) }
{
    text.extend_from_slice(label.name)?;
    push_place(text, label.target, &label.sizes, number)
}

// Adds the place of a word or of a lock among those that a label numbers.
fn push_place(
    text: &mut Vec<u8>,
    target: Target,
    sizes: &[u32],
    number: u32,
) -> Result<(), AllocError>
    ensures ok { OnOk result (text.new.items
        ≡ text.old.items ++ place_text target sizes.now number) }
    ensures err { OnErr result (BeginsWith text.new.items text.old.items) }
{
    match target {
        Target::Words(first, _) => push_indices(text, number.saturating_sub(first), sizes),
        Target::Locks(first, _) => {
            push_indices(text, number.saturating_sub(u32::from(first)), sizes)
        }
        Target::Word(_) | Target::Lock(_) => Ok(()),
    }
}

// Adds the indices of the element at this place.
fn push_indices(text: &mut Vec<u8>, place: u32, sizes: &[u32]) -> Result<(), AllocError>
    ensures ok { OnOk result (text.new.items
        ≡ text.old.items ++ flat_map index_text (indices place sizes.now)) }
    ensures err { OnErr result (BeginsWith text.new.items text.old.items) }
{
    let alloc = *text.allocator();
    let indices = indices_of(alloc, place, sizes)?;
    push_each_index(text, &indices)
}

fn push_each_index(text: &mut Vec<u8>, indices: &[u32]) -> Result<(), AllocError>
    ensures ok { OnOk result (text.new.items
        ≡ text.old.items ++ flat_map index_text indices.now) }
    ensures err { OnErr result (BeginsWith text.new.items text.old.items) }
{
    for index in indices {
        push_index(text, *index)?;
    }
    Ok(())
}

fn push_index(text: &mut Vec<u8>, index: u32) -> Result<(), AllocError>
    ensures ok { OnOk result (text.new.items ≡ text.old.items ++ index_text index) }
    ensures err { OnErr result (BeginsWith text.new.items text.old.items) }
{
    push_number(text, b"[", u64::from(index))?;
    text.extend_from_slice(b"]")
}
