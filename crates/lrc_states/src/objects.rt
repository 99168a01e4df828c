// Objects of JSON: messages, labels, acts, and the last Write to a word.

ghost use Rattle.std.specs.Prelude.{◌≡◌, ◌++◌, OnOk, codes, decimal, map};
ghost use Rattle.lrc_labels.specs.Reading.{first_of, label_seen, last_of};
ghost use Rattle.lrc_messages.specs.Lists.{before};
ghost use Rattle.lrc_states.specs.Objects.{act_object, act_or_null, label_object, labels_list, message_head, message_object, messages_list, note_head, note_object, notes_list, sizes_list, sizes_member, spot_members, target_members, target_name, truth_text};

use lrc_envelope::Envelope;
use lrc_labels::label::{Label, Target};
use lrc_messages::{push_message, push_size};
use lrc_replay::{Note, Spot};
use lrc_text::{push_deed, push_number};
use lrc_trace::act::{Act, Deed};
use std::alloc::{AllocError, Global};

/// Adds a comma before the list item at this place, or nothing before the first item.
pub fn push_comma(text: &mut Vec<u8>, place: usize) -> Result<(), AllocError>
    ensures { OnOk result (text.new.items ≡ text.old.items ++ before place (codes ",")) }
{
    if place == 0 {
        return Ok(());
    }
    text.extend_from_slice(b",")
}

// Adds where a message comes from and goes to, and its number.
#[tactic(auto, unfolding(crate::specs::Objects::message_head))]
fn push_message_head(text: &mut Vec<u8>, envelope: &Envelope) -> Result<(), AllocError>
    ensures { OnOk result (text.new.items ≡ text.old.items ++ message_head envelope.now) }
{
    push_number(text, b"{\"from\":", u64::from(envelope.from))?;
    push_number(text, b",\"to\":", u64::from(envelope.to))?;
    push_number(text, b",\"number\":", u64::from(envelope.number))
}

/// Adds a message.
#[tactic(auto, unfolding(crate::specs::Objects::message_object))]
pub fn push_envelope(
    alloc: Global,
    text: &mut Vec<u8>,
    envelope: &Envelope,
) -> Result<(), AllocError>
    ensures { OnOk result (text.new.items ≡ text.old.items ++ message_object envelope.now) }
{
    push_message_head(text, envelope)?;
    text.extend_from_slice(b",\"bytes\":")?;
    push_size(alloc, text, envelope)?;
    text.extend_from_slice(b",\"message\":\"")?;
    push_message(alloc, text, &envelope.message)?;
    text.extend_from_slice(b"\"}")
}

// Adds a message at this place of a list.
pub fn push_listed(
    alloc: Global,
    text: &mut Vec<u8>,
    place: usize,
    envelope: &Envelope,
) -> Result<(), AllocError>
    ensures { OnOk result (text.new.items
        ≡ text.old.items ++ before place (codes ",") ++ message_object envelope.now) }
{
    push_comma(text, place)?;
    push_envelope(alloc, text, envelope)
}

/// Adds messages, separated by commas.
pub fn push_envelopes(
    alloc: Global,
    text: &mut Vec<u8>,
    envelopes: &[Envelope],
) -> Result<(), AllocError>
    ensures { OnOk result (text.new.items ≡ text.old.items ++ messages_list envelopes.now) }
{
    for (place, envelope) in envelopes.iter().enumerate() {
        push_listed(alloc, text, place, envelope)?;
    }
    Ok(())
}

#[tactic(auto, unfolding(crate::specs::Objects::target_name))]
fn target_name(target: Target) -> &'static [u8]
    ensures { result.now ≡ target_name target }
{
    match target {
        Target::Word(_) => b"word",
        Target::Words(..) => b"words",
        Target::Lock(_) => b"lock",
        Target::Locks(..) => b"locks",
    }
}

fn first_of(target: Target) -> u32
    ensures { result ≡ first_of target }
{
    match target {
        Target::Word(word) => word,
        Target::Words(first, _) => first,
        Target::Lock(lock) => u32::from(lock),
        Target::Locks(first, _) => u32::from(first),
    }
}

fn last_of(target: Target) -> u32
    ensures { result ≡ last_of target }
{
    match target {
        Target::Word(word) => word,
        Target::Words(_, last) => last,
        Target::Lock(lock) => u32::from(lock),
        Target::Locks(_, last) => u32::from(last),
    }
}

// Adds what a label names.
fn push_target(text: &mut Vec<u8>, target: Target) -> Result<(), AllocError>
    ensures { OnOk result (text.new.items ≡ text.old.items ++ target_members target) }
{
    text.extend_from_slice(b"\"of\":\"")?;
    text.extend_from_slice(target_name(target))?;
    push_number(text, b"\",\"from\":", u64::from(first_of(target)))?;
    push_number(text, b",\"to\":", u64::from(last_of(target)))
}

// Adds a size at this place of a list.
fn push_listed_size(text: &mut Vec<u8>, place: usize, size: u32) -> Result<(), AllocError>
    ensures { OnOk result (text.new.items
        ≡ text.old.items ++ before place (codes ",") ++ decimal size) }
{
    push_comma(text, place)?;
    push_number(text, b"", u64::from(size))
}

// Adds sizes, separated by commas.
fn push_listed_sizes(text: &mut Vec<u8>, sizes: &[u32]) -> Result<(), AllocError>
    ensures { OnOk result (text.new.items ≡ text.old.items ++ sizes_list sizes.now) }
{
    for (place, size) in sizes.iter().enumerate() {
        push_listed_size(text, place, *size)?;
    }
    Ok(())
}

// Adds the sizes of a label, if it has any.
fn push_sizes(text: &mut Vec<u8>, sizes: &[u32]) -> Result<(), AllocError>
    ensures { OnOk result (text.new.items ≡ text.old.items ++ sizes_member sizes.now) }
{
    match sizes {
        [] => Ok(()),
        [_first, ..] => {
            text.extend_from_slice(b",\"sizes\":[")?;
            push_listed_sizes(text, sizes)?;
            text.extend_from_slice(b"]")
        }
    }
}

// Adds a label at this place of a list.
fn push_label(text: &mut Vec<u8>, place: usize, label: &Label<'_>) -> Result<(), AllocError>
    ensures { OnOk result (text.new.items
        ≡ text.old.items ++ before place (codes ",") ++ label_object (label_seen label.now)) }
{
    push_comma(text, place)?;
    text.extend_from_slice(b"{")?;
    push_target(text, label.target)?;
    text.extend_from_slice(b",\"name\":\"")?;
    text.extend_from_slice(label.name)?;
    text.extend_from_slice(b"\"")?;
    push_sizes(text, &label.sizes)?;
    text.extend_from_slice(b"}")
}

/// Adds labels, separated by commas.
pub fn push_labels(text: &mut Vec<u8>, labels: &[Label<'_>]) -> Result<(), AllocError>
    ensures { OnOk result (text.new.items
        ≡ text.old.items ++ labels_list (map label_seen labels.now)) }
{
    for (place, label) in labels.iter().enumerate() {
        push_label(text, place, label)?;
    }
    Ok(())
}

// Adds the line and the interval of an act.
fn push_spot(text: &mut Vec<u8>, spot: Spot) -> Result<(), AllocError>
    ensures { OnOk result (text.new.items ≡ text.old.items ++ spot_members spot) }
{
    push_number(text, b",\"line\":", u64::from(spot.line))?;
    push_number(text, b",\"interval\":", spot.interval)
}

// Adds what is done at this spot.
fn push_done(text: &mut Vec<u8>, spot: Spot, deed: Deed) -> Result<(), AllocError>
    ensures { OnOk result (text.new.items ≡ text.old.items ++ act_object spot deed) }
{
    push_number(text, b"{\"position\":", spot.position)?;
    text.extend_from_slice(b",\"deed\":\"")?;
    push_deed(text, deed)?;
    text.extend_from_slice(b"\"")?;
    push_spot(text, spot)?;
    text.extend_from_slice(b"}")
}

/// Adds the act that is made at this spot, or `null` if none is.
pub fn push_act(text: &mut Vec<u8>, spot: Spot, act: Option<Act>) -> Result<(), AllocError>
    ensures { OnOk result (text.new.items ≡ text.old.items ++ act_or_null spot act) }
{
    match act {
        Some(act) => push_done(text, spot, act.deed),
        None => text.extend_from_slice(b"null"),
    }
}

// Adds the word and the value of a Write, and its node.
#[tactic(auto, unfolding(crate::specs::Objects::note_head))]
fn push_note_head(text: &mut Vec<u8>, note: Note) -> Result<(), AllocError>
    ensures { OnOk result (text.new.items ≡ text.old.items ++ note_head note) }
{
    push_number(text, b"{\"word\":", u64::from(note.word))?;
    push_number(text, b",\"value\":\"", note.value)?;
    push_number(text, b"\",\"node\":", u64::from(note.node))
}

// Adds a Write.
#[tactic(auto, unfolding(crate::specs::Objects::note_object))]
fn push_write(text: &mut Vec<u8>, note: Note) -> Result<(), AllocError>
    ensures { OnOk result (text.new.items ≡ text.old.items ++ note_object note) }
{
    push_note_head(text, note)?;
    push_number(text, b",\"position\":", note.spot.position)?;
    push_spot(text, note.spot)?;
    text.extend_from_slice(b"}")
}

// Adds the last Write to a word at this place of a list.
fn push_note(text: &mut Vec<u8>, place: usize, note: Note) -> Result<(), AllocError>
    ensures { OnOk result (text.new.items
        ≡ text.old.items ++ before place (codes ",") ++ note_object note) }
{
    push_comma(text, place)?;
    push_write(text, note)
}

/// Adds the last writes to words, separated by commas.
pub fn push_notes(text: &mut Vec<u8>, notes: &[Note]) -> Result<(), AllocError>
    ensures { OnOk result (text.new.items ≡ text.old.items ++ notes_list notes.now) }
{
    for (place, note) in notes.iter().enumerate() {
        push_note(text, place, *note)?;
    }
    Ok(())
}

/// Returns the JSON word for a truth value.
#[tactic(auto, unfolding(crate::specs::Objects::truth_text))]
pub fn truth(is_so: bool) -> &'static [u8]
    ensures { result.now ≡ truth_text is_so }
{
    if is_so { b"true" } else { b"false" }
}
