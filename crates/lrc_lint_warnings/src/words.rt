// The words of warnings.

ghost use Rattle.std.specs.Prelude.{◌≡◌, ◌++◌, [], OnOk, codes, decimal, if◌then◌else◌, map, slice_index_or};
ghost use Rattle.lrc_labels.specs.Reading.{label_seen};
ghost use Rattle.lrc_lint_warned.specs.declared.found.Kind.TheVariants.{BelowZero, NeverWritten};
ghost use Rattle.lrc_lint_warnings.specs.declared.warning.Says.TheVariants.{OfLabel};
ghost use Rattle.lrc_lint_warnings.specs.Words.{kind_text, lock_text, named_text, reason_text, says_text, worded_text};

use crate::warning::Says;
use lrc_labels::label::{Label, Reason};
use lrc_labels::{has_name, push_lock_label, push_word_label};
use lrc_lint_warned::found::Kind;
use lrc_text::push_number;
use std::alloc::AllocError;

/// Adds the words of a warning. `names` are the names of the text by number, and `labels` what its label lines say.
pub fn push_words(
    out: &mut Vec<u8>,
    says: Says,
    names: &[&[u8]],
    labels: &[Label<'_>],
) -> Result<(), AllocError>
    ensures { OnOk result (out.new.items ≡ out.old.items
        ++ says_text says (map (λ name. name.now) names.now) (map label_seen labels.now)) }
{
    match says {
        Says::OfText(kind) => push_kind(out, kind, names, labels),
        Says::OfLabel(reason) => push_reason(out, reason),
    }
}

fn push_reason(out: &mut Vec<u8>, reason: Reason) -> Result<(), AllocError>
    ensures { OnOk result (out.new.items ≡ out.old.items ++ says_text (OfLabel reason) [] []) }
{
    push_both(out, b"this label says nothing: ", reason_words(reason))
}

fn push_both(out: &mut Vec<u8>, one: &[u8], other: &[u8]) -> Result<(), AllocError>
    ensures { OnOk result (out.new.items ≡ out.old.items ++ (one.now ++ other.now)) }
{
    out.extend_from_slice(one)?;
    out.extend_from_slice(other)
}

fn push_kind(
    out: &mut Vec<u8>,
    kind: Kind,
    names: &[&[u8]],
    labels: &[Label<'_>],
) -> Result<(), AllocError>
    ensures { OnOk result (out.new.items
        ≡ out.old.items ++ kind_text kind (map (λ name. name.now) names.now)
        (map label_seen labels.now)) }
{
    match kind {
        Kind::NeverSet(name) => push_named(
            out,
            name_at(names, name),
            b" is read and never set, so it is 0",
            labels,
        ),
        Kind::NeverRead(name) => {
            push_named(out, name_at(names, name), b" is set and never read", labels)
        }
        Kind::NoSuchWord(word) => {
            push_numbered(out, b"word ", word, b" is not below words: this traps")
        }
        Kind::NoSuchLock(lock) => {
            push_numbered(out, b"lock ", lock, b" is not below locks: this traps")
        }
        Kind::NeverWritten(word) => push_unwritten(out, word, labels),
        Kind::HeldAlready(lock) => push_locked(
            out,
            lock,
            b" is held here already: this traps",
            labels,
        ),
        Kind::NotHeld(lock) => push_locked(out, lock, b" is not held here: this traps", labels),
        Kind::HeldAtBarrier(lock) => push_locked(
            out,
            lock,
            b" is held at this barrier: a node that waits for it does not come to its own",
            labels,
        ),
        Kind::NeverReleased(lock) => push_locked(out, lock, b" is never released", labels),
        Kind::DivisionByZero => out.extend_from_slice(b"division by zero: this traps"),
        Kind::BelowZero(always) => out.extend_from_slice(below_zero_words(always)),
        Kind::UnevenBarriers => out.extend_from_slice(
            b"one block of this if has more barriers in it than the other, and a barrier waits for every node",
        ),
        Kind::UncertainRounds => out.extend_from_slice(
            b"how often nodes go round this loop may differ, and the barrier in it waits for every node",
        ),
        Kind::UnchangedCondition => {
            out.extend_from_slice(b"nothing in this loop changes its condition")
        }
        Kind::LearnsNothing => out.extend_from_slice(
            b"this loop learns of no write of another node: it has no acquire and no barrier",
        ),
    }
}

fn below_zero_words(always: bool) -> &'static [u8]
    ensures { result.now ≡ kind_text (BelowZero always) [] [] }
{
    if always {
        b"no value is below 0: this is always 1"
    } else {
        b"no value is below 0: this is always 0"
    }
}

fn push_unwritten(out: &mut Vec<u8>, word: u32, labels: &[Label<'_>]) -> Result<(), AllocError>
    ensures { OnOk result (out.new.items
        ≡ out.old.items ++ kind_text (NeverWritten word) [] (map label_seen labels.now)) }
{
    push_worded(out, word, b" is read and never written, so it is 0", labels)
}

fn push_worded(
    out: &mut Vec<u8>,
    word: u32,
    words: &[u8],
    labels: &[Label<'_>],
) -> Result<(), AllocError>
    ensures { OnOk result (out.new.items
        ≡ out.old.items ++ worded_text word words.now (map label_seen labels.now)) }
{
    push_number(out, b"word ", u64::from(word))?;
    push_word_label(out, labels, word)?;
    out.extend_from_slice(words)
}

fn name_at<'t>(names: &[&'t [u8]], name: u8) -> &'t [u8]
    ensures { result.now ≡ slice_index_or (map (λ name. name.now) names.now) name [] }
{
    if (name as usize) < names.len() {
        names[name as usize]
    } else {
        b""
    }
}

fn push_named(
    out: &mut Vec<u8>,
    name: &[u8],
    words: &[u8],
    labels: &[Label<'_>],
) -> Result<(), AllocError>
    ensures { OnOk result (out.new.items
        ≡ out.old.items ++ named_text name.now words.now (map label_seen labels.now)) }
{
    out.extend_from_slice(name)?;
    out.extend_from_slice(words)?;
    out.extend_from_slice(label_words(has_name(labels, name)))
}

fn label_words(labelled: bool) -> &'static [u8]
    ensures { result.now ≡ (if labelled then codes " (a label stands for nothing in the text)" else
        []) }
{
    if labelled {
        b" (a label stands for nothing in the text)"
    } else {
        b""
    }
}

fn push_numbered(
    out: &mut Vec<u8>,
    front: &[u8],
    number: u64,
    words: &[u8],
) -> Result<(), AllocError>
    ensures { OnOk result (out.new.items
        ≡ out.old.items ++ (front.now ++ decimal number ++ words.now)) }
{
    push_number(out, front, number)?;
    out.extend_from_slice(words)
}

fn push_locked(
    out: &mut Vec<u8>,
    lock: u8,
    words: &[u8],
    labels: &[Label<'_>],
) -> Result<(), AllocError>
    ensures { OnOk result (out.new.items
        ≡ out.old.items ++ lock_text lock words.now (map label_seen labels.now)) }
{
    push_number(out, b"lock ", u64::from(lock))?;
    push_lock_label(out, labels, lock)?;
    out.extend_from_slice(words)
}

fn reason_words(reason: Reason) -> &'static [u8]
    ensures { result.now ≡ reason_text reason }
{
    match reason {
        Reason::AnotherForm =>
            b"a label is `#: word W NAME`, `#: words W V NAME` or `#: lock K NAME`",
        Reason::NoSuchWord => b"there is no such word",
        Reason::NoSuchLock => b"there is no such lock",
        Reason::WordTaken => b"an earlier label has its word",
        Reason::LockTaken => b"an earlier label has its lock",
        Reason::NameTaken => b"an earlier label has its name",
    }
}
