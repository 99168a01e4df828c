// What an act is about, in words.

ghost use Rattle.std.specs.Prelude.{◌≡◌, ◌++◌, OnOk};
ghost use Rattle.lrc_why_text.specs.Told.{about_text, barrier_line, cause_line, crossing_text, follows_text, gift_line, gift_text, given_text, gives_text, known_since_text, last_line, last_lines, last_text, lock_of, several_text, source_lines, source_text, unknown_text, unwritten_text, value_of};

use lrc_judge::races::word_of;
use lrc_text::push_number;
use lrc_trace::act::{Cause, Deed};
use lrc_trap_words::push_cause;
use lrc_why::reasons::{About, Gift, Several, Since, Source};
use lrc_why_lines::deed::{push_lock, push_word};
use lrc_why_lines::lists::push_some;
use lrc_why_lines::look::act_at;
use lrc_why_lines::places::{push_act, push_since};
use lrc_why_lines::shown::Shown;
use std::alloc::AllocError;

#[tactic(auto, unfolding(crate::specs::Told::cause_line))]
fn push_cause_line(text: &mut Vec<u8>, shown: Shown<'_, '_>, cause: Cause) -> Result<(), AllocError>
    ensures { OnOk result (text.new.items ≡ text.old.items ++ cause_line shown.entry cause) }
{
    text.extend_from_slice(b"  ")?;
    push_cause(text, shown.trap, cause)?;
    text.extend_from_slice(b"\n")
}

// The value that a deed reads or writes.
fn value_of(deed: Deed) -> u64
    ensures { result ≡ value_of deed }
{
    match deed {
        Deed::Read(_, value) | Deed::Write(_, value) => value,
        _ => 0,
    }
}

#[tactic(auto, unfolding(crate::specs::Told::unwritten_text))]
fn push_unwritten(text: &mut Vec<u8>, shown: Shown<'_, '_>, word: u32) -> Result<(), AllocError>
    ensures { OnOk result (text.new.items ≡ text.old.items ++ unwritten_text shown.entry word) }
{
    push_word(text, shown.labels, b"0: no write of word ", word)?;
    text.extend_from_slice(b" happens before it")
}

#[tactic(auto, unfolding(crate::specs::Told::known_since_text))]
fn push_known_since(
    text: &mut Vec<u8>,
    shown: Shown<'_, '_>,
    since: &Option<Since>,
) -> Result<(), AllocError>
    ensures { OnOk result (text.new.items
        ≡ text.old.items ++ known_since_text shown.entry since.now) }
{
    match since {
        Some(since) => {
            text.extend_from_slice(b", known ")?;
            push_since(text, shown, since)
        }
        None => Ok(()),
    }
}

#[tactic(auto, unfolding(crate::specs::Told::last_text))]
fn push_last(
    text: &mut Vec<u8>,
    shown: Shown<'_, '_>,
    write: usize,
    since: &Option<Since>,
) -> Result<(), AllocError>
    ensures { OnOk result (text.new.items
        ≡ text.old.items ++ last_text shown.entry write since.now) }
{
    push_number(text, b"", value_of(act_at(shown, write).deed))?;
    text.extend_from_slice(b", of ")?;
    push_act(text, shown, write)?;
    push_known_since(text, shown, since)
}

#[tactic(auto, unfolding(crate::specs::Told::given_text))]
fn push_given(text: &mut Vec<u8>, value: u64, allowed: bool) -> Result<(), AllocError>
    ensures { OnOk result (text.new.items ≡ text.old.items ++ given_text value allowed) }
{
    if !allowed {
        return Ok(());
    }
    push_number(text, b"", value)?;
    text.extend_from_slice(b", ")
}

#[tactic(auto, unfolding(crate::specs::Told::crossing_text))]
fn push_crossing(text: &mut Vec<u8>, several: &Several) -> Result<(), AllocError>
    ensures { OnOk result (text.new.items ≡ text.old.items ++ crossing_text several.now) }
{
    push_number(text, b": acts ", several.earlier as u64)?;
    push_number(text, b" and ", several.later as u64)?;
    text.extend_from_slice(b" happen before it and race")
}

#[tactic(auto, unfolding(crate::specs::Told::several_text))]
fn push_several(
    text: &mut Vec<u8>,
    value: u64,
    allowed: bool,
    several: &Several,
) -> Result<(), AllocError>
    ensures { OnOk result (text.new.items
        ≡ text.old.items ++ several_text value allowed several.now) }
{
    push_given(text, value, allowed)?;
    text.extend_from_slice(b"one of ")?;
    push_some(text, &several.values)?;
    push_crossing(text, several)
}

#[tactic(auto, unfolding(crate::specs::Told::unknown_text))]
fn push_unknown(
    text: &mut Vec<u8>,
    shown: Shown<'_, '_>,
    unknown: Option<usize>,
) -> Result<(), AllocError>
    ensures { OnOk result (text.new.items ≡ text.old.items ++ unknown_text shown.entry unknown) }
{
    match unknown {
        Some(write) => {
            push_number(
                text,
                b" (last written: ",
                value_of(act_at(shown, write).deed),
            )?;
            push_number(text, b", by act ", write as u64)?;
            text.extend_from_slice(b")")
        }
        None => Ok(()),
    }
}

#[tactic(auto, unfolding(crate::specs::Told::source_text))]
fn push_source(
    text: &mut Vec<u8>,
    shown: Shown<'_, '_>,
    deed: Deed,
    allowed: bool,
    source: &Source,
) -> Result<(), AllocError>
    ensures { OnOk result (text.new.items
        ≡ text.old.items ++ source_text shown.entry deed allowed source.now) }
{
    match source {
        Source::Nothing => push_unwritten(text, shown, word_of(deed)),
        Source::Last(write, since) => push_last(text, shown, *write, since),
        Source::Racing(several) => push_several(text, value_of(deed), allowed, several),
    }
}

#[tactic(auto, unfolding(crate::specs::Told::last_line))]
fn push_last_line(text: &mut Vec<u8>, shown: Shown<'_, '_>, write: usize) -> Result<(), AllocError>
    ensures { OnOk result (text.new.items ≡ text.old.items ++ last_line shown.entry write) }
{
    text.extend_from_slice(b"    last: ")?;
    push_act(text, shown, write)?;
    text.extend_from_slice(b"\n")
}

fn push_last_lines(
    text: &mut Vec<u8>,
    shown: Shown<'_, '_>,
    writes: &[usize],
) -> Result<(), AllocError>
    ensures { OnOk result (text.new.items ≡ text.old.items ++ last_lines shown.entry writes.now) }
{
    for write in writes {
        push_last_line(text, shown, *write)?;
    }
    Ok(())
}

#[tactic(auto, unfolding(crate::specs::Told::source_lines))]
fn push_source_lines(
    text: &mut Vec<u8>,
    shown: Shown<'_, '_>,
    source: &Source,
) -> Result<(), AllocError>
    ensures { OnOk result (text.new.items ≡ text.old.items ++ source_lines shown.entry source.now) }
{
    match source {
        Source::Racing(several) => push_last_lines(text, shown, &several.last),
        _ => Ok(()),
    }
}

#[tactic(auto, unfolding(crate::specs::Told::gives_text))]
fn push_gives(text: &mut Vec<u8>, value: u64, allowed: bool) -> Result<(), AllocError>
    ensures { OnOk result (text.new.items ≡ text.old.items ++ gives_text value allowed) }
{
    if allowed {
        return text.extend_from_slice(b"  gives ");
    }
    push_number(text, b"  gives ", value)?;
    text.extend_from_slice(b", which it may not\n  may give ")
}

#[tactic(auto, unfolding(crate::specs::Told::gift_line))]
fn push_gift_line(
    text: &mut Vec<u8>,
    shown: Shown<'_, '_>,
    deed: Deed,
    gift: &Gift,
) -> Result<(), AllocError>
    ensures { OnOk result (text.new.items ≡ text.old.items ++ gift_line shown.entry deed gift.now) }
{
    push_gives(text, value_of(deed), gift.allowed)?;
    push_source(text, shown, deed, gift.allowed, &gift.source)?;
    push_unknown(text, shown, gift.unknown)?;
    text.extend_from_slice(b"\n")
}

#[tactic(auto, unfolding(crate::specs::Told::gift_text))]
fn push_gift(
    text: &mut Vec<u8>,
    shown: Shown<'_, '_>,
    deed: Deed,
    gift: &Gift,
) -> Result<(), AllocError>
    ensures { OnOk result (text.new.items ≡ text.old.items ++ gift_text shown.entry deed gift.now) }
{
    push_gift_line(text, shown, deed, gift)?;
    push_source_lines(text, shown, &gift.source)
}

#[tactic(auto, unfolding(crate::specs::Told::follows_text))]
fn push_follows(
    text: &mut Vec<u8>,
    shown: Shown<'_, '_>,
    deed: Deed,
    release: Option<usize>,
) -> Result<(), AllocError>
    ensures { OnOk result (text.new.items
        ≡ text.old.items ++ follows_text shown.entry deed release) }
{
    match release {
        Some(release) => {
            text.extend_from_slice(b"  follows ")?;
            push_act(text, shown, release)?;
            text.extend_from_slice(b"\n")
        }
        None => {
            push_lock(
                text,
                shown.labels,
                b"  follows no release of lock ",
                lock_of(deed),
            )?;
            text.extend_from_slice(b"\n")
        }
    }
}

// The lock that a deed acquires.
fn lock_of(deed: Deed) -> u8
    ensures { result ≡ lock_of deed }
{
    match deed {
        Deed::Acquire(lock) => lock,
        _ => 0,
    }
}

#[tactic(auto, unfolding(crate::specs::Told::barrier_line))]
fn push_barrier(text: &mut Vec<u8>, words: &[u8], number: usize) -> Result<(), AllocError>
    ensures { OnOk result (text.new.items ≡ text.old.items ++ barrier_line words.now number) }
{
    push_number(text, words, number as u64)?;
    text.extend_from_slice(b"\n")
}

#[tactic(auto, unfolding(crate::specs::Told::about_text))]
/// Adds the lines on what an act with this deed is about: why it trapped, why a read gives its value, the release that
/// an acquire follows, or the number of its barrier.
pub(crate) fn push_about(
    text: &mut Vec<u8>,
    shown: Shown<'_, '_>,
    deed: Deed,
    about: &About,
) -> Result<(), AllocError>
    ensures { OnOk result (text.new.items
        ≡ text.old.items ++ about_text shown.entry deed about.now) }
{
    match about {
        About::Nothing => Ok(()),
        About::Trapped(cause) => push_cause_line(text, shown, *cause),
        About::Gives(gift) => push_gift(text, shown, deed, gift),
        About::Follows(release) => push_follows(text, shown, deed, *release),
        About::Comes(number) => push_barrier(text, b"  comes to barrier ", *number),
        About::GoesOn(number) => push_barrier(text, b"  goes on from barrier ", *number),
    }
}
