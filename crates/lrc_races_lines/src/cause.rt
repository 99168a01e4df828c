// Why a line is no event.
ghost use Rattle.std.specs.Prelude.{◌≡◌, ℕ, ◌≤◌, ◌↔◌, List, [], ◌∷◌, ◌++◌, IsTrue, MatchOption, OnOk, length};
ghost use Rattle.lrc_races_lines.specs.declared.line.Kind.{Kind as AnyKind};
ghost use Rattle.lrc_races_lines.specs.Cause.{IsMarked, IsThreadCause, IsTargetCause, IsSignatureCause, IsOperationCause, IsPlaceCause, IsRestCause, IsBodyCause, IsUpTo};
ghost use Rattle.lrc_races_lines.specs.Cause.{IsCauseOfAny, IsCause, why_of, why_words, why_text, shown_word};
ghost use Rattle.lrc_races_lines.specs.Lacking.{Lacks};
ghost use Rattle.lrc_races_lines.specs.Line.{bar, open_parenthesis, close_parenthesis, line_feed, longest_line, IsBad, IsIdleWord, IsName, IsText, SpellsEvent, SpellsOperation};

use crate::reading::{
    LONGEST_LINE, LONGEST_NAME, body_of, is_idle_word, kind_of, split, split_last,
};
use std::alloc::AllocError;

/// Why a line is no event of a trace.
#[derive(Clone, Copy)]
pub enum Cause<'a> {
    /// It is longer than a line may be.
    LineTooLong,
    /// It is the first line, and begins with a byte order mark.
    ByteOrderMark,
    /// It is no act.
    NoAct,
    /// It has no bar.
    NoBar,
    /// Nothing stands where the thread should.
    NoThread,
    /// The name of the thread is longer than a name may be.
    ThreadTooLong,
    /// The name of the thread has a parenthesis.
    BadThreadByte,
    /// No word of an operation stands where it should.
    NoOperation,
    /// This is no word of an operation.
    UnknownOperation(&'a [u8]),
    /// The operation has no target, or the parenthesis before it is not closed.
    NoTarget,
    /// The target is longer than a name may be.
    TargetTooLong,
    /// The target has a parenthesis.
    BadTargetByte,
    /// Something stands between the target and the next bar.
    TextBehindTarget,
    /// The location is longer than a name may be.
    LocationTooLong,
    /// There are more than three fields.
    FourthField,
}

// The greatest length of a word that is shown whole.
const LONGEST_WORD: usize = 32;

fn lacks(text: &[u8], byte: u8) -> bool
    ensures { IsTrue result ↔ Lacks byte text.now }
{
    match split(text, byte) {
        Some(_parts) => false,
        None => true,
    }
}

// What is wrong with the name of a thread.
fn thread_cause(thread: &[u8]) -> Option<Cause<'_>>
    ensures { MatchOption result
        (Lacks bar thread.now → Lacks line_feed thread.now → IsName thread.now)
        (λ cause. IsThreadCause thread.now (why_of cause)) }
{
    if thread.is_empty() {
        return Some(Cause::NoThread);
    }
    if thread.len() > LONGEST_NAME {
        return Some(Cause::ThreadTooLong);
    }
    if !lacks(thread, b'(') {
        return Some(Cause::BadThreadByte);
    }
    if !lacks(thread, b')') {
        return Some(Cause::BadThreadByte);
    }
    None
}

// What is wrong with a target that stands before a closing parenthesis, with this behind it.
fn closed_cause<'a>(target: &'a [u8], rest: &'a [u8]) -> Option<Cause<'a>>
    requires { Lacks close_parenthesis target.now }
    ensures { MatchOption result
        ((Lacks bar target.now → Lacks line_feed target.now → IsName target.now) × (rest.now ≡ []))
        (λ cause. IsTargetCause (target.now ++ close_parenthesis ∷ rest.now) (why_of cause)) }
{
    if target.is_empty() {
        return Some(Cause::NoTarget);
    }
    if target.len() > LONGEST_NAME {
        return Some(Cause::TargetTooLong);
    }
    if !lacks(target, b'(') {
        return Some(Cause::BadTargetByte);
    }
    if !rest.is_empty() {
        return Some(Cause::TextBehindTarget);
    }
    None
}

// What is wrong behind the opening parenthesis of an operation with a target.
fn target_cause(inner: &[u8]) -> Option<Cause<'_>>
    ensures { MatchOption result
        (Lacks bar inner.now → Lacks line_feed inner.now → (target : List ℕ)
        × IsName target × (inner.now ≡ target ++ close_parenthesis ∷ []))
        (λ cause. IsTargetCause inner.now (why_of cause)) }
{
    match split(inner, b')') {
        Some((target, rest)) => closed_cause(target, rest),
        None => Some(Cause::NoTarget),
    }
}

// What is wrong with a text that stands before the last closing parenthesis, with this behind it.
fn ended_cause<'a>(text: &'a [u8], rest: &'a [u8]) -> Option<Cause<'a>>
    requires { Lacks close_parenthesis rest.now }
    ensures { MatchOption result
        ((Lacks bar text.now → Lacks line_feed text.now → IsText text.now) × (rest.now ≡ []))
        (λ cause. IsSignatureCause (text.now ++ close_parenthesis ∷ rest.now) (why_of cause)) }
{
    if text.len() > LONGEST_NAME {
        return Some(Cause::TargetTooLong);
    }
    if !rest.is_empty() {
        return Some(Cause::TextBehindTarget);
    }
    None
}

// What is wrong behind the opening parenthesis of an operation that does nothing.
fn signature_cause(inner: &[u8]) -> Option<Cause<'_>>
    ensures { MatchOption result
        (Lacks bar inner.now → Lacks line_feed inner.now → (text : List ℕ)
        × IsText text × (inner.now ≡ text ++ close_parenthesis ∷ []))
        (λ cause. IsSignatureCause inner.now (why_of cause)) }
{
    match split_last(inner, b')') {
        Some((text, rest)) => ended_cause(text, rest),
        None => Some(Cause::NoTarget),
    }
}

// What is wrong with an operation that is this word alone.
fn bare_cause(word: &[u8]) -> Option<Cause<'_>>
    requires { Lacks open_parenthesis word.now }
    ensures { MatchOption result (IsIdleWord word.now)
        (λ cause. IsOperationCause word.now (why_of cause)) }
{
    if word.is_empty() {
        return Some(Cause::NoOperation);
    }
    if is_idle_word(word) {
        return None;
    }
    match kind_of(word) {
        Some(_kind) => Some(Cause::NoTarget),
        None => Some(Cause::UnknownOperation(word)),
    }
}

// What is wrong with an operation of this word, behind which stands an opening parenthesis and this.
fn opened_cause<'a>(word: &'a [u8], inner: &'a [u8]) -> Option<Cause<'a>>
    requires { Lacks open_parenthesis word.now }
    ensures { MatchOption result
        (Lacks bar inner.now → Lacks line_feed inner.now → (kind : AnyKind) × (target : List ℕ)
        × SpellsOperation kind target (word.now ++ open_parenthesis ∷ inner.now))
        (λ cause. IsOperationCause (word.now ++ open_parenthesis ∷ inner.now) (why_of cause)) }
{
    if word.is_empty() {
        return Some(Cause::NoOperation);
    }
    if is_idle_word(word) {
        return signature_cause(inner);
    }
    match kind_of(word) {
        Some(_kind) => target_cause(inner),
        None => Some(Cause::UnknownOperation(word)),
    }
}

// What is wrong with the second field of a line.
fn operation_cause(field: &[u8]) -> Option<Cause<'_>>
    ensures { MatchOption result
        (Lacks bar field.now → Lacks line_feed field.now → (kind : AnyKind) × (target : List ℕ)
        × SpellsOperation kind target field.now)
        (λ cause. IsOperationCause field.now (why_of cause)) }
{
    match split(field, b'(') {
        Some((word, inner)) => opened_cause(word, inner),
        None => bare_cause(field),
    }
}

// What of a text stands before its first bar, or all of it.
fn up_to_bar(text: &[u8]) -> &[u8]
    ensures { IsUpTo bar result.now text.now }
{
    match split(text, b'|') {
        Some((front, _behind)) => front,
        None => text,
    }
}

// What is wrong with what stands behind the second bar of a line.
fn place_cause(third: &[u8]) -> Cause<'_>
    ensures { Lacks line_feed third.now → ¬ IsText third.now
        → IsPlaceCause third.now (why_of result) }
{
    let location = up_to_bar(third);
    if location.len() > LONGEST_NAME {
        return Cause::LocationTooLong;
    }
    Cause::FourthField
}

// What is wrong with a second field and what stands behind the bar after it.
fn placed_cause<'a>(operation: &'a [u8], third: &'a [u8]) -> Cause<'a>
    requires { Lacks bar operation.now }
    ensures { Lacks line_feed operation.now → Lacks line_feed third.now
        → ((kind : AnyKind) (target : List ℕ) → SpellsOperation kind target operation.now
        → ¬ IsText third.now)
        → IsRestCause (operation.now ++ bar ∷ third.now) (why_of result) }
{
    match operation_cause(operation) {
        Some(cause) => cause,
        None => place_cause(third),
    }
}

// What is wrong with a second field behind which stands no bar.
fn unplaced_cause(operation: &[u8]) -> Cause<'_>
    requires { Lacks bar operation.now }
    ensures { Lacks line_feed operation.now
        → ((kind : AnyKind) (target : List ℕ) → ¬ SpellsOperation kind target operation.now)
        → IsRestCause operation.now (why_of result) }
{
    match operation_cause(operation) {
        Some(cause) => cause,
        None => Cause::FourthField,
    }
}

// What is wrong with what stands behind the first bar of a line.
fn rest_cause(rest: &[u8]) -> Cause<'_>
    ensures { (thread : List ℕ) → IsName thread → Lacks line_feed rest.now
        → ((kind : AnyKind) (target location : List ℕ)
        → ¬ SpellsEvent thread kind target location (thread ++ bar ∷ rest.now))
        → IsRestCause rest.now (why_of result) }
{
    match split(rest, b'|') {
        Some((operation, third)) => placed_cause(operation, third),
        None => unplaced_cause(rest),
    }
}

// What is wrong with the name of a thread and what stands behind the bar after it.
fn barred_cause<'a>(thread: &'a [u8], rest: &'a [u8]) -> Cause<'a>
    requires { Lacks bar thread.now }
    ensures { Lacks line_feed thread.now → Lacks line_feed rest.now
        → ((kind : AnyKind) (target location : List ℕ)
        → ¬ SpellsEvent thread.now kind target location (thread.now ++ bar ∷ rest.now))
        → IsBodyCause (thread.now ++ bar ∷ rest.now) (why_of result) }
{
    match thread_cause(thread) {
        Some(cause) => cause,
        None => rest_cause(rest),
    }
}

// What is wrong with what of a line is no carriage return at its end.
fn body_cause(body: &[u8]) -> Cause<'_>
    ensures { Lacks line_feed body.now
        → ((thread : List ℕ) (kind : AnyKind) (target location : List ℕ)
        → ¬ SpellsEvent thread kind target location body.now)
        → IsBodyCause body.now (why_of result) }
{
    match split(body, b'|') {
        Some((thread, rest)) => barred_cause(thread, rest),
        None => Cause::NoBar,
    }
}

/// Returns whether a line begins with a byte order mark.
pub fn is_marked(line: &[u8]) -> bool
    ensures { IsTrue result ↔ IsMarked line.now }
{
    line.starts_with(&[0xEF, 0xBB, 0xBF])
}

// Whether this is the first line, and begins with a byte order mark.
fn is_first_marked(number: u64, line: &[u8]) -> bool
    ensures { IsTrue result ↔ ((number ≡ 1) × IsMarked line.now) }
{
    if number != 1 {
        return false;
    }
    is_marked(line)
}

/// Returns what is wrong with the line with this number, whatever its form, or nothing, if that depends on the form.
pub fn cause_of_any(number: u64, line: &[u8]) -> Option<Cause<'_>>
    ensures { MatchOption result
        ((length line.now ≤ longest_line) × ¬ ((number ≡ 1) × IsMarked line.now))
        (λ cause. IsCauseOfAny number line.now (why_of cause)) }
{
    if line.len() > LONGEST_LINE {
        return Some(Cause::LineTooLong);
    }
    if is_first_marked(number, line) {
        return Some(Cause::ByteOrderMark);
    }
    None
}

/// Returns why the line with this number is no event, the first thing that is wrong with it, if it is neither an event
/// nor nothing. The line comes without its line feed.
pub fn cause_of(number: u64, line: &[u8]) -> Cause<'_>
    ensures { Lacks line_feed line.now → IsBad line.now → IsCause number line.now (why_of result) }
{
    match cause_of_any(number, line) {
        Some(cause) => cause,
        None => body_cause(body_of(line)),
    }
}

// What is said of a cause, up to the word that is no operation.
fn words_of(cause: Cause<'_>) -> &'static [u8]
    ensures { result.now ≡ why_words (why_of cause.entry) }
{
    match cause {
        Cause::LineTooLong => b"line too long",
        Cause::ByteOrderMark => b"a byte order mark",
        Cause::NoAct => b"no act",
        Cause::NoBar => b"no | in it",
        Cause::NoThread => b"no thread",
        Cause::ThreadTooLong => b"thread too long",
        Cause::BadThreadByte => b"bad byte in the thread",
        Cause::NoOperation => b"no operation",
        Cause::UnknownOperation(_) => b"no operation ",
        Cause::NoTarget => b"no target",
        Cause::TargetTooLong => b"target too long",
        Cause::BadTargetByte => b"bad byte in the target",
        Cause::TextBehindTarget => b"text behind the target",
        Cause::LocationTooLong => b"location too long",
        Cause::FourthField => b"a fourth field",
    }
}

// Adds a word, or if it is long the first bytes of it.
fn push_shown(text: &mut Vec<u8>, word: &[u8]) -> Result<(), AllocError>
    ensures { OnOk result (text.new.items ≡ text.old.items ++ shown_word word.now) }
{
    if word.len() > LONGEST_WORD {
        text.extend_from_slice(&word[..LONGEST_WORD])?;
        text.extend_from_slice(b"..")?;
    } else {
        text.extend_from_slice(word)?;
    }
    Ok(())
}

/// Adds what is said of a cause. It fails if memory runs out.
pub fn push_cause(text: &mut Vec<u8>, cause: Cause<'_>) -> Result<(), AllocError>
    ensures { OnOk result (text.new.items ≡ text.old.items ++ why_text (why_of cause.entry)) }
{
    text.extend_from_slice(words_of(cause))?;
    if let Cause::UnknownOperation(word) = cause {
        push_shown(text, word)?;
    }
    Ok(())
}
