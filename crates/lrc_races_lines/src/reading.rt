// Reading a line.
ghost use Rattle.std.specs.Prelude.{◌≡◌, ℕ, ◌↔◌, List, [], ◌∷◌, ◌++◌, IsTrue, MatchOption};
ghost use Rattle.lrc_races_lines.specs.declared.line.Kind.{Kind};
ghost use Rattle.lrc_races_lines.specs.declared.line.Kind.TheVariants.{Idle};
ghost use Rattle.lrc_races_lines.specs.Line.{IsName, IsText, IsIdleWord, word, SpellsOperation, SpellsEvent, IsBody, IsBlank, Reads};
ghost use Rattle.lrc_races_lines.specs.Lacking.{Lacks};

use crate::line::{Kind, Line, Named};

/// The greatest length of a line, in bytes.
pub(crate) const LONGEST_LINE: usize = 4096;

/// The greatest length of a name, in bytes.
pub(crate) const LONGEST_NAME: usize = 255;

const KINDS: [Kind; 10] = [
    Kind::Read,
    Kind::Write,
    Kind::Acquire,
    Kind::Release,
    Kind::Post,
    Kind::Wait,
    Kind::Fork,
    Kind::Join,
    Kind::Arrive,
    Kind::Depart,
];

/// Splits a text at the first such byte: returns what precedes it and what follows it, or none if the text lacks the
/// byte.
pub fn split(text: &[u8], byte: u8) -> Option<(&[u8], &[u8])>
    ensures { MatchOption result (Lacks byte text.now)
        (λ parts. (text.now ≡ parts.0.now ++ byte ∷ parts.1.now) × Lacks byte parts.0.now) }
{
    for (at, other) in text.iter().enumerate() {
        if *other == byte {
            return Some((&text[..at], &text[at + 1..]));
        }
    }
    None
}

/// Splits a text at the last such byte: returns what precedes it and what follows it, or none if the text lacks the
/// byte.
pub(crate) fn split_last(text: &[u8], byte: u8) -> Option<(&[u8], &[u8])>
    ensures { MatchOption result (Lacks byte text.now)
        (λ parts. (text.now ≡ parts.0.now ++ byte ∷ parts.1.now) × Lacks byte parts.1.now) }
{
    let mut at = text.len();
    while at > 0 {
        if text[at - 1] == byte {
            return Some((&text[..at - 1], &text[at..]));
        }
        at -= 1;
    }
    None
}

fn is_name(text: &[u8]) -> bool
    ensures { IsTrue result ↔ IsName text.now }
{
    !text.is_empty()
        && text.len() <= LONGEST_NAME
        && text.iter().all(|byte| *byte != b'|' && *byte != b'(' && *byte != b')' && *byte != b'\n')
}

fn is_text(text: &[u8]) -> bool
    ensures { IsTrue result ↔ IsText text.now }
{
    text.len() <= LONGEST_NAME && text.iter().all(|byte| *byte != b'|' && *byte != b'\n')
}

// The word of an operation with a target.
fn word_of(kind: Kind) -> &'static [u8]
    ensures { result.now ≡ word kind }
{
    match kind {
        Kind::Read => b"r",
        Kind::Write => b"w",
        Kind::Acquire => b"acq",
        Kind::Release => b"rel",
        Kind::Post => b"post",
        Kind::Wait => b"wait",
        Kind::Fork => b"fork",
        Kind::Join => b"join",
        Kind::Arrive => b"arrive",
        Kind::Depart => b"depart",
        Kind::Idle => b"",
    }
}

fn is(text: &[u8], word: &[u8]) -> bool
    ensures { IsTrue result ↔ (text.now ≡ word.now) }
{
    text == word
}

// The operation with a target of this word.
pub(crate) fn kind_of(text: &[u8]) -> Option<Kind>
    ensures { MatchOption result ((kind : Kind) → (kind ≡ Idle → ⊥) → text.now ≡ word kind → ⊥)
        (λ kind. (kind ≡ Idle → ⊥) × (text.now ≡ word kind)) }
{
    for kind in &KINDS {
        if is(text, word_of(*kind)) {
            return Some(*kind);
        }
    }
    None
}

pub(crate) fn is_idle_word(text: &[u8]) -> bool
    ensures { IsTrue result ↔ IsIdleWord text.now }
{
    if is(text, b"begin") {
        return true;
    }
    if is(text, b"end") {
        return true;
    }
    if is(text, b"enter") {
        return true;
    }
    if is(text, b"exit") {
        return true;
    }
    if is(text, b"req") {
        return true;
    }
    is(text, b"branch")
}

// What stands before this byte, where it is the last.
fn without_last(text: &[u8], byte: u8) -> Option<&[u8]>
    ensures { MatchOption result ((front : List ℕ) → text.now ≡ front ++ byte ∷ [] → ⊥)
        (λ front. text.now ≡ front.now ++ byte ∷ []) }
{
    let (last, front) = text.split_last()?;
    if *last == byte { Some(front) } else { None }
}

// The operation of this word before an opening parenthesis, with this behind it, and its target.
fn opened<'a>(word: &'a [u8], rest: &'a [u8]) -> Option<(Kind, &'a [u8])>
    requires { Lacks 40 word.now }
    ensures { MatchOption result ((kind : Kind) (target : List ℕ)
        → SpellsOperation kind target (word.now ++ 40 ∷ rest.now) → ⊥)
        (λ found. SpellsOperation found.0 found.1.now (word.now ++ 40 ∷ rest.now)) }
{
    let inner = without_last(rest, b')')?;
    if let Some(kind) = kind_of(word) {
        return if is_name(inner) {
            Some((kind, inner))
        } else {
            None
        };
    }
    if is_idle_word(word) && is_text(inner) {
        Some((Kind::Idle, &[]))
    } else {
        None
    }
}

// The operation that the bytes spell, and its target.
fn operation_of(text: &[u8]) -> Option<(Kind, &[u8])>
    ensures { MatchOption result ((kind : Kind) (target : List ℕ)
        → SpellsOperation kind target text.now → ⊥)
        (λ found. SpellsOperation found.0 found.1.now text.now) }
{
    match split(text, b'(') {
        Some((word, rest)) => opened(word, rest),
        None if is_idle_word(text) => Some((Kind::Idle, &[])),
        None => None,
    }
}

// The event that the bytes spell.
fn event_of(body: &[u8]) -> Option<Named<'_>>
    ensures { MatchOption result
        ((thread : List ℕ) (kind : Kind) (target location : List ℕ)
        → SpellsEvent thread kind target location body.now → ⊥)
        (λ named. SpellsEvent named.thread.now named.kind named.target.now named.location.now
        body.now) }
{
    let (thread, rest) = split(body, b'|')?;
    if !is_name(thread) {
        return None;
    }
    match split(rest, b'|') {
        Some((operation, location)) => {
            if !is_text(location) {
                return None;
            }
            let (kind, target) = operation_of(operation)?;
            Some(Named {
                thread,
                kind,
                target,
                location,
            })
        }
        None => {
            let (kind, target) = operation_of(rest)?;
            Some(Named {
                thread,
                kind,
                target,
                location: &[],
            })
        }
    }
}

/// Returns what stands on a line, without a carriage return at its end.
pub fn body_of(line: &[u8]) -> &[u8]
    ensures { IsBody line.now result.now }
{
    match without_last(line, b'\r') {
        Some(body) => body,
        None => line,
    }
}

fn is_blank(body: &[u8]) -> bool
    ensures { IsTrue result ↔ IsBlank body.now }
{
    match body.split_first() {
        Some((first, _behind)) => *first == b'#',
        None => true,
    }
}

/// Returns what a line says. The line comes without its line feed.
pub fn read_line(line: &[u8]) -> Line<'_>
    ensures { Reads line.now result }
{
    if line.len() > LONGEST_LINE {
        return Line::Bad;
    }
    let body = body_of(line);
    if is_blank(body) {
        return Line::Nothing;
    }
    match event_of(body) {
        Some(named) => Line::Event(named),
        None => Line::Bad,
    }
}
