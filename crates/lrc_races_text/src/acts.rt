// Reading a line of acts: a node, what it does, and the line of its program.
ghost use Rattle.std.specs.Prelude.{◌≡◌, ◌≢◌, ◌<◌, ◌≤◌, ◌↔◌, ℕ, List, [], ◌∷◌, ◌++◌, All, IsTrue, MatchOption, length, slice_index};
ghost use Rattle.std.specs.Str.Parse.{IsNumeral, digits_value};
ghost use Rattle.lrc_races_lines.specs.declared.line.Kind.{Kind};
ghost use Rattle.lrc_races_lines.specs.declared.line.Kind.TheVariants.{Idle};
ghost use Rattle.lrc_text.specs.Digits.{IsNumber};
ghost use Rattle.lrc_acts.specs.ActsText.{words_between};
ghost use Rattle.lrc_races_text.specs.Acts.{EndsDigits, IsAccessed, IsDigit, IsNamed, SaysOperation, IsLocation, ReadsAct};

use lrc_acts::words::{before_comment, first_word};
use lrc_races_lines::line::{Kind, Line, Named};
use lrc_text::read_number;

/// The longest line, in bytes.
const LONGEST_LINE: usize = 4096;

const GREATEST_NAME: u64 = 4_294_967_295;

const GREATEST_CAUSE: u64 = 5;

/// The most digits of a location.
const MOST_DIGITS: usize = 10;

/// The only barrier of acts.
const BARRIER: &[u8] = b"0";

// The digits without leading zeros; of zeros alone the last.
fn without_zeros(digits: &[u8]) -> &[u8]
    ensures value { digits_value 10 result.now ≡ digits_value 10 digits.now }
    ensures numeral { IsNumeral 10 digits.now → IsNumeral 10 result.now }
    ensures first { slice_index result.now 0 ≡ 48 → length result.now ≡ 1 }
{
    let mut left = digits;
    while let Some((first, behind)) = left.split_first() {
        if *first != b'0' || behind.is_empty() {
            return left;
        }
        left = behind;
    }
    left
}

// The name that digits write: a number below 2^32.
fn name_of(digits: &[u8]) -> Option<&[u8]>
    ensures { MatchOption result ((name : List ℕ) → ¬ IsNamed digits.now name)
        (λ name. IsNamed digits.now name.now) }
{
    read_number(digits, GREATEST_NAME)?;
    Some(without_zeros(digits))
}

fn is(word: &[u8], other: &[u8]) -> bool
    ensures { IsTrue result ↔ (word.now ≡ other.now) }
{
    word == other
}

// The operation with this word alone, and its target.
fn bare(word: &[u8]) -> Option<(Kind, &'static [u8])>
    ensures { MatchOption result ((kind : Kind) (target : List ℕ)
        → ¬ SaysOperation (word.now ∷ []) kind target)
        (λ found. SaysOperation (word.now ∷ []) found.0 found.1.now) }
{
    if is(word, b"arrive") {
        return Some((Kind::Arrive, BARRIER));
    }
    if is(word, b"depart") {
        return Some((Kind::Depart, BARRIER));
    }
    if is(word, b"quiet") || is(word, b"end") {
        return Some((Kind::Idle, &[]));
    }
    None
}

// The operation on the lock that digits name.
fn on_lock(kind: Kind, digits: &[u8]) -> Option<(Kind, &[u8])>
    ensures { MatchOption result ((name : List ℕ) → ¬ IsNamed digits.now name)
        (λ found. (found.0 ≡ kind) × IsNamed digits.now found.1.now) }
{
    let name = name_of(digits)?;
    Some((kind, name))
}

// The access to the word that digits name, with a value.
fn access<'a>(kind: Kind, digits: &'a [u8], value: &[u8]) -> Option<(Kind, &'a [u8])>
    ensures { MatchOption result ((name : List ℕ) → ¬ IsAccessed digits.now value.now name)
        (λ found. (found.0 ≡ kind) × IsAccessed digits.now value.now found.1.now) }
{
    let Some(name) = name_of(digits) else {
        return None;
    };
    match read_number(value, u64::MAX) {
        Some(_) => Some((kind, name)),
        None => None,
    }
}

// What does nothing, where digits write a number above this one and no greater than that.
fn idle(digits: &[u8], least: u64, greatest: u64) -> Option<(Kind, &'static [u8])>
    ensures { MatchOption result ((number : ℕ) → least ≤ number
        → ¬ IsNumber digits.now greatest number)
        (λ found. (found.0 ≡ Idle) × (found.1.now ≡ [])
        × ((number : ℕ) × (least ≤ number) × IsNumber digits.now greatest number)) }
{
    let number = read_number(digits, greatest)?;
    if number < least {
        return None;
    }
    Some((Kind::Idle, &[]))
}

// The operation with this word and one number.
fn with_one<'a>(word: &[u8], digits: &'a [u8]) -> Option<(Kind, &'a [u8])>
    ensures { MatchOption result ((kind : Kind) (target : List ℕ)
        → ¬ SaysOperation (word.now ∷ digits.now ∷ []) kind target)
        (λ found. SaysOperation (word.now ∷ digits.now ∷ []) found.0 found.1.now) }
{
    if is(word, b"acquire") {
        return on_lock(Kind::Acquire, digits);
    }
    if is(word, b"release") {
        return on_lock(Kind::Release, digits);
    }
    if is(word, b"print") {
        return idle(digits, 0, u64::MAX);
    }
    if is(word, b"trap") {
        return idle(digits, 1, GREATEST_CAUSE);
    }
    None
}

// The operation with this word, a word of shared memory and a value.
fn with_two<'a>(word: &[u8], digits: &'a [u8], value: &[u8]) -> Option<(Kind, &'a [u8])>
    ensures { MatchOption result ((kind : Kind) (target : List ℕ)
        → ¬ SaysOperation (word.now ∷ digits.now ∷ value.now ∷ []) kind target)
        (λ found. SaysOperation (word.now ∷ digits.now ∷ value.now ∷ []) found.0 found.1.now) }
{
    if is(word, b"read") {
        return access(Kind::Read, digits, value);
    }
    if is(word, b"write") {
        return access(Kind::Write, digits, value);
    }
    None
}

// The operation that words say, and its target.
fn operation_in(text: &[u8]) -> Option<(Kind, &[u8])>
    ensures { MatchOption result ((kind : Kind) (target : List ℕ)
        → ¬ SaysOperation (words_between text.now) kind target)
        (λ found. SaysOperation (words_between text.now) found.0 found.1.now) }
{
    let (word, rest) = first_word(text)?;
    let Some((first, rest)) = first_word(rest) else {
        return bare(word);
    };
    let Some((second, rest)) = first_word(rest) else {
        return with_one(word, first);
    };
    match first_word(rest) {
        Some(_) => None,
        None => with_two(word, first, second),
    }
}

// What stands behind this beginning.
fn behind<'a>(text: &'a [u8], beginning: &[u8]) -> Option<&'a [u8]>
    ensures { MatchOption result ((rest : List ℕ) → text.now ≢ beginning.now ++ rest)
        (λ rest. text.now ≡ beginning.now ++ rest.now) }
{
    if text.len() < beginning.len() {
        return None;
    }
    let (front, rest) = text.split_at(beginning.len());
    if is(front, beginning) {
        Some(rest)
    } else {
        None
    }
}

// The digits that a text begins with, and what stands behind them.
fn split_digits(text: &[u8]) -> (&[u8], &[u8])
    ensures whole { text.now ≡ result.0.now ++ result.1.now }
    ensures digits { All IsDigit result.0.now }
    ensures ends { EndsDigits result.1.now }
{
    for (at, byte) in text.iter().enumerate() {
        if !byte.is_ascii_digit() {
            return text.split_at(at);
        }
    }
    (text, &[])
}

// The location in a comment, or nothing.
fn location_in(comment: &[u8]) -> &[u8]
    ensures { IsLocation comment.now result.now }
{
    let Some(rest) = behind(comment, b"# line ") else {
        return &[];
    };
    let (digits, _behind) = split_digits(rest);
    if digits.len() <= MOST_DIGITS {
        digits
    } else {
        &[]
    }
}

/// Reads what a line says. The line has no line feed.
pub fn read_act(line: &[u8]) -> Line<'_>
    ensures { ReadsAct line.now result }
{
    if line.len() > LONGEST_LINE {
        return Line::Bad;
    }
    let text = before_comment(line);
    let Some((digits, rest)) = first_word(text) else {
        return Line::Nothing;
    };
    let Some(thread) = name_of(digits) else {
        return Line::Bad;
    };
    let Some((kind, target)) = operation_in(rest) else {
        return Line::Bad;
    };
    let (_words, comment) = line.split_at(text.len());
    Line::Event(Named {
        thread,
        kind,
        target,
        location: location_in(comment),
    })
}
