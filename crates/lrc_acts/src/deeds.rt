// The words of a deed.

ghost use Rattle.std.specs.Prelude.{◌≡◌, MatchBool, MatchOption, [], ◌∷◌};
ghost use Rattle.lrc_trace.specs.declared.act.Cause.{Cause as AnyCause};
ghost use Rattle.lrc_trace.specs.declared.act.Deed.{Deed as AnyDeed};
ghost use Rattle.lrc_text.specs.ActText.{cause_number};
ghost use Rattle.lrc_acts.specs.ActsText.{SaysDeed, words_between};

use crate::words::first_word;
use lrc_text::read_number;
use lrc_trace::act::{Cause, Deed};

const GREATEST_WORD: u64 = 4_294_967_295;

const GREATEST_LOCK: u64 = 255;

const GREATEST_CAUSE: u64 = 5;

// The deed that the words of a text say.
pub(crate) fn deed_in(text: &[u8]) -> Option<Deed>
    ensures { MatchOption result ((deed : AnyDeed) → ¬ SaysDeed (words_between text.now) deed)
        (λ deed. SaysDeed (words_between text.now) deed) }
{
    let (name, rest) = first_word(text)?;
    let Some((first, rest)) = first_word(rest) else {
        return bare(name);
    };
    let Some((second, rest)) = first_word(rest) else {
        return with_one(name, first);
    };
    match first_word(rest) {
        Some(_) => None,
        None => with_two(name, first, second),
    }
}

// The deed with this name alone.
fn bare(name: &[u8]) -> Option<Deed>
    ensures { MatchOption result ((deed : AnyDeed) → ¬ SaysDeed (name.now ∷ []) deed)
        (λ deed. SaysDeed (name.now ∷ []) deed) }
{
    if is_named(name, b"quiet") {
        return Some(Deed::Quiet);
    }
    if is_named(name, b"arrive") {
        return Some(Deed::Arrive);
    }
    if is_named(name, b"depart") {
        return Some(Deed::Depart);
    }
    if is_named(name, b"end") {
        return Some(Deed::End);
    }
    None
}

fn is_named(name: &[u8], other: &[u8]) -> bool
    ensures { MatchBool result (name.now ≡ other.now) (¬ (name.now ≡ other.now)) }
{
    name == other
}

// The deed with this name and one number.
fn with_one(name: &[u8], digits: &[u8]) -> Option<Deed>
    ensures { MatchOption result ((deed : AnyDeed) → ¬ SaysDeed (name.now ∷ digits.now ∷ []) deed)
        (λ deed. SaysDeed (name.now ∷ digits.now ∷ []) deed) }
{
    if is_named(name, b"print") {
        return Some(Deed::Print(read_number(digits, u64::MAX)?));
    }
    if is_named(name, b"acquire") {
        return Some(Deed::Acquire(read_number(digits, GREATEST_LOCK)? as u8));
    }
    if is_named(name, b"release") {
        return Some(Deed::Release(read_number(digits, GREATEST_LOCK)? as u8));
    }
    if is_named(name, b"trap") {
        return Some(Deed::Trap(cause_of(read_number(digits, GREATEST_CAUSE)?)?));
    }
    None
}

// The deed with this name, a word of shared memory and a value.
fn with_two(name: &[u8], word: &[u8], value: &[u8]) -> Option<Deed>
    ensures { MatchOption result ((deed : AnyDeed)
        → ¬ SaysDeed (name.now ∷ word.now ∷ value.now ∷ []) deed)
        (λ deed. SaysDeed (name.now ∷ word.now ∷ value.now ∷ []) deed) }
{
    match name {
        b"read" => {
            let word = read_number(word, GREATEST_WORD)? as u32;
            Some(Deed::Read(word, read_number(value, u64::MAX)?))
        }
        b"write" => {
            let word = read_number(word, GREATEST_WORD)? as u32;
            Some(Deed::Write(word, read_number(value, u64::MAX)?))
        }
        _ => None,
    }
}

// The cause with this number.
fn cause_of(number: u64) -> Option<Cause>
    ensures { MatchOption result ((cause : AnyCause) → ¬ (number ≡ cause_number cause))
        (λ cause. number ≡ cause_number cause) }
{
    match number {
        1 => Some(Cause::DivisionByZero),
        2 => Some(Cause::WordOutOfRange),
        3 => Some(Cause::LockOutOfRange),
        4 => Some(Cause::LockHeld),
        5 => Some(Cause::LockNotHeld),
        _ => None,
    }
}
