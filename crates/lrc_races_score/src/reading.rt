// Reading a claim.
ghost use Rattle.std.specs.Prelude.{◌≡◌, ◌≢◌, ℕ, ◌≤◌, ◌↔◌, List, [], ◌∷◌, ◌++◌, IsTrue, MatchOption, codes, length};
ghost use Rattle.lrc_races_lines.specs.Line.{IsBody, IsBlank, IsName};
ghost use Rattle.lrc_races_lines.specs.Lacking.{Lacks};
ghost use Rattle.lrc_races_score.specs.Claims.{Statement, statement_of, blank, IsLineNumber, IsPlace, SpellsClaim};

use crate::claim::Claim;
use lrc_races_lines::reading::split;
use lrc_text::read_number;

/// The greatest length of a name, in bytes.
const LONGEST_NAME: usize = 255;

fn is(text: &[u8], word: &[u8]) -> bool
    ensures { IsTrue result ↔ (text.now ≡ word.now) }
{
    text == word
}

fn is_name(text: &[u8]) -> bool
    ensures { IsTrue result ↔ IsName text.now }
{
    !text.is_empty()
        && text.len() <= LONGEST_NAME
        && text.iter().all(|byte| *byte != b'|' && *byte != b'(' && *byte != b')' && *byte != b'\n')
}

fn is_place(text: &[u8]) -> bool
    ensures { IsTrue result ↔ IsPlace text.now }
{
    !text.is_empty() && text.len() <= LONGEST_NAME && text.iter().all(|byte| *byte != b'|')
}

// The number of a line that digits write.
fn line_number(digits: &[u8]) -> Option<u64>
    ensures { MatchOption result ((line : ℕ) → ¬ IsLineNumber digits.now line)
        (λ line. IsLineNumber digits.now line) }
{
    let Some(line) = read_number(digits, u64::MAX) else {
        return None;
    };
    if line == 0 {
        return None;
    }
    Some(line)
}

// Splits a text at the last such byte.
fn split_last(text: &[u8], byte: u8) -> Option<(&[u8], &[u8])>
    ensures { MatchOption result (Lacks byte text.now)
        (λ parts. (text.now ≡ parts.0.now ++ byte ∷ parts.1.now) × Lacks byte parts.1.now) }
{
    let mut at = text.len();
    while at > 0 {
        if text[at - 1] == byte {
            return Some((&text[..at - 1], &text[at..]));
        }
        at -= 1;
    }
    None
}

// What is claimed behind the word `event`.
fn event_claim(rest: &[u8]) -> Option<Claim<'_>>
    ensures { MatchOption result
        ((claim : Statement) → ¬ SpellsClaim claim (codes "event" ++ blank ∷ rest.now))
        (λ claim. SpellsClaim (statement_of claim) (codes "event" ++ blank ∷ rest.now)) }
{
    let Some(line) = line_number(rest) else {
        return None;
    };
    Some(Claim::Event(line))
}

// What is claimed behind the word `pair`.
fn pair_claim(rest: &[u8]) -> Option<Claim<'_>>
    ensures { MatchOption result
        ((claim : Statement) → ¬ SpellsClaim claim (codes "pair" ++ blank ∷ rest.now))
        (λ claim. SpellsClaim (statement_of claim) (codes "pair" ++ blank ∷ rest.now)) }
{
    let Some((digits, others)) = split(rest, b' ') else {
        return None;
    };
    let Some(line) = line_number(digits) else {
        return None;
    };
    let Some(other) = line_number(others) else {
        return None;
    };
    Some(Claim::Pair(line, other))
}

// What is claimed behind the word `locations`.
fn locations_claim(rest: &[u8]) -> Option<Claim<'_>>
    ensures { MatchOption result
        ((claim : Statement) → ¬ SpellsClaim claim (codes "locations" ++ blank ∷ rest.now))
        (λ claim. SpellsClaim (statement_of claim) (codes "locations" ++ blank ∷ rest.now)) }
{
    let Some((place, other)) = split(rest, b'|') else {
        return None;
    };
    if !is_place(place) {
        return None;
    }
    if !is_place(other) {
        return None;
    }
    Some(Claim::Locations(place, other))
}

// What is claimed behind the word `variable`.
fn variable_claim(rest: &[u8]) -> Option<Claim<'_>>
    ensures { MatchOption result
        ((claim : Statement) → ¬ SpellsClaim claim (codes "variable" ++ blank ∷ rest.now))
        (λ claim. SpellsClaim (statement_of claim) (codes "variable" ++ blank ∷ rest.now)) }
{
    if !is_name(rest) {
        return None;
    }
    Some(Claim::Variable(rest))
}

// What is claimed behind the word `first`.
fn first_claim(rest: &[u8]) -> Option<Claim<'_>>
    ensures { MatchOption result
        ((claim : Statement) → ¬ SpellsClaim claim (codes "first" ++ blank ∷ rest.now))
        (λ claim. SpellsClaim (statement_of claim) (codes "first" ++ blank ∷ rest.now)) }
{
    let Some((name, digits)) = split_last(rest, b' ') else {
        return None;
    };
    if !is_name(name) {
        return None;
    }
    let Some(line) = line_number(digits) else {
        return None;
    };
    Some(Claim::First(name, line))
}

// What is claimed by a word and what stands behind the blank after it.
fn worded_claim<'a>(word: &'a [u8], rest: &'a [u8]) -> Option<Claim<'a>>
    requires { Lacks blank word.now }
    ensures { MatchOption result
        ((claim : Statement) → ¬ SpellsClaim claim (word.now ++ blank ∷ rest.now))
        (λ claim. SpellsClaim (statement_of claim) (word.now ++ blank ∷ rest.now)) }
{
    if is(word, b"event") {
        return event_claim(rest);
    }
    if is(word, b"pair") {
        return pair_claim(rest);
    }
    if is(word, b"locations") {
        return locations_claim(rest);
    }
    if is(word, b"variable") {
        return variable_claim(rest);
    }
    if is(word, b"first") {
        return first_claim(rest);
    }
    None
}

/// Returns the claim that the bytes of a line spell, without its carriage return, or none if they spell none.
pub fn read_claim(body: &[u8]) -> Option<Claim<'_>>
    ensures { MatchOption result ((claim : Statement) → ¬ SpellsClaim claim body.now)
        (λ claim. SpellsClaim (statement_of claim) body.now) }
{
    match split(body, b' ') {
        Some((word, rest)) => worded_claim(word, rest),
        None => None,
    }
}
