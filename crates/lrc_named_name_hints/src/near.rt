// Names that are near to one that is unknown.

ghost use Rattle.std.specs.Prelude.{◌≡◌, ◌++◌, IfOk, MatchOption, OnOk, map};
ghost use Rattle.std.specs.List.{list_all, list_any};
ghost use Rattle.std.specs.Option.{option_map};
ghost use Rattle.lrc_named_entries.specs.View.{entry_seen};
ghost use Rattle.lrc_named_name_hints.specs.Hint.{words_of};
ghost use Rattle.lrc_named_name_hints.specs.Hints.{IsNearHint, candidate, candidates, counts, ends_before, is_declared_behind, is_declared_there, is_in_statement, is_set_by, is_set_in, is_spelled, sets};
ghost use Rattle.lrc_named_name_hints.specs.Seen.{name_in, seen_of};
ghost use Rattle.lrc_named_tokens.specs.View.{lexeme_of, located_of};

use crate::hint::Hint;
use crate::seen::{Seen, is_parameter, name_of};
use lrc_named_entries::entry::Entry;
use lrc_named_tokens::token::{Keyword, Lexeme, Located, Sign, Token};
use lrc_nearest::nearest;
use std::alloc::{AllocError, Global};

/// Returns the hint that tells of the name nearest to this one, if one is near. It fails only if memory runs out.
pub fn near<'t>(alloc: Global, seen: &Seen<'t>, name: &[u8]) -> Result<Option<Hint<'t>>, AllocError>
    ensures { IfOk result (λ hint. IsNearHint (candidates (seen_of seen.now)) name.now
        (words_of hint)) }
{
    let words = candidates(alloc, seen)?;
    Ok(nearest_hint(&words, name))
}

fn nearest_hint<'t>(words: &[&'t [u8]], name: &[u8]) -> Option<Hint<'t>>
    ensures { IsNearHint (map (λ word. word.now) words.now) name.now (words_of result) }
{
    match nearest(words, name) {
        Some(place) => Some(Hint::Near(words[place])),
        None => None,
    }
}

// The names that are declared there, where they stand in the text.
fn candidates<'t>(alloc: Global, seen: &Seen<'t>) -> Result<Vec<&'t [u8]>, AllocError>
    ensures { IfOk result (λ words. map (λ word. word.now) words.items
        ≡ candidates (seen_of seen.now)) }
{
    let mut words = Vec::new(alloc);
    for found in seen.tokens {
        push_candidate(&mut words, seen, name_of(found.lexeme))?;
    }
    Ok(words)
}

fn push_candidate<'t>(
    words: &mut Vec<&'t [u8]>,
    seen: &Seen<'t>,
    name: Option<&'t [u8]>,
) -> Result<(), AllocError>
    ensures { OnOk result (map (λ word. word.now) words.new.items
        ≡ map (λ word. word.now) words.old.items
        ++ candidate (seen_of seen.now) (option_map (λ name. name.now) name.entry)) }
{
    match name {
        Some(name) => push_if_declared(words, seen, name),
        None => Ok(()),
    }
}

fn push_if_declared<'t>(
    words: &mut Vec<&'t [u8]>,
    seen: &Seen<'t>,
    name: &'t [u8],
) -> Result<(), AllocError>
    ensures { OnOk result (map (λ word. word.now) words.new.items
        ≡ map (λ word. word.now) words.old.items
        ++ candidate (seen_of seen.now) (Some name.entry.now)) }
{
    if is_declared_there(seen, name) {
        words.push(name)?;
    }
    Ok(())
}

// Whether a name is declared at the token at fault.
fn is_declared_there(seen: &Seen<'_>, name: &[u8]) -> bool
    ensures { result ≡ is_declared_there (seen_of seen.now) name.now }
{
    is_declared_before(seen, name)
        || (is_parameter(seen, name) || (is_in_statement(seen) && is_set_in(seen.tokens, name)))
}

fn is_declared_before(seen: &Seen<'_>, name: &[u8]) -> bool
    ensures { result ≡ list_any (λ e. is_declared_behind (seen_of seen.now).at name.now e)
        (map entry_seen seen.now.entries.now) }
{
    for entry in seen.entries {
        if is_declared_behind(seen.at, name, entry) {
            return true;
        }
    }
    false
}

// Whether this declares a name, and ends before a token.
fn is_declared_behind(at: usize, name: &[u8], entry: &Entry<'_>) -> bool
    ensures { result ≡ is_declared_behind at name.now (entry_seen entry.now) }
{
    (entry.last as usize) < at && entry.name.bytes == name
}

// Whether the token at fault stands in a statement: behind all that is declared.
fn is_in_statement(seen: &Seen<'_>) -> bool
    ensures { result ≡ is_in_statement (seen_of seen.now) }
{
    for entry in seen.entries {
        if !ends_before(seen.at, entry) {
            return false;
        }
    }
    true
}

fn ends_before(at: usize, entry: &Entry<'_>) -> bool
    ensures { result ≡ ends_before at (entry_seen entry.now) }
{
    (entry.last as usize) < at
}

// Whether a name is set somewhere.
fn is_set_in(tokens: &[Located<'_>], name: &[u8]) -> bool
    ensures { result ≡ is_set_in name.now (map located_of tokens.now) }
{
    for place in 1..tokens.len() {
        if is_set_by(name, tokens[place - 1].lexeme, tokens[place].lexeme) {
            return true;
        }
    }
    false
}

// Whether these two, one behind the other, set a name.
fn is_set_by(name: &[u8], one: Lexeme<'_>, next: Lexeme<'_>) -> bool
    ensures { result ≡ is_set_by name.now (lexeme_of one.entry) (lexeme_of next.entry) }
{
    (is_spelled(name, name_of(one)) && sets(next))
        || (counts(one) && is_spelled(name, name_of(next)))
}

fn sets(lexeme: Lexeme<'_>) -> bool
    ensures { result ≡ sets (lexeme_of lexeme.entry) }
{
    matches!(
        lexeme,
        Lexeme::Token(Token::Sign(Sign::Assign | Sign::AddAssign | Sign::SubtractAssign))
    )
}

fn counts(lexeme: Lexeme<'_>) -> bool
    ensures { result ≡ counts (lexeme_of lexeme.entry) }
{
    matches!(lexeme, Lexeme::Token(Token::Keyword(Keyword::For)))
}

fn is_spelled(name: &[u8], found: Option<&[u8]>) -> bool
    ensures { result ≡ is_spelled name.now (option_map (λ found. found.now) found.entry) }
{
    match found {
        Some(found) => found == name,
        None => false,
    }
}
