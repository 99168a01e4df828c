// What is said of a row behind its columns.

ghost use Rattle.std.specs.Prelude.{◌≡◌, ◌<◌, ◌==◌, ◌||◌, ◌-◌, ◌∷◌, ◌++◌, [], IfOk, OnOk, codes, if◌then◌else◌, replicate};
ghost use Rattle.lrc_text.specs.Parts.{texts_of};
ghost use Rattle.lrc_chart_text.specs.Phrases.{again_text, arrow_phrase, lost_phrase, lost_phrases, name_of_column, number_of_row, only_if, padded_words, race_name};
ghost use Rattle.lrc_chart_text.specs.Phrases.{race_phrases, row_phrases, sent_phrase, sent_phrases, taken_phrase, taken_phrases, turn_phrases, words_of_row};

use crate::columns::push_times;
use lrc_chart_model::{Arrow, Lost, Picture, Race, Row};
use lrc_text::push_number;
use std::alloc::{AllocError, Global};

// The name of a column; none past the last one.
fn name_of_column(columns: &[Vec<u8>], column: u8) -> &[u8]
    ensures { result.now ≡ name_of_column columns.now column }
{
    match columns.get(usize::from(column)) {
        Some(name) => name.as_slice(),
        None => b"",
    }
}

/// Returns the words of a row, or none past the last row.
pub(crate) fn words_of_row(rows: &[Row], number: usize) -> &[u8]
    ensures { result.now ≡ words_of_row rows.now number }
{
    match rows.get(number) {
        Some(row) => row.words.as_slice(),
        None => b"",
    }
}

/// Returns the number that the row at a place shows, or the place itself past the last row.
pub(crate) fn number_of_row(rows: &[Row], place: usize) -> usize
    ensures { result ≡ number_of_row rows.now place }
{
    match rows.get(place) {
        Some(row) => row.number,
        None => place,
    }
}

/// Adds a copy of a phrase.
pub(crate) fn push_copy(
    alloc: Global,
    phrases: &mut Vec<Vec<u8>>,
    words: &[u8],
) -> Result<(), AllocError>
    ensures { OnOk result (texts_of phrases.new.items
        ≡ texts_of phrases.old.items ++ words.now ∷ []) }
{
    let phrase = Vec::from_slice(alloc, words)?;
    phrases.push(phrase)?;
    Ok(())
}

// ---- the turn

fn push_lead(
    alloc: Global,
    phrases: &mut Vec<Vec<u8>>,
    words: &[u8],
    place: &[u8],
) -> Result<(), AllocError>
    ensures { OnOk result (texts_of phrases.new.items
        ≡ texts_of phrases.old.items ++ padded_words words.now place.now ∷ []) }
{
    let mut phrase = Vec::from_slice(alloc, words)?;
    push_blanks(&mut phrase, words.len(), place.is_empty())?;
    phrases.push(phrase)?;
    Ok(())
}

// Adds blanks behind words of so many signs, so that a place stands below the others.
fn push_blanks(text: &mut Vec<u8>, size: usize, is_last: bool) -> Result<(), AllocError>
    ensures { OnOk result (text.new.items
        ≡ text.old.items ++ (if is_last then [] else replicate (16 - size) 32)) }
{
    if is_last {
        Ok(())
    } else {
        push_times(text, b' ', 16usize.saturating_sub(size))
    }
}

fn push_turn_phrases(alloc: Global, phrases: &mut Vec<Vec<u8>>, row: &Row) -> Result<(), AllocError>
    ensures { OnOk result (texts_of phrases.new.items
        ≡ texts_of phrases.old.items ++ turn_phrases row.now) }
{
    push_lead(alloc, phrases, row.words.as_slice(), row.place.as_slice())?;
    push_copy(alloc, phrases, row.place.as_slice())?;
    push_copy(alloc, phrases, row.time.as_slice())?;
    push_copy(alloc, phrases, row.invalid.as_slice())
}

// ---- messages

fn again_of(again: bool) -> &'static [u8]
    ensures { result.now ≡ again_text again }
{
    if again { b" again" } else { b"" }
}

fn push_message(
    text: &mut Vec<u8>,
    sign: &[u8],
    position: usize,
    arrow: &Arrow,
) -> Result<(), AllocError>
    requires { position < 18446744073709551615 }
    ensures { OnOk result (text.new.items
        ≡ text.old.items ++ arrow_phrase sign.now position arrow.now) }
{
    push_number(text, sign, position as u64 + 1)?;
    text.extend_from_slice(b" ")?;
    text.extend_from_slice(arrow.label.as_slice())?;
    text.extend_from_slice(again_of(arrow.again))
}

fn push_taken(
    alloc: Global,
    phrases: &mut Vec<Vec<u8>>,
    number: usize,
    position: usize,
    arrow: &Arrow,
) -> Result<(), AllocError>
    requires { position < 18446744073709551615 }
    ensures { OnOk result (texts_of phrases.new.items
        ≡ texts_of phrases.old.items
        ++ only_if (arrow.now.to == number) (taken_phrase position arrow.now)) }
{
    if arrow.to == number {
        let mut phrase = Vec::new(alloc);
        push_message(&mut phrase, b"<", position, arrow)?;
        phrases.push(phrase)?;
    }
    Ok(())
}

// Adds the messages that a row takes.
fn push_all_taken(
    alloc: Global,
    phrases: &mut Vec<Vec<u8>>,
    number: usize,
    picture: &Picture,
) -> Result<(), AllocError>
    ensures { OnOk result (texts_of phrases.new.items
        ≡ texts_of phrases.old.items ++ taken_phrases picture.now number) }
{
    for (position, arrow) in picture.arrows.iter().enumerate() {
        push_taken(alloc, phrases, number, position, arrow)?;
    }
    Ok(())
}

// Adds to whom a message is sent.
fn push_receiver(text: &mut Vec<u8>, columns: &[Vec<u8>], receiver: u8) -> Result<(), AllocError>
    ensures { OnOk result (text.new.items
        ≡ text.old.items ++ codes " to " ++ name_of_column columns.now receiver) }
{
    text.extend_from_slice(b" to ")?;
    text.extend_from_slice(name_of_column(columns, receiver))
}

fn push_sent(
    alloc: Global,
    phrases: &mut Vec<Vec<u8>>,
    columns: &[Vec<u8>],
    number: usize,
    position: usize,
    arrow: &Arrow,
) -> Result<(), AllocError>
    requires { position < 18446744073709551615 }
    ensures { OnOk result (texts_of phrases.new.items
        ≡ texts_of phrases.old.items
        ++ only_if (arrow.now.from == number) (sent_phrase columns.now position arrow.now)) }
{
    if arrow.from == number {
        let mut phrase = Vec::new(alloc);
        push_message(&mut phrase, b">", position, arrow)?;
        push_receiver(&mut phrase, columns, arrow.receiver)?;
        phrases.push(phrase)?;
    }
    Ok(())
}

// Adds the messages that a row sends and that are taken.
fn push_all_sent(
    alloc: Global,
    phrases: &mut Vec<Vec<u8>>,
    number: usize,
    picture: &Picture,
) -> Result<(), AllocError>
    ensures { OnOk result (texts_of phrases.new.items
        ≡ texts_of phrases.old.items ++ sent_phrases picture.now number) }
{
    let columns = picture.columns.as_slice();
    for (position, arrow) in picture.arrows.iter().enumerate() {
        push_sent(alloc, phrases, columns, number, position, arrow)?;
    }
    Ok(())
}

fn push_never(text: &mut Vec<u8>) -> Result<(), AllocError>
    ensures { OnOk result (text.new.items ≡ text.old.items ++ codes ", never taken") }
{
    text.extend_from_slice(b", never taken")
}

fn push_lost_words(text: &mut Vec<u8>, columns: &[Vec<u8>], lost: &Lost) -> Result<(), AllocError>
    ensures { OnOk result (text.new.items ≡ text.old.items ++ lost_phrase columns.now lost.now) }
{
    text.extend_from_slice(b">x ")?;
    text.extend_from_slice(lost.label.as_slice())?;
    push_receiver(text, columns, lost.receiver)?;
    push_never(text)
}

fn push_lost(
    alloc: Global,
    phrases: &mut Vec<Vec<u8>>,
    columns: &[Vec<u8>],
    number: usize,
    lost: &Lost,
) -> Result<(), AllocError>
    ensures { OnOk result (texts_of phrases.new.items
        ≡ texts_of phrases.old.items
        ++ only_if (lost.now.from == number) (lost_phrase columns.now lost.now)) }
{
    if lost.from == number {
        let mut phrase = Vec::new(alloc);
        push_lost_words(&mut phrase, columns, lost)?;
        phrases.push(phrase)?;
    }
    Ok(())
}

// Adds the messages that a row sends and that are never taken.
fn push_all_lost(
    alloc: Global,
    phrases: &mut Vec<Vec<u8>>,
    number: usize,
    picture: &Picture,
) -> Result<(), AllocError>
    ensures { OnOk result (texts_of phrases.new.items
        ≡ texts_of phrases.old.items ++ lost_phrases picture.now number) }
{
    let columns = picture.columns.as_slice();
    for lost in &picture.lost {
        push_lost(alloc, phrases, columns, number, lost)?;
    }
    Ok(())
}

// ---- races and circles of waiting

/// Adds the name of a group of races.
pub(crate) fn push_race_name(text: &mut Vec<u8>, number: usize) -> Result<(), AllocError>
    ensures { OnOk result (text.new.items ≡ text.old.items ++ race_name number) }
{
    push_number(text, b"race ", number as u64)
}

fn push_race(
    alloc: Global,
    phrases: &mut Vec<Vec<u8>>,
    number: usize,
    race: &Race,
) -> Result<(), AllocError>
    ensures { OnOk result (texts_of phrases.new.items
        ≡ texts_of phrases.old.items
        ++ only_if ((race.now.from == number) || (race.now.to == number))
        (race_name race.now.number)) }
{
    if race.from == number || race.to == number {
        let mut phrase = Vec::new(alloc);
        push_race_name(&mut phrase, race.number)?;
        phrases.push(phrase)?;
    }
    Ok(())
}

// Adds the groups of races of which a row has an act.
fn push_all_races(
    alloc: Global,
    phrases: &mut Vec<Vec<u8>>,
    number: usize,
    picture: &Picture,
) -> Result<(), AllocError>
    ensures { OnOk result (texts_of phrases.new.items
        ≡ texts_of phrases.old.items ++ race_phrases picture.now number) }
{
    for race in &picture.races {
        push_race(alloc, phrases, number, race)?;
    }
    Ok(())
}

// Adds that a row is in a circle of waiting.
fn push_circle(alloc: Global, phrases: &mut Vec<Vec<u8>>, circled: bool) -> Result<(), AllocError>
    ensures { OnOk result (texts_of phrases.new.items
        ≡ texts_of phrases.old.items ++ only_if circled (codes "deadlock")) }
{
    if circled {
        push_copy(alloc, phrases, b"deadlock")?;
    }
    Ok(())
}

/// Returns the phrases about a row.
pub(crate) fn row_phrases(
    alloc: Global,
    picture: &Picture,
    number: usize,
    row: &Row,
) -> Result<Vec<Vec<u8>>, AllocError>
    ensures { IfOk result (λ phrases. texts_of phrases.items
        ≡ row_phrases picture.now number row.now) }
{
    let mut phrases = Vec::new(alloc);
    push_turn_phrases(alloc, &mut phrases, row)?;
    push_all_taken(alloc, &mut phrases, number, picture)?;
    push_all_sent(alloc, &mut phrases, number, picture)?;
    push_all_lost(alloc, &mut phrases, number, picture)?;
    push_all_races(alloc, &mut phrases, number, picture)?;
    push_circle(alloc, &mut phrases, row.circled)?;
    Ok(phrases)
}
