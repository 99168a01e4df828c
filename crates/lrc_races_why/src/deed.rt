// What a line has of an event: what its thread does.
ghost use Rattle.std.specs.Prelude.{◌≡◌, ◌++◌, ◌==◌, ◌≤◌, OnOk, flat_map, length};
ghost use Rattle.std.specs.List.{before_first, position_or_len};
ghost use Rattle.lrc_acts.specs.ActsText.{words_between};
ghost use Rattle.lrc_races_why.specs.Deeds.{before_bar, behind_bar, blank_and, parted, deed_text};

use lrc_acts::words::{before_comment, first_word};
use lrc_races_text::form::Form;
use std::alloc::AllocError;

fn place_of_bar(text: &[u8]) -> usize
    ensures place { result ≡ position_or_len (λ byte. byte == 124) text.now }
    ensures bound { result ≤ length text.now }
{
    text.iter()
        .position(|byte| *byte == b'|')
        .unwrap_or(text.len())
}

// What of a text stands before its first bar, or all of it.
fn before_bar(text: &[u8]) -> &[u8]
    ensures { result.now ≡ before_bar text.now }
{
    &text[..place_of_bar(text)]
}

// What stands behind it, or nothing.
fn behind_bar(text: &[u8]) -> &[u8]
    ensures { result.now ≡ behind_bar text.now }
{
    let place = place_of_bar(text);
    if place < text.len() {
        &text[place + 1..]
    } else {
        &[]
    }
}

// Adds the words of a text, each behind a blank.
fn push_more(text: &mut Vec<u8>, words: &[u8]) -> Result<(), AllocError>
    ensures { OnOk result (text.new.items
        ≡ text.old.items ++ flat_map blank_and (words_between words.now)) }
{
    let mut left = words;
    while let Some((word, behind)) = first_word(left) {
        text.extend_from_slice(b" ")?;
        text.extend_from_slice(word)?;
        left = behind;
    }
    Ok(())
}

// Adds the words of a text, with one blank between.
fn push_words(text: &mut Vec<u8>, words: &[u8]) -> Result<(), AllocError>
    ensures { OnOk result (text.new.items ≡ text.old.items ++ parted (words_between words.now)) }
{
    let Some((word, rest)) = first_word(words) else {
        return Ok(());
    };
    text.extend_from_slice(word)?;
    push_more(text, rest)?;
    Ok(())
}

// Adds the words behind the first one.
fn push_act(text: &mut Vec<u8>, line: &[u8]) -> Result<(), AllocError>
    ensures { OnOk result (text.new.items ≡ text.old.items ++ deed_text Form.Acts line.now) }
{
    let Some((_node, rest)) = first_word(before_comment(line)) else {
        return Ok(());
    };
    push_words(text, rest)?;
    Ok(())
}

/// Adds what the event on a line does, as the line has it. The line has neither a carriage return at its end nor a line
/// feed. It fails if memory runs out.
pub fn push_deed(text: &mut Vec<u8>, form: Form, line: &[u8]) -> Result<(), AllocError>
    ensures { OnOk result (text.new.items ≡ text.old.items ++ deed_text form line.now) }
{
    match form {
        Form::Std => {
            text.extend_from_slice(before_bar(behind_bar(line)))?;
            Ok(())
        }
        Form::Acts => {
            push_act(text, line)?;
            Ok(())
        }
    }
}
