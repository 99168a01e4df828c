// Words with their values.

ghost use Rattle.std.specs.Prelude.{◌≡◌, ◌++◌, ◌<◌, ◌^◌, IfOk, OnOk, codes};
ghost use Rattle.lrc_state_text.specs.Json.{later, listed};
ghost use Rattle.lrc_state_text.specs.Words.{changed_word, changed_words, changes_text, first_word, used_word, used_words};
ghost use Rattle.lrc_state_text.specs.Words.{values_text, word_text, words_text};

use lrc_page::{Change, Changes, Size};
use lrc_text::push_number;
use std::alloc::{AllocError, Global};

/// A word of the shared memory, with its value.
#[derive(Clone, Copy)]
pub struct Word {
    pub number: u64,
    pub value: u64,
}

/// Returns the number of the first word of a page.
pub(crate) fn first_word(size: Size, page: u16) -> u32
    ensures { result ≡ first_word size page }
{
    u32::from(page) * u32::from(size.words())
}

#[tactic(auto, unfolding(crate::specs::Words::word_text))]
fn push_word(text: &mut Vec<u8>, word: Word) -> Result<(), AllocError>
    ensures { OnOk result (text.new.items ≡ text.old.items ++ word_text word) }
{
    push_number(text, b"\"", word.number)?;
    push_number(text, b"\":\"", word.value)?;
    text.extend_from_slice(b"\"")
}

// Adds a word behind others.
fn push_next(text: &mut Vec<u8>, word: Word) -> Result<(), AllocError>
    ensures { OnOk result (text.new.items ≡ text.old.items ++ (codes "," ++ word_text word)) }
{
    text.extend_from_slice(b",")?;
    push_word(text, word)
}

fn push_later(text: &mut Vec<u8>, words: &[Word]) -> Result<(), AllocError>
    ensures { OnOk result (text.new.items ≡ text.old.items ++ later word_text words.now) }
{
    for word in words {
        push_next(text, *word)?;
    }
    Ok(())
}

#[tactic(auto, unfolding(crate::specs::Json::listed))]
fn push_listed(text: &mut Vec<u8>, words: &[Word]) -> Result<(), AllocError>
    ensures { OnOk result (text.new.items ≡ text.old.items ++ listed word_text words.now) }
{
    match words {
        [] => Ok(()),
        [first, rest @ ..] => {
            push_word(text, *first)?;
            push_later(text, rest)
        }
    }
}

#[tactic(auto, unfolding(crate::specs::Words::words_text))]
fn push_words(text: &mut Vec<u8>, words: &[Word]) -> Result<(), AllocError>
    ensures { OnOk result (text.new.items ≡ text.old.items ++ words_text words.now) }
{
    text.extend_from_slice(b"{")?;
    push_listed(text, words)?;
    text.extend_from_slice(b"}")
}

// Puts a word behind others, at this place from the first word on, unless its value is 0.
fn put_used(words: &mut Vec<Word>, first: u32, place: usize, value: u64) -> Result<(), AllocError>
    requires { place < 2 ^ 63 }
    ensures { OnOk result (words.new.items ≡ words.old.items ++ used_word first place value) }
{
    if value != 0 {
        let number = u64::from(first) + place as u64;
        words.push(Word { number, value })?;
    }
    Ok(())
}

// The words with these values, from this word on, whose value is not 0.
fn used_words(alloc: Global, first: u32, values: &[u64]) -> Result<Vec<Word>, AllocError>
    ensures { IfOk result (λ words. words.items ≡ used_words first values.now) }
{
    let mut words = Vec::new(alloc);
    for (place, value) in values.iter().enumerate() {
        put_used(&mut words, first, place, *value)?;
    }
    Ok(words)
}

// The word that a change is of, on the page that begins with this word.
fn changed_word(first: u32, change: Change) -> Word
    ensures { result ≡ changed_word first change }
{
    Word {
        number: u64::from(first) + u64::from(change.offset),
        value: change.value,
    }
}

// The words that changes name, of the page that begins with this word.
fn changed_words(alloc: Global, first: u32, changes: &Changes) -> Result<Vec<Word>, AllocError>
    ensures { IfOk result (λ words. words.items ≡ changed_words first changes.now) }
{
    let mut words = Vec::new(alloc);
    for place in 0..changes.len() {
        words.push(changed_word(first, changes.at(place)))?;
    }
    Ok(words)
}

/// Adds the values of a page whose first word is `first`, without the values that are 0.
pub(crate) fn push_values(text: &mut Vec<u8>, first: u32, values: &[u64]) -> Result<(), AllocError>
    ensures { OnOk result (text.new.items ≡ text.old.items ++ values_text first values.now) }
{
    let words = used_words(*text.allocator(), first, values)?;
    push_words(text, &words)
}

/// Adds the changes of a page whose first word is `first`.
pub(crate) fn push_changes(
    text: &mut Vec<u8>,
    first: u32,
    changes: &Changes,
) -> Result<(), AllocError>
    ensures { OnOk result (text.new.items ≡ text.old.items ++ changes_text first changes.now) }
{
    let words = changed_words(*text.allocator(), first, changes)?;
    push_words(text, &words)
}
