// A word of a command line, as a shell reads it.

ghost use Rattle.std.specs.Prelude.{◌≡◌, ◌++◌, OnOk};
ghost use Rattle.std.specs.List.{flat_map, list_all};
ghost use Rattle.lrc_chart_title.specs.Word.{behind_text, front_text, is_dashed, is_plain, needs_no_quotes, quoted, quoted_byte, shell_word, value_text};

use std::alloc::AllocError;

// The signs that stand for themselves wherever they stand in a word.
static PLAIN_SIGNS: [u8; 10] = *b"@%+=:,./-_";

fn is_plain(byte: u8) -> bool
    ensures { result ≡ is_plain byte }
{
    byte.is_ascii_alphanumeric() || PLAIN_SIGNS.contains(&byte)
}

fn are_plain(word: &[u8]) -> bool
    ensures { result ≡ list_all is_plain word.now }
{
    word.iter().all(|byte| is_plain(*byte))
}

fn needs_no_quotes(word: &[u8]) -> bool
    ensures { result ≡ needs_no_quotes word.now }
{
    match word {
        [_first, ..] => are_plain(word),
        [] => false,
    }
}

fn push_quoted_byte(text: &mut Vec<u8>, byte: u8) -> Result<(), AllocError>
    ensures { OnOk result (text.new.items ≡ text.old.items ++ quoted_byte byte) }
{
    if byte == b'\'' {
        text.extend_from_slice(b"'\\''")
    } else {
        text.push(byte)?;
        Ok(())
    }
}

fn push_quoted_bytes(text: &mut Vec<u8>, word: &[u8]) -> Result<(), AllocError>
    ensures { OnOk result (text.new.items ≡ text.old.items ++ flat_map quoted_byte word.now) }
{
    for byte in word {
        push_quoted_byte(text, *byte)?;
    }
    Ok(())
}

fn push_quoted(text: &mut Vec<u8>, word: &[u8]) -> Result<(), AllocError>
    ensures { OnOk result (text.new.items ≡ text.old.items ++ quoted word.now) }
{
    text.extend_from_slice(b"'")?;
    push_quoted_bytes(text, word)?;
    text.extend_from_slice(b"'")
}

// Whether a word would be read as an option, if it stood where one may stand. `-` alone is a file.
fn is_dashed(word: &[u8]) -> bool
    ensures { result ≡ is_dashed word.now }
{
    match word {
        [first, _second, ..] => *first == b'-',
        _ => false,
    }
}

// Adds a word, in single quotes if it needs them.
fn push_word(text: &mut Vec<u8>, word: &[u8]) -> Result<(), AllocError>
    ensures { OnOk result (text.new.items ≡ text.old.items ++ shell_word word.now) }
{
    if needs_no_quotes(word) {
        text.extend_from_slice(word)
    } else {
        push_quoted(text, word)
    }
}

// Adds what stands before a word, and the word.
fn push_behind(text: &mut Vec<u8>, before: &[u8], word: &[u8]) -> Result<(), AllocError>
    ensures { OnOk result (text.new.items ≡ text.old.items ++ (before.now ++ shell_word word.now)) }
{
    text.extend_from_slice(before)?;
    push_word(text, word)
}

/// Adds an option and the word that is its value, with `=` between them if the word begins with `-`.
pub(crate) fn push_value(text: &mut Vec<u8>, option: &[u8], word: &[u8]) -> Result<(), AllocError>
    ensures { OnOk result (text.new.items ≡ text.old.items ++ value_text option.now word.now) }
{
    text.extend_from_slice(option)?;
    if is_dashed(word) {
        push_behind(text, b"=", word)
    } else {
        push_behind(text, b" ", word)
    }
}

/// Adds the file that stands before all options, unless it begins with `-`.
pub(crate) fn push_front(text: &mut Vec<u8>, file: &[u8]) -> Result<(), AllocError>
    ensures { OnOk result (text.new.items ≡ text.old.items ++ front_text file.now) }
{
    if is_dashed(file) {
        return Ok(());
    }
    push_behind(text, b" ", file)
}

/// Adds a file that begins with `-`, which stands behind all options.
pub(crate) fn push_last(text: &mut Vec<u8>, file: &[u8]) -> Result<(), AllocError>
    ensures { OnOk result (text.new.items ≡ text.old.items ++ behind_text file.now) }
{
    if is_dashed(file) {
        return push_behind(text, b" -- ", file);
    }
    Ok(())
}
