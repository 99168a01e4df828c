// The names and the numbers of label lines.

ghost use Rattle.std.specs.Prelude.{◌≡◌, ◌<◌, ◌↔◌, ℕ, List, [], IsTrue, None, Some, nat_lt, true, if◌then◌else◌};
ghost use Rattle.std.specs.Char.{is_ascii_digit};
ghost use Rattle.std.specs.List.{list_all};
ghost use Rattle.std.specs.Str.Parse.{IsNumeral, digits_value};
ghost use Rattle.lrc_labels.specs.Name.{is_keyword, is_letter, is_name, is_numeral, is_word_byte};

use lrc_lang::lexer::spelling_of;
use lrc_lang::token::Keyword;
use lrc_text::read_number;

/// Every keyword.
const KEYWORDS: [Keyword; 11] = [
    Keyword::Words,
    Keyword::Locks,
    Keyword::Acquire,
    Keyword::Release,
    Keyword::Barrier,
    Keyword::Print,
    Keyword::If,
    Keyword::Else,
    Keyword::While,
    Keyword::Me,
    Keyword::Nodes,
];

/// Returns whether these bytes are a name: a word of the language that is no keyword.
pub fn is_name(bytes: &[u8]) -> bool
    ensures { result ≡ is_name bytes.now }
{
    match bytes {
        [first, rest @ ..] => is_letter(*first) && are_word_bytes(rest) && !is_keyword(bytes),
        [] => false,
    }
}

fn are_word_bytes(bytes: &[u8]) -> bool
    ensures { result ≡ list_all is_word_byte bytes.now }
{
    bytes.iter().all(|byte| is_word_byte(*byte))
}

fn is_word_byte(byte: u8) -> bool
    ensures { result ≡ is_word_byte byte }
{
    is_letter(byte) || byte.is_ascii_digit()
}

fn is_letter(byte: u8) -> bool
    ensures { result ≡ is_letter byte }
{
    byte.is_ascii_alphabetic() || byte == b'_'
}

fn is_keyword(word: &[u8]) -> bool
    ensures { result ≡ is_keyword word.now }
{
    KEYWORDS.iter().any(|keyword| spelling_of(*keyword) == word)
}

/// Returns whether these bytes are one or more decimal digits.
pub fn is_numeral(bytes: &[u8]) -> bool
    ensures { result ≡ is_numeral bytes.now }
{
    match bytes {
        [_first, ..] => are_digits(bytes),
        [] => false,
    }
}

fn are_digits(bytes: &[u8]) -> bool
    ensures { result ≡ list_all is_ascii_digit bytes.now }
{
    bytes.iter().all(|byte| byte.is_ascii_digit())
}

/// Returns the number that decimal digits write, or none if it is not below `limit`.
pub fn number_below(digits: &[u8], limit: u32) -> Option<u32>
    requires { is_numeral digits.now ≡ true }
    ensures { result ≡ (if nat_lt (digits_value 10 digits.now) limit then Some
        (digits_value 10 digits.now) else None) }
{
    match read_number(digits, u64::from(limit)) {
        Some(number) => below(number, limit),
        None => None,
    }
}

fn below(number: u64, limit: u32) -> Option<u32>
    ensures { result ≡ (if nat_lt number limit then Some number else None) }
{
    if number < u64::from(limit) {
        Some(number as u32)
    } else {
        None
    }
}
