// The lexer: it cuts a text into tokens from the left, in one pass and without copying it.

ghost use Rattle.std.specs.Prelude.{◌≡◌, ◌≢◌, ◌<◌, ◌≤◌, ◌↔◌, ℕ, ◌+◌, ◌^◌, [], ◌∷◌, length, All, IsTrue, MatchOption};
ghost use Rattle.std.specs.Option.{SomeIff};
ghost use Rattle.lrc_lang.specs.declared.token.Sign.{Sign};
ghost use Rattle.lrc_lang.specs.Lexemes.{IsDigit, IsLetter, BeginsWith, IsSpan, value_of, keyword_text, IsKeyword, sign_text, NextIs, IsShorter};
ghost use Rattle.lrc_lang.specs.Lexer.{Has, IsReady, Passes, Takes};
ghost use Rattle.lrc_lang.specs.Positions.{PassesTo, TakesHere, NextAt};
ghost use Rattle.lrc_lang.specs.Parser.View.{lexeme_of, placed_of};

use crate::token::{Keyword, Lexeme, Placed, Sign, Token};

/// Every keyword.
const KEYWORDS: [Keyword; 11] = [
    Keyword::Words,
    Keyword::Locks,
    Keyword::Acquire,
    Keyword::Release,
    Keyword::Barrier,
    Keyword::Print,
    Keyword::If,
    Keyword::Else,
    Keyword::While,
    Keyword::Me,
    Keyword::Nodes,
];

/// A text that is read from the left.
#[derive(Drop)]
pub struct Lexer<'t> {
    /// The bytes not read yet.
    pub rest: &'t [u8],
    /// The line on which they begin, counted from 1.
    pub line: u32,
    /// The line stays in range, however many line feeds follow.
    ghost line_fits: { line + length rest.now < 2 ^ 32 },
}

/// The next lexeme of a text, and how many bytes of the text are left from its first byte on.
#[derive(Clone, Copy)]
pub struct Met<'t> {
    pub found: Placed<'t>,
    pub left: usize,
}

/// A class of bytes that are read together.
#[derive(Clone, Copy)]
pub enum Class {
    /// `0` to `9`.
    Digit,
    /// Letters, digits and `_`.
    Word,
    /// Any bytes except line feeds.
    Comment,
}

impl<'t> Lexer<'t> {
    /// Returns a lexer at the beginning of a text.
    pub fn new(text: &'t [u8]) -> Self
        requires { 1 + length text.now < 2 ^ 32 }
        ensures rest { result.rest.now ≡ text.now }
        ensures line { result.line ≡ 1 }
    {
        Lexer {
            rest: text,
            line: 1,
        }
    }

    /// Skips blanks, line feeds and comments, and takes the next lexeme. After the end of the text or a fault, nothing
    /// is promised about further calls.
    pub fn next_lexeme(&mut self) -> Placed<'t>
        ensures next { NextIs self.old.line self.old.rest.now
            (placed_of result) self.new.line self.new.rest.now }
        ensures shorter { IsShorter (lexeme_of result.lexeme) self.old.rest.now self.new.rest.now }
    {
        self.skip();
        let line = self.line;
        let (lexeme, rest) = lexeme_at(self.rest);
        self.rest = rest;
        Placed { line, lexeme }
    }

    /// Takes the next lexeme, as `next_lexeme` does, and tells where it is.
    pub fn next_met(&mut self) -> Met<'t>
        ensures next { NextAt self.old.line self.old.rest.now
            (placed_of result.found) result.left self.new.rest.now }
        ensures line { self.new.line ≡ result.found.line }
        ensures shorter { IsShorter (lexeme_of result.found.lexeme) self.old.rest.now
            self.new.rest.now }
    {
        self.skip();
        let left = self.rest.len();
        let line = self.line;
        let (lexeme, rest) = lexeme_at(self.rest);
        self.rest = rest;
        Met {
            found: Placed { line, lexeme },
            left,
        }
    }

    // Passes over blanks, line feeds and comments.
    fn skip(&mut self)
        ensures places { PassesTo self.old.line self.old.rest.now self.new.line self.new.rest.now }
        ensures passed { Passes self.old.line self.old.rest.now self.new.line self.new.rest.now }
        ensures ready { IsReady self.new.rest.now }
        ensures shorter { length self.new.rest.now ≤ length self.old.rest.now }
    {
        while let [byte, rest @ ..] = self.rest {
            match *byte {
                b' ' | b'\t' | b'\r' => self.rest = rest,
                b'\n' => {
                    self.rest = rest;
                    self.line += 1;
                }
                b'#' => self.rest = split_front(Class::Comment, rest).1,
                _ => return,
            }
        }
    }
}

// What stands at the front of a text, and the rest behind it.
fn lexeme_at(text: &[u8]) -> (Lexeme<'_>, &[u8])
    requires { IsReady text.now }
    ensures here { TakesHere text.now (lexeme_of result.0) result.1.now }
    ensures taken { Takes text.now (lexeme_of result.0) result.1.now }
    ensures shorter { IsShorter (lexeme_of result.0) text.now result.1.now }
{
    match text {
        [] => (Lexeme::Token(Token::End), text),
        [first, _rest @ ..] if is_in(Class::Digit, *first) => number_at(text),
        [first, _rest @ ..] if is_letter(*first) => word_at(text),
        [first, rest @ ..] => sign_at(*first, rest),
    }
}

// The number at the front of a text, or the fault where its digits are none, and the rest behind the digits.
fn number_at(text: &[u8]) -> (Lexeme<'_>, &[u8])
    requires { BeginsWith IsDigit text.now }
    ensures here { TakesHere text.now (lexeme_of result.0) result.1.now }
    ensures taken { Takes text.now (lexeme_of result.0) result.1.now }
    ensures shorter { IsShorter (lexeme_of result.0) text.now result.1.now }
{
    let (digits, rest) = split_front(Class::Digit, text);
    if begins_with_letter(rest) {
        return (Lexeme::BadNumber, rest);
    }
    match number_of(digits) {
        Some(value) => (Lexeme::Token(Token::Number(value)), rest),
        None => (Lexeme::BadNumber, rest),
    }
}

// The keyword or the name at the front of a text, and the rest behind it.
fn word_at(text: &[u8]) -> (Lexeme<'_>, &[u8])
    requires { BeginsWith IsLetter text.now }
    ensures here { TakesHere text.now (lexeme_of result.0) result.1.now }
    ensures taken { Takes text.now (lexeme_of result.0) result.1.now }
    ensures shorter { IsShorter (lexeme_of result.0) text.now result.1.now }
{
    let (word, rest) = split_front(Class::Word, text);
    match keyword_of(word) {
        Some(keyword) => (Lexeme::Token(Token::Keyword(keyword)), rest),
        None => (Lexeme::Token(Token::Name(word)), rest),
    }
}

// The sign at the front of a text of a first byte and the bytes behind it, or the fault where that byte begins none.
fn sign_at(first: u8, behind: &[u8]) -> (Lexeme<'_>, &[u8])
    requires ready { IsReady (first ∷ behind.now) }
    requires no_digit { ¬ IsDigit first }
    requires no_letter { ¬ IsLetter first }
    ensures here { TakesHere (first ∷ behind.now) (lexeme_of result.0) result.1.now }
    ensures taken { Takes (first ∷ behind.now) (lexeme_of result.0) result.1.now }
    ensures shorter { IsShorter (lexeme_of result.0) (first ∷ behind.now) result.1.now }
{
    if let Some((sign, rest)) = long_sign_at(first, behind) {
        return (Lexeme::Token(Token::Sign(sign)), rest);
    }
    match short_sign(first) {
        Some(sign) => (Lexeme::Token(Token::Sign(sign)), behind),
        None => (Lexeme::BadByte, behind),
    }
}

// The sign of two bytes, this one and a `=` behind it, and the rest behind that.
fn long_sign_at(first: u8, behind: &[u8]) -> Option<(Sign, &[u8])>
    ensures { MatchOption result
        (BeginsWith (λ byte. byte ≡ 61) behind.now → (sign : Sign)
        → sign_text sign ≢ first ∷ 61 ∷ [])
        (λ found. (sign_text found.0 ≡ first ∷ 61 ∷ []) × (behind.now ≡ 61 ∷ found.1.now)) }
{
    match behind {
        [b'=', rest @ ..] => Some((long_sign(first)?, rest)),
        _ => None,
    }
}

// The sign of this byte and `=`.
fn long_sign(first: u8) -> Option<Sign>
    ensures { MatchOption result ((sign : Sign) → sign_text sign ≢ first ∷ 61 ∷ [])
        (λ sign. sign_text sign ≡ first ∷ 61 ∷ []) }
{
    match first {
        b'=' => Some(Sign::Equal),
        b'!' => Some(Sign::NotEqual),
        b'<' => Some(Sign::LessOrEqual),
        b'>' => Some(Sign::GreaterOrEqual),
        _ => None,
    }
}

// The sign of this byte alone.
fn short_sign(first: u8) -> Option<Sign>
    ensures { MatchOption result ((sign : Sign) → sign_text sign ≢ first ∷ [])
        (λ sign. sign_text sign ≡ first ∷ []) }
{
    match first {
        b';' => Some(Sign::Semicolon),
        b'=' => Some(Sign::Assign),
        b'[' => Some(Sign::OpenBracket),
        b']' => Some(Sign::CloseBracket),
        b'{' => Some(Sign::OpenBrace),
        b'}' => Some(Sign::CloseBrace),
        b'(' => Some(Sign::OpenParenthesis),
        b')' => Some(Sign::CloseParenthesis),
        b'+' => Some(Sign::Plus),
        b'-' => Some(Sign::Minus),
        b'*' => Some(Sign::Star),
        b'/' => Some(Sign::Slash),
        b'%' => Some(Sign::Percent),
        b'<' => Some(Sign::Less),
        b'>' => Some(Sign::Greater),
        _ => None,
    }
}

// The keyword that is spelled so.
fn keyword_of(word: &[u8]) -> Option<Keyword>
    ensures { MatchOption result (¬ IsKeyword word.now)
        (λ keyword. word.now ≡ keyword_text keyword) }
{
    KEYWORDS
        .iter()
        .find(|keyword| spelling_of(**keyword) == word)
        .copied()
}

/// Returns how a keyword is spelled.
pub fn spelling_of(keyword: Keyword) -> &'static [u8]
    ensures { result.now ≡ keyword_text keyword }
{
    match keyword {
        Keyword::Words => b"words",
        Keyword::Locks => b"locks",
        Keyword::Acquire => b"acquire",
        Keyword::Release => b"release",
        Keyword::Barrier => b"barrier",
        Keyword::Print => b"print",
        Keyword::If => b"if",
        Keyword::Else => b"else",
        Keyword::While => b"while",
        Keyword::Me => b"me",
        Keyword::Nodes => b"nodes",
    }
}

/// Returns the number that decimal digits write, unless it is over 2^64 - 1.
pub fn number_of(digits: &[u8]) -> Option<u64>
    requires { All IsDigit digits.now }
    ensures { SomeIff result (value_of digits.now < 2 ^ 64) (value_of digits.now) }
{
    let mut value: u64 = 0;
    for digit in digits {
        value = value
            .checked_mul(10)?
            .checked_add(u64::from(*digit - b'0'))?;
    }
    Some(value)
}

/// Splits a text into the bytes of a class at its front, as many as stand there, and the rest behind them.
pub fn split_front(class: Class, text: &[u8]) -> (&[u8], &[u8])
    ensures { IsSpan (Has class) text.now result.0.now result.1.now }
{
    for (place, byte) in text.iter().enumerate() {
        if !is_in(class, *byte) {
            return text.split_at(place);
        }
    }
    text.split_at(text.len())
}

/// Returns whether a byte is of this class.
pub fn is_in(class: Class, byte: u8) -> bool
    ensures { IsTrue result ↔ Has class byte }
{
    match class {
        Class::Digit => byte.is_ascii_digit(),
        Class::Word => is_letter(byte) || byte.is_ascii_digit(),
        Class::Comment => byte != b'\n',
    }
}

/// Returns whether a byte is a letter or `_`.
pub fn is_letter(byte: u8) -> bool
    ensures { IsTrue result ↔ IsLetter byte }
{
    byte.is_ascii_alphabetic() || byte == b'_'
}

/// Returns whether a text begins with a letter or `_`.
pub fn begins_with_letter(text: &[u8]) -> bool
    ensures { IsTrue result ↔ BeginsWith IsLetter text.now }
{
    match text {
        [byte, ..] => is_letter(*byte),
        [] => false,
    }
}
