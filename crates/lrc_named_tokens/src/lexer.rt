// The lexer: it cuts a text into tokens from the left, in one pass and without copying it.

ghost use Rattle.std.specs.Prelude.{◌≡◌, ◌≢◌, ◌<◌, ◌≤◌, ◌↔◌, ℕ, ◌+◌, ◌-◌, [], ◌∷◌, length, IsTrue, MatchOption};
ghost use Rattle.lrc_lang.specs.Lexemes.{IsDigit, IsLetter, BeginsWith};
ghost use Rattle.lrc_lang.specs.Lexer.{IsReady};
ghost use Rattle.lrc_named_tokens.specs.declared.token.Sign.{Sign};
ghost use Rattle.lrc_named_tokens.specs.Lexemes.{beginning, along, next_line, keyword_text, IsKeyword, sign_text};
ghost use Rattle.lrc_named_tokens.specs.Lexer.{Passes, Takes, NextIs, IsShorter, HasNoLong, IsLong};
ghost use Rattle.lrc_named_tokens.specs.View.{lexeme_of, located_of, place_of};

use crate::token::{Keyword, Lexeme, Located, Place, Sign, Token};
use lrc_lang::lexer::{Class, begins_with_letter, is_in, is_letter, number_of, split_front};

/// Every keyword.
const KEYWORDS: [Keyword; 22] = [
    Keyword::Words,
    Keyword::Locks,
    Keyword::Acquire,
    Keyword::Release,
    Keyword::Barrier,
    Keyword::Print,
    Keyword::If,
    Keyword::Else,
    Keyword::While,
    Keyword::Me,
    Keyword::Nodes,
    Keyword::Const,
    Keyword::Shared,
    Keyword::Lock,
    Keyword::Fn,
    Keyword::For,
    Keyword::In,
    Keyword::With,
    Keyword::Assert,
    Keyword::And,
    Keyword::Or,
    Keyword::Not,
];

/// A text that is read from the left.
#[derive(Drop)]
pub struct Lexer<'t> {
    /// The bytes not read yet.
    pub rest: &'t [u8],
    /// Where they begin.
    pub place: Place,
    /// The place stays in range, however the text goes on.
    ghost line_fits: { place.line + length rest.now ≤ 65537 },
    ghost column_fits: { place.column + length rest.now ≤ 65537 },
    ghost offset_fits: { place.offset + length rest.now ≤ 65536 },
}

impl<'t> Lexer<'t> {
    /// Returns a lexer at the beginning of a text.
    pub fn new(text: &'t [u8]) -> Self
        requires { length text.now ≤ 65536 }
        ensures rest { result.rest.now ≡ text.now }
        ensures place { place_of result.place ≡ beginning }
    {
        Lexer {
            rest: text,
            place: Place {
                line: 1,
                column: 1,
                offset: 0,
            },
        }
    }

    /// Skips blanks, line feeds and comments, and takes the next lexeme. After the end of the text or a fault, nothing
    /// is promised about further calls.
    pub fn next_lexeme(&mut self) -> Located<'t>
        ensures next { NextIs (place_of self.old.place) self.old.rest.now
            (located_of result) (place_of self.new.place) self.new.rest.now }
        ensures shorter { IsShorter (lexeme_of result.lexeme) self.old.rest.now self.new.rest.now }
    {
        self.skip();
        let place = self.place;
        let (lexeme, rest) = lexeme_at(self.rest);
        self.go_to(rest);
        Located { place, lexeme }
    }

    // Passes over blanks, line feeds and comments.
    fn skip(&mut self)
        ensures passed { Passes (place_of self.old.place) self.old.rest.now
            (place_of self.new.place) self.new.rest.now }
        ensures ready { IsReady self.new.rest.now }
        ensures shorter { length self.new.rest.now ≤ length self.old.rest.now }
    {
        while let [byte, rest @ ..] = self.rest {
            match *byte {
                b' ' | b'\t' | b'\r' => self.go_to(rest),
                b'\n' => self.begin_line(rest),
                b'#' => self.go_to(split_front(Class::Comment, rest).1),
                _ => return,
            }
        }
    }

    // Goes on at the rest, which begins on this line.
    fn go_to(&mut self, rest: &'t [u8])
        requires { length rest.now ≤ length self.old.rest.now }
        ensures rest { self.new.rest.now ≡ rest.now }
        ensures place { place_of self.new.place
            ≡ along (length self.old.rest.now - length rest.now) (place_of self.old.place) }
    {
        let count = (self.rest.len() - rest.len()) as u32;
        self.rest = rest;
        self.place.column += count;
        self.place.offset += count;
    }

    // Goes on behind a line feed.
    fn begin_line(&mut self, rest: &'t [u8])
        requires { length rest.now + 1 ≡ length self.old.rest.now }
        ensures rest { self.new.rest.now ≡ rest.now }
        ensures place { place_of self.new.place ≡ next_line (place_of self.old.place) }
    {
        self.rest = rest;
        self.place = Place {
            line: self.place.line + 1,
            column: 1,
            offset: self.place.offset + 1,
        };
    }
}

// What stands at the front of a text, and the rest behind it.
fn lexeme_at(text: &[u8]) -> (Lexeme<'_>, &[u8])
    requires { IsReady text.now }
    ensures taken { Takes text.now (lexeme_of result.0) result.1.now }
    ensures shorter { IsShorter (lexeme_of result.0) text.now result.1.now }
{
    match text {
        [] => (Lexeme::Token(Token::End), text),
        [first, _rest @ ..] if is_in(Class::Digit, *first) => number_at(text),
        [first, _rest @ ..] if is_letter(*first) => word_at(text),
        [first, rest @ ..] => sign_at(*first, rest),
    }
}

// The number at the front of a text, or the fault where its digits are none, and the rest behind the digits.
fn number_at(text: &[u8]) -> (Lexeme<'_>, &[u8])
    requires { BeginsWith IsDigit text.now }
    ensures taken { Takes text.now (lexeme_of result.0) result.1.now }
    ensures shorter { IsShorter (lexeme_of result.0) text.now result.1.now }
{
    let (digits, rest) = split_front(Class::Digit, text);
    if begins_with_letter(rest) {
        return (Lexeme::BadNumber, rest);
    }
    match number_of(digits) {
        Some(value) => (Lexeme::Token(Token::Number(value)), rest),
        None => (Lexeme::BadNumber, rest),
    }
}

// The keyword or the name at the front of a text, and the rest behind it.
fn word_at(text: &[u8]) -> (Lexeme<'_>, &[u8])
    requires { BeginsWith IsLetter text.now }
    ensures taken { Takes text.now (lexeme_of result.0) result.1.now }
    ensures shorter { IsShorter (lexeme_of result.0) text.now result.1.now }
{
    let (word, rest) = split_front(Class::Word, text);
    match keyword_of(word) {
        Some(keyword) => (Lexeme::Token(Token::Keyword(keyword)), rest),
        None => (Lexeme::Token(Token::Name(word)), rest),
    }
}

// The sign at the front of a text of a first byte and the bytes behind it, or the fault where that byte begins none.
fn sign_at(first: u8, behind: &[u8]) -> (Lexeme<'_>, &[u8])
    requires ready { IsReady (first ∷ behind.now) }
    requires no_digit { ¬ IsDigit first }
    requires no_letter { ¬ IsLetter first }
    ensures taken { Takes (first ∷ behind.now) (lexeme_of result.0) result.1.now }
    ensures shorter { IsShorter (lexeme_of result.0) (first ∷ behind.now) result.1.now }
{
    if let Some((sign, rest)) = long_sign_at(first, behind) {
        return (Lexeme::Token(Token::Sign(sign)), rest);
    }
    match short_sign(first) {
        Some(sign) => (Lexeme::Token(Token::Sign(sign)), behind),
        None => (Lexeme::BadByte, behind),
    }
}

// The sign of two bytes, this one and the next, and the rest behind that.
fn long_sign_at(first: u8, behind: &[u8]) -> Option<(Sign, &[u8])>
    ensures { MatchOption result (HasNoLong first behind.now)
        (λ found. IsLong first behind.now found.0 found.1.now) }
{
    match behind {
        [second, rest @ ..] => Some((long_sign(first, *second)?, rest)),
        _ => None,
    }
}

// The sign of these two bytes.
fn long_sign(first: u8, second: u8) -> Option<Sign>
    ensures { MatchOption result ((sign : Sign) → sign_text sign ≢ first ∷ second ∷ [])
        (λ sign. sign_text sign ≡ first ∷ second ∷ []) }
{
    match (first, second) {
        (b'=', b'=') => Some(Sign::Equal),
        (b'!', b'=') => Some(Sign::NotEqual),
        (b'<', b'=') => Some(Sign::LessOrEqual),
        (b'>', b'=') => Some(Sign::GreaterOrEqual),
        (b'+', b'=') => Some(Sign::AddAssign),
        (b'-', b'=') => Some(Sign::SubtractAssign),
        (b'.', b'.') => Some(Sign::Range),
        _ => None,
    }
}

// The sign of this byte alone.
fn short_sign(first: u8) -> Option<Sign>
    ensures { MatchOption result ((sign : Sign) → sign_text sign ≢ first ∷ [])
        (λ sign. sign_text sign ≡ first ∷ []) }
{
    match first {
        b';' => Some(Sign::Semicolon),
        b'=' => Some(Sign::Assign),
        b'[' => Some(Sign::OpenBracket),
        b']' => Some(Sign::CloseBracket),
        b'{' => Some(Sign::OpenBrace),
        b'}' => Some(Sign::CloseBrace),
        b'(' => Some(Sign::OpenParenthesis),
        b')' => Some(Sign::CloseParenthesis),
        b'+' => Some(Sign::Plus),
        b'-' => Some(Sign::Minus),
        b'*' => Some(Sign::Star),
        b'/' => Some(Sign::Slash),
        b'%' => Some(Sign::Percent),
        b'<' => Some(Sign::Less),
        b'>' => Some(Sign::Greater),
        b',' => Some(Sign::Comma),
        _ => None,
    }
}

// The keyword that is spelled so.
fn keyword_of(word: &[u8]) -> Option<Keyword>
    ensures { MatchOption result (¬ IsKeyword word.now)
        (λ keyword. word.now ≡ keyword_text keyword) }
{
    KEYWORDS
        .iter()
        .find(|keyword| spelling_of(**keyword) == word)
        .copied()
}

// How a keyword is spelled.
fn spelling_of(keyword: Keyword) -> &'static [u8]
    ensures { result.now ≡ keyword_text keyword }
{
    match keyword {
        Keyword::Words => b"words",
        Keyword::Locks => b"locks",
        Keyword::Acquire => b"acquire",
        Keyword::Release => b"release",
        Keyword::Barrier => b"barrier",
        Keyword::Print => b"print",
        Keyword::If => b"if",
        Keyword::Else => b"else",
        Keyword::While => b"while",
        Keyword::Me => b"me",
        Keyword::Nodes => b"nodes",
        Keyword::Const => b"const",
        Keyword::Shared => b"shared",
        Keyword::Lock => b"lock",
        Keyword::Fn => b"fn",
        Keyword::For => b"for",
        Keyword::In => b"in",
        Keyword::With => b"with",
        Keyword::Assert => b"assert",
        Keyword::And => b"and",
        Keyword::Or => b"or",
        Keyword::Not => b"not",
    }
}
