// A fault, with what stands around it.

ghost use Rattle.std.specs.Prelude.{◌≡◌, ◌↔◌, drop, IsTrue};
ghost use Rattle.lrc_lang.specs.Lexemes.{sign_text};
ghost use Rattle.lrc_lang.specs.Parser.View.{lexeme_of};
ghost use Rattle.lrc_lang.specs.Token.{finish, token};
ghost use Rattle.std.specs.Option.{option_map};
ghost use Rattle.lrc_lint_fault.specs.HintTable.{found_is, is_any_sign, is_behind, is_comparison, is_else, is_end, is_in_header, is_keyword, is_name};
ghost use Rattle.lrc_lint_fault.specs.HintTable.{is_on_line_of, is_operator, is_sign, is_statement_keyword, keyword_before, keyword_in, may};
ghost use Rattle.lrc_lint_fault.specs.HintTable.{may_begin_operand, may_begin_statement, may_go_on, may_sign, name_before, name_in, opening_name, seen_of};
ghost use Rattle.lrc_lint_fault.specs.Spelled.{digits_of, is_digit, spelled};

use lrc_lang::fault::FaultKind;
use lrc_lang::kind::Kind;
use lrc_lang::lexer::spelling_of;
use lrc_lang::positions::Located;
use lrc_lang::token::{Keyword, Lexeme, Sign, Token};
use lrc_lint_lines::kind::{has, has_all, phrase, unquoted};
use lrc_lint_lines::{operand_kinds, operator_kinds, statement_kinds};

/// The first fault of a text.
#[derive(Clone, Copy)]
pub struct Fault<'t> {
    pub text: &'t [u8],
    /// The tokens before the fault.
    pub before: &'t [Located<'t>],
    /// The last of these tokens.
    pub previous: Option<Located<'t>>,
    /// The token or byte at fault.
    pub found: Located<'t>,
    pub kind: FaultKind,
    /// The kinds of tokens that may stand in its place.
    pub may_stand: &'t [Kind],
}

impl<'t> Fault<'t> {
    /// Returns whether the fault is among the first six tokens of the text, where a program says how many words and
    /// locks it has.
    pub fn is_in_header(&self) -> bool
        ensures { result ≡ is_in_header (seen_of self.now) }
    {
        self.before.len() < 6
    }

    fn may(&self, kind: Kind) -> bool
        ensures { result ≡ may kind (seen_of self.now) }
    {
        has(self.may_stand, kind)
    }

    pub fn may_sign(&self, sign: Sign) -> bool
        ensures { result ≡ may_sign sign (seen_of self.now) }
    {
        self.may(Kind::Sign(sign))
    }

    pub fn may_begin_statement(&self) -> bool
        ensures { result ≡ may_begin_statement (seen_of self.now) }
    {
        has_all(self.may_stand, statement_kinds())
    }

    pub fn may_begin_operand(&self) -> bool
        ensures { result ≡ may_begin_operand (seen_of self.now) }
    {
        has_all(self.may_stand, operand_kinds())
    }

    pub fn may_go_on(&self) -> bool
        ensures { result ≡ may_go_on (seen_of self.now) }
    {
        has_all(self.may_stand, operator_kinds())
    }

    /// Returns whether the token at fault is this sign.
    pub fn is(&self, sign: Sign) -> bool
        ensures { result ≡ found_is sign (seen_of self.now) }
    {
        is_sign(self.found.lexeme, sign)
    }

    pub fn is_any_sign(&self) -> bool
        ensures { result ≡ is_any_sign (lexeme_of self.now.found.lexeme) }
    {
        matches!(self.found.lexeme, Lexeme::Token(Token::Sign(_)))
    }

    pub fn is_end(&self) -> bool
        ensures exact { IsTrue result ↔ (lexeme_of self.now.found.lexeme ≡ token finish) }
        ensures same { result ≡ is_end (lexeme_of self.now.found.lexeme) }
    {
        matches!(self.found.lexeme, Lexeme::Token(Token::End))
    }

    pub fn is_keyword(&self) -> bool
        ensures { result ≡ is_keyword (lexeme_of self.now.found.lexeme) }
    {
        matches!(self.found.lexeme, Lexeme::Token(Token::Keyword(_)))
    }

    pub fn is_else(&self) -> bool
        ensures { result ≡ is_else (lexeme_of self.now.found.lexeme) }
    {
        matches!(
            self.found.lexeme,
            Lexeme::Token(Token::Keyword(Keyword::Else))
        )
    }

    pub fn is_name(&self) -> bool
        ensures { result ≡ is_name (lexeme_of self.now.found.lexeme) }
    {
        matches!(self.found.lexeme, Lexeme::Token(Token::Name(_)))
    }

    pub fn is_operator(&self) -> bool
        ensures { result ≡ is_operator (lexeme_of self.now.found.lexeme) }
    {
        matches!(
            self.found.lexeme,
            Lexeme::Token(Token::Sign(
                Sign::Plus | Sign::Minus | Sign::Star | Sign::Slash | Sign::Percent
            ))
        )
    }

    pub fn is_comparison(&self) -> bool
        ensures { result ≡ is_comparison (lexeme_of self.now.found.lexeme) }
    {
        matches!(
            self.found.lexeme,
            Lexeme::Token(Token::Sign(
                Sign::Equal
                    | Sign::NotEqual
                    | Sign::Less
                    | Sign::LessOrEqual
                    | Sign::Greater
                    | Sign::GreaterOrEqual
            ))
        )
    }

    pub fn is_statement_keyword(&self) -> bool
        ensures { result ≡ is_statement_keyword (lexeme_of self.now.found.lexeme) }
    {
        matches!(
            self.found.lexeme,
            Lexeme::Token(Token::Keyword(
                Keyword::Acquire
                    | Keyword::Release
                    | Keyword::Barrier
                    | Keyword::Print
                    | Keyword::If
                    | Keyword::While
            ))
        )
    }

    /// Returns whether this sign is right before the fault.
    pub fn is_behind(&self, sign: Sign) -> bool
        ensures { result ≡ is_behind sign (seen_of self.now).previous }
    {
        match self.previous {
            Some(previous) => is_sign(previous.lexeme, sign),
            None => false,
        }
    }

    /// Returns the name right before the fault, if there is one.
    pub fn name_before(&self) -> Option<&'t [u8]>
        ensures { option_map (λ name. name.now) result ≡ name_before (seen_of self.now).previous }
    {
        match self.previous {
            Some(previous) => name_of(previous.lexeme),
            None => None,
        }
    }

    /// Returns the keyword right before the fault, if there is one.
    pub fn keyword_before(&self) -> Option<Keyword>
        ensures { result ≡ keyword_before (seen_of self.now).previous }
    {
        match self.previous {
            Some(previous) => keyword_of(previous.lexeme),
            None => None,
        }
    }

    /// Returns the name right before the fault, if it begins a statement.
    pub fn opening_name(&self) -> Option<&'t [u8]>
        ensures { option_map (λ name. name.now) result ≡ opening_name (seen_of self.now) }
    {
        if self.may_sign(Sign::Assign) {
            self.name_before()
        } else {
            None
        }
    }

    /// Returns whether the token right before the fault is on the same line.
    pub fn is_on_line_of_previous(&self) -> bool
        ensures { result ≡ is_on_line_of (seen_of self.now).previous (seen_of self.now).found }
    {
        match self.previous {
            Some(previous) => previous.line == self.found.line,
            None => false,
        }
    }

    /// Returns the spelling of the token at fault.
    pub fn spelling(&self) -> &'t [u8]
        ensures { result.now ≡ spelled self.now.text.now self.now.found.offset
            (lexeme_of self.now.found.lexeme) }
    {
        spelling(self.text, self.found)
    }
}

/// Returns whether this is the sign.
pub fn is_sign(lexeme: Lexeme<'_>, wanted: Sign) -> bool
    ensures { result ≡ is_sign wanted (lexeme_of lexeme.entry) }
{
    match lexeme {
        Lexeme::Token(Token::Sign(sign)) => sign == wanted,
        _ => false,
    }
}

// The name that this is.
fn name_of(lexeme: Lexeme<'_>) -> Option<&[u8]>
    ensures { option_map (λ name. name.now) result ≡ name_in (lexeme_of lexeme.entry) }
{
    match lexeme {
        Lexeme::Token(Token::Name(name)) => Some(name),
        _ => None,
    }
}

// The keyword that this is.
fn keyword_of(lexeme: Lexeme<'_>) -> Option<Keyword>
    ensures { result ≡ keyword_in (lexeme_of lexeme.entry) }
{
    match lexeme {
        Lexeme::Token(Token::Keyword(keyword)) => Some(keyword),
        _ => None,
    }
}

/// Returns the spelling of a token in a text.
pub fn spelling<'t>(text: &'t [u8], located: Located<'t>) -> &'t [u8]
    ensures { result.now ≡ spelled text.entry.now located.entry.offset
        (lexeme_of located.entry.lexeme) }
{
    match located.lexeme {
        Lexeme::Token(Token::Name(name)) => name,
        Lexeme::Token(Token::Keyword(keyword)) => spelling_of(keyword),
        Lexeme::Token(Token::Sign(sign)) => sign_text(sign),
        Lexeme::Token(Token::Number(_)) => digits_from(text, located.offset as usize),
        Lexeme::Token(Token::End) | Lexeme::BadByte | Lexeme::BadNumber => b"",
    }
}

/// Returns the digits of a text from this byte on.
pub fn digits_from(text: &[u8], offset: usize) -> &[u8]
    ensures { result.now ≡ digits_of (drop offset text.now) }
{
    if offset < text.len() {
        digits_of(&text[offset..])
    } else {
        b""
    }
}

// The digits at the front of a text.
fn digits_of(text: &[u8]) -> &[u8]
    ensures { result.now ≡ digits_of text.now }
{
    for (place, byte) in text.iter().enumerate() {
        if !is_digit(*byte) {
            return &text[..place];
        }
    }
    text
}

fn is_digit(byte: u8) -> bool
    ensures { result ≡ is_digit byte }
{
    byte >= b'0' && byte <= b'9'
}

fn sign_text(sign: Sign) -> &'static [u8]
    ensures { result.now ≡ sign_text sign }
{
    unquoted(phrase(Kind::Sign(sign)))
}
