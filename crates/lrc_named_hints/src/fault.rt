// A fault of a text, with what stands around it.

ghost use Rattle.std.specs.Prelude.{◌≡◌, ◌↔◌, IsTrue};
ghost use Rattle.std.specs.Option.{option_map};
ghost use Rattle.lrc_named_tokens.specs.Token.{finish, token};
ghost use Rattle.lrc_named_tokens.specs.View.{lexeme_of};
ghost use Rattle.lrc_named_hints.specs.HintTable.{declares_lock, found_is, found_spelled, is_any_sign, is_behind, is_behind_else, is_comparison};
ghost use Rattle.lrc_named_hints.specs.HintTable.{is_declaration_keyword, is_else, is_end, is_for, is_keyword, is_name, is_not, is_on_line_of, is_sign};
ghost use Rattle.lrc_named_hints.specs.HintTable.{is_statement_keyword, is_word, joins_factors, joins_terms, keyword_before, keyword_in, may};
ghost use Rattle.lrc_named_hints.specs.HintTable.{may_begin_operand, may_begin_statement, may_go_on, may_name, may_sign, name_before, name_in};
ghost use Rattle.lrc_named_hints.specs.HintTable.{opening_name, opens_with, seen_of, takes_lock};
ghost use Rattle.lrc_named_hints.specs.Spelled.{spelled};

use lrc_lang::fault::FaultKind;
use lrc_lint_fault::fault::digits_from;
use lrc_named_expected::kind::{has, has_all, keyword_text, sign_text};
use lrc_named_expected::{operand_kinds, operator_kinds, statement_kinds};
use lrc_named_may::kind::Kind;
use lrc_named_tokens::token::{Keyword, Lexeme, Located, Sign, Token};

/// The first fault of a text as such.
#[derive(Clone, Copy)]
pub struct Fault<'t> {
    pub text: &'t [u8],
    /// The tokens before the fault.
    pub before: &'t [Located<'t>],
    /// The last of these tokens.
    pub previous: Option<Located<'t>>,
    /// The token or byte at fault.
    pub found: Located<'t>,
    pub kind: FaultKind,
    /// The kinds of tokens that may stand in its place.
    pub may_stand: &'t [Kind],
}

impl<'t> Fault<'t> {
    /// Returns whether a token of this kind may stand there.
    pub fn may(&self, kind: Kind) -> bool
        ensures { result ≡ may kind (seen_of self.now) }
    {
        has(self.may_stand, kind)
    }

    pub fn may_sign(&self, sign: Sign) -> bool
        ensures { result ≡ may_sign sign (seen_of self.now) }
    {
        self.may(Kind::Sign(sign))
    }

    pub fn may_name(&self) -> bool
        ensures { result ≡ may_name (seen_of self.now) }
    {
        self.may(Kind::Name)
    }

    pub fn may_begin_statement(&self) -> bool
        ensures { result ≡ may_begin_statement (seen_of self.now) }
    {
        has_all(self.may_stand, statement_kinds())
    }

    pub fn may_begin_operand(&self) -> bool
        ensures { result ≡ may_begin_operand (seen_of self.now) }
    {
        has_all(self.may_stand, operand_kinds())
    }

    pub fn may_go_on(&self) -> bool
        ensures { result ≡ may_go_on (seen_of self.now) }
    {
        has_all(self.may_stand, operator_kinds())
    }

    /// Returns whether the token at fault is this sign.
    pub fn is(&self, sign: Sign) -> bool
        ensures { result ≡ found_is sign (seen_of self.now) }
    {
        is_sign(self.found.lexeme, sign)
    }

    pub fn is_any_sign(&self) -> bool
        ensures { result ≡ is_any_sign (lexeme_of self.now.found.lexeme) }
    {
        matches!(self.found.lexeme, Lexeme::Token(Token::Sign(_)))
    }

    pub fn is_end(&self) -> bool
        ensures exact { IsTrue result ↔ (lexeme_of self.now.found.lexeme ≡ token finish) }
        ensures same { result ≡ is_end (lexeme_of self.now.found.lexeme) }
    {
        matches!(self.found.lexeme, Lexeme::Token(Token::End))
    }

    pub fn is_keyword(&self) -> bool
        ensures { result ≡ is_keyword (lexeme_of self.now.found.lexeme) }
    {
        matches!(self.found.lexeme, Lexeme::Token(Token::Keyword(_)))
    }

    pub fn is_else(&self) -> bool
        ensures { result ≡ is_else (lexeme_of self.now.found.lexeme) }
    {
        matches!(
            self.found.lexeme,
            Lexeme::Token(Token::Keyword(Keyword::Else))
        )
    }

    pub fn is_not(&self) -> bool
        ensures { result ≡ is_not (lexeme_of self.now.found.lexeme) }
    {
        matches!(
            self.found.lexeme,
            Lexeme::Token(Token::Keyword(Keyword::Not))
        )
    }

    pub fn is_name(&self) -> bool
        ensures { result ≡ is_name (lexeme_of self.now.found.lexeme) }
    {
        matches!(self.found.lexeme, Lexeme::Token(Token::Name(_)))
    }

    /// Returns whether the token at fault is `+` or `-`.
    pub fn joins_terms(&self) -> bool
        ensures { result ≡ joins_terms (lexeme_of self.now.found.lexeme) }
    {
        matches!(
            self.found.lexeme,
            Lexeme::Token(Token::Sign(Sign::Plus | Sign::Minus))
        )
    }

    /// Returns whether the token at fault is `*`, `/` or `%`.
    pub fn joins_factors(&self) -> bool
        ensures { result ≡ joins_factors (lexeme_of self.now.found.lexeme) }
    {
        matches!(
            self.found.lexeme,
            Lexeme::Token(Token::Sign(Sign::Star | Sign::Slash | Sign::Percent))
        )
    }

    pub fn is_comparison(&self) -> bool
        ensures { result ≡ is_comparison (lexeme_of self.now.found.lexeme) }
    {
        matches!(
            self.found.lexeme,
            Lexeme::Token(Token::Sign(
                Sign::Equal
                    | Sign::NotEqual
                    | Sign::Less
                    | Sign::LessOrEqual
                    | Sign::Greater
                    | Sign::GreaterOrEqual
            ))
        )
    }

    pub fn is_declaration_keyword(&self) -> bool
        ensures { result ≡ is_declaration_keyword (lexeme_of self.now.found.lexeme) }
    {
        matches!(
            self.found.lexeme,
            Lexeme::Token(Token::Keyword(
                Keyword::Nodes | Keyword::Const | Keyword::Shared | Keyword::Lock | Keyword::Fn
            ))
        )
    }

    pub fn is_statement_keyword(&self) -> bool
        ensures { result ≡ is_statement_keyword (lexeme_of self.now.found.lexeme) }
    {
        matches!(
            self.found.lexeme,
            Lexeme::Token(Token::Keyword(
                Keyword::Acquire
                    | Keyword::Release
                    | Keyword::With
                    | Keyword::Barrier
                    | Keyword::Print
                    | Keyword::Assert
                    | Keyword::If
                    | Keyword::While
                    | Keyword::For
            ))
        )
    }

    /// Returns whether this sign is right before the fault.
    pub fn is_behind(&self, sign: Sign) -> bool
        ensures { result ≡ is_behind sign (seen_of self.now).previous }
    {
        match self.previous {
            Some(previous) => is_sign(previous.lexeme, sign),
            None => false,
        }
    }

    /// Returns the name right before the fault, if there is one.
    pub fn name_before(&self) -> Option<&'t [u8]>
        ensures { option_map (λ name. name.now) result ≡ name_before (seen_of self.now).previous }
    {
        match self.previous {
            Some(previous) => name_of(previous.lexeme),
            None => None,
        }
    }

    /// Returns the keyword right before the fault, if there is one.
    pub fn keyword_before(&self) -> Option<Keyword>
        ensures { result ≡ keyword_before (seen_of self.now).previous }
    {
        match self.previous {
            Some(previous) => keyword_of(previous.lexeme),
            None => None,
        }
    }

    /// Returns the name right before the fault, if it begins a statement.
    pub fn opening_name(&self) -> Option<&'t [u8]>
        ensures { option_map (λ name. name.now) result ≡ opening_name (seen_of self.now) }
    {
        if self.may_sign(Sign::AddAssign) {
            self.name_before()
        } else {
            None
        }
    }

    /// Returns whether a statement begins with this name, right before the fault.
    pub fn opens_with(&self, word: &[u8]) -> bool
        ensures { result ≡ opens_with word.now (seen_of self.now) }
    {
        is_word(word, self.opening_name())
    }

    /// Returns whether the token right before the fault is on the same line.
    pub fn is_on_line_of_previous(&self) -> bool
        ensures { result ≡ is_on_line_of (seen_of self.now).previous (seen_of self.now).found }
    {
        match self.previous {
            Some(previous) => previous.place.line == self.found.place.line,
            None => false,
        }
    }

    /// Returns the spelling of the token at fault.
    pub fn spelling(&self) -> &'t [u8]
        ensures { result.now ≡ found_spelled (seen_of self.now) }
    {
        spelling(self.text, self.found)
    }
}

/// Returns whether this is the sign.
pub fn is_sign(lexeme: Lexeme<'_>, wanted: Sign) -> bool
    ensures { result ≡ is_sign wanted (lexeme_of lexeme.entry) }
{
    match lexeme {
        Lexeme::Token(Token::Sign(sign)) => sign == wanted,
        _ => false,
    }
}

// Whether a name is this word.
fn is_word(word: &[u8], name: Option<&[u8]>) -> bool
    ensures { result ≡ is_word word.now (option_map (λ name. name.now) name.entry) }
{
    match name {
        Some(name) => name == word,
        None => false,
    }
}

// The name that this is.
fn name_of(lexeme: Lexeme<'_>) -> Option<&[u8]>
    ensures { option_map (λ name. name.now) result ≡ name_in (lexeme_of lexeme.entry) }
{
    match lexeme {
        Lexeme::Token(Token::Name(name)) => Some(name),
        _ => None,
    }
}

// The keyword that this is.
fn keyword_of(lexeme: Lexeme<'_>) -> Option<Keyword>
    ensures { result ≡ keyword_in (lexeme_of lexeme.entry) }
{
    match lexeme {
        Lexeme::Token(Token::Keyword(keyword)) => Some(keyword),
        _ => None,
    }
}

/// Returns whether this keyword is `for`.
pub fn is_for(before: Option<Keyword>) -> bool
    ensures { result ≡ is_for before }
{
    matches!(before, Some(Keyword::For))
}

/// Returns whether the name of a lock stands behind this keyword in a statement.
pub fn takes_lock(before: Option<Keyword>) -> bool
    ensures { result ≡ takes_lock before }
{
    matches!(
        before,
        Some(Keyword::Acquire | Keyword::Release | Keyword::With)
    )
}

/// Returns whether this keyword is `lock`.
pub fn declares_lock(before: Option<Keyword>) -> bool
    ensures { result ≡ declares_lock before }
{
    matches!(before, Some(Keyword::Lock))
}

/// Returns whether this keyword is `else`.
pub fn is_behind_else(before: Option<Keyword>) -> bool
    ensures { result ≡ is_behind_else before }
{
    matches!(before, Some(Keyword::Else))
}

/// Returns the spelling of a token in a text.
pub fn spelling<'t>(text: &'t [u8], located: Located<'t>) -> &'t [u8]
    ensures { result.now ≡ spelled text.entry.now located.entry.place.offset
        (lexeme_of located.entry.lexeme) }
{
    match located.lexeme {
        Lexeme::Token(Token::Name(name)) => name,
        Lexeme::Token(Token::Keyword(keyword)) => keyword_text(keyword),
        Lexeme::Token(Token::Sign(sign)) => sign_text(sign),
        Lexeme::Token(Token::Number(_)) => digits_from(text, located.place.offset as usize),
        Lexeme::Token(Token::End) | Lexeme::BadByte | Lexeme::BadNumber => b"",
    }
}
