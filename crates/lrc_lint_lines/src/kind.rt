// How kinds of tokens are called.

ghost use Rattle.std.specs.Prelude.{◌≡◌, ℕ, List};
ghost use Rattle.lrc_lint_lines.specs.Kind.{has, has_all, keyword_phrase, phrase, quoted, sign_phrase};

use lrc_lang::kind::Kind;
use lrc_lang::token::{Keyword, Sign};

/// Returns the name of a kind in a list of expected tokens. A keyword or sign is its spelling in backquotes.
pub fn phrase(kind: Kind) -> &'static [u8]
    ensures { result.now ≡ phrase kind }
{
    match kind {
        Kind::Name => b"a name",
        Kind::Number => b"a number",
        Kind::Keyword(keyword) => keyword_phrase(keyword),
        Kind::Sign(sign) => sign_phrase(sign),
        Kind::End => b"the end of the text",
    }
}

fn keyword_phrase(keyword: Keyword) -> &'static [u8]
    ensures { result.now ≡ keyword_phrase keyword }
{
    match keyword {
        Keyword::Words => b"`words`",
        Keyword::Locks => b"`locks`",
        Keyword::Acquire => b"`acquire`",
        Keyword::Release => b"`release`",
        Keyword::Barrier => b"`barrier`",
        Keyword::Print => b"`print`",
        Keyword::If => b"`if`",
        Keyword::Else => b"`else`",
        Keyword::While => b"`while`",
        Keyword::Me => b"`me`",
        Keyword::Nodes => b"`nodes`",
    }
}

fn sign_phrase(sign: Sign) -> &'static [u8]
    ensures { result.now ≡ sign_phrase sign }
{
    match sign {
        Sign::Semicolon => b"`;`",
        Sign::Assign => b"`=`",
        Sign::OpenBracket => b"`[`",
        Sign::CloseBracket => b"`]`",
        Sign::OpenBrace => b"`{`",
        Sign::CloseBrace => b"`}`",
        Sign::OpenParenthesis => b"`(`",
        Sign::CloseParenthesis => b"`)`",
        Sign::Plus => b"`+`",
        Sign::Minus => b"`-`",
        Sign::Star => b"`*`",
        Sign::Slash => b"`/`",
        Sign::Percent => b"`%`",
        Sign::Equal => b"`==`",
        Sign::NotEqual => b"`!=`",
        Sign::Less => b"`<`",
        Sign::LessOrEqual => b"`<=`",
        Sign::Greater => b"`>`",
        Sign::GreaterOrEqual => b"`>=`",
    }
}

/// Returns what a phrase has in backquotes.
pub fn unquoted(phrase: &[u8]) -> &[u8]
    ensures { (text : List ℕ) → phrase.now ≡ quoted text → result.now ≡ text }
{
    if phrase.len() < 2 {
        phrase
    } else {
        &phrase[1..phrase.len() - 1]
    }
}

/// Returns whether a kind is among these.
pub fn has(kinds: &[Kind], kind: Kind) -> bool
    ensures { result ≡ has kinds.now kind }
{
    kinds.iter().any(|other| phrase(*other) == phrase(kind))
}

/// Returns whether these members are all among the kinds.
pub fn has_all(kinds: &[Kind], members: &[Kind]) -> bool
    ensures { result ≡ has_all kinds.now members.now }
{
    members.iter().all(|member| has(kinds, *member))
}
