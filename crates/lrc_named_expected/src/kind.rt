// How kinds of tokens are called.

ghost use Rattle.std.specs.Prelude.{◌≡◌};
ghost use Rattle.lrc_named_tokens.specs.Lexemes.{keyword_text, sign_text};
ghost use Rattle.lrc_named_expected.specs.Kind.{has, has_all, keyword_phrase, phrase, sign_phrase};

use lrc_lint_lines::kind::unquoted;
use lrc_named_may::kind::Kind;
use lrc_named_tokens::token::{Keyword, Sign};

/// Returns the name of a kind in a list of expected tokens. A keyword or sign is its spelling in backquotes.
pub fn phrase(kind: Kind) -> &'static [u8]
    ensures { result.now ≡ phrase kind }
{
    match kind {
        Kind::Name => b"a name",
        Kind::Number => b"a number",
        Kind::Keyword(keyword) => keyword_phrase(keyword),
        Kind::Sign(sign) => sign_phrase(sign),
        Kind::End => b"the end of the text",
    }
}

fn keyword_phrase(keyword: Keyword) -> &'static [u8]
    ensures { result.now ≡ keyword_phrase keyword }
{
    match keyword {
        Keyword::Words => b"`words`",
        Keyword::Locks => b"`locks`",
        Keyword::Acquire => b"`acquire`",
        Keyword::Release => b"`release`",
        Keyword::Barrier => b"`barrier`",
        Keyword::Print => b"`print`",
        Keyword::If => b"`if`",
        Keyword::Else => b"`else`",
        Keyword::While => b"`while`",
        Keyword::Me => b"`me`",
        Keyword::Nodes => b"`nodes`",
        Keyword::Const => b"`const`",
        Keyword::Shared => b"`shared`",
        Keyword::Lock => b"`lock`",
        Keyword::Fn => b"`fn`",
        Keyword::For => b"`for`",
        Keyword::In => b"`in`",
        Keyword::With => b"`with`",
        Keyword::Assert => b"`assert`",
        Keyword::And => b"`and`",
        Keyword::Or => b"`or`",
        Keyword::Not => b"`not`",
    }
}

fn sign_phrase(sign: Sign) -> &'static [u8]
    ensures { result.now ≡ sign_phrase sign }
{
    match sign {
        Sign::Semicolon => b"`;`",
        Sign::Assign => b"`=`",
        Sign::OpenBracket => b"`[`",
        Sign::CloseBracket => b"`]`",
        Sign::OpenBrace => b"`{`",
        Sign::CloseBrace => b"`}`",
        Sign::OpenParenthesis => b"`(`",
        Sign::CloseParenthesis => b"`)`",
        Sign::Plus => b"`+`",
        Sign::Minus => b"`-`",
        Sign::Star => b"`*`",
        Sign::Slash => b"`/`",
        Sign::Percent => b"`%`",
        Sign::Equal => b"`==`",
        Sign::NotEqual => b"`!=`",
        Sign::Less => b"`<`",
        Sign::LessOrEqual => b"`<=`",
        Sign::Greater => b"`>`",
        Sign::GreaterOrEqual => b"`>=`",
        Sign::Comma => b"`,`",
        Sign::Range => b"`..`",
        Sign::AddAssign => b"`+=`",
        Sign::SubtractAssign => b"`-=`",
    }
}

/// Returns the spelling of a keyword.
pub fn keyword_text(keyword: Keyword) -> &'static [u8]
    ensures { result.now ≡ keyword_text keyword }
{
    unquoted(keyword_phrase(keyword))
}

/// Returns the spelling of a sign.
pub fn sign_text(sign: Sign) -> &'static [u8]
    ensures { result.now ≡ sign_text sign }
{
    unquoted(sign_phrase(sign))
}

/// Returns whether a kind is among these.
pub fn has(kinds: &[Kind], kind: Kind) -> bool
    ensures { result ≡ has kinds.now kind }
{
    kinds.iter().any(|other| phrase(*other) == phrase(kind))
}

/// Returns whether these members are all among the kinds.
pub fn has_all(kinds: &[Kind], members: &[Kind]) -> bool
    ensures { result ≡ has_all kinds.now members.now }
{
    members.iter().all(|member| has(kinds, *member))
}
