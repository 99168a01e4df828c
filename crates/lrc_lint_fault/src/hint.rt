// Hints, and their words.

ghost use Rattle.std.specs.Prelude.{◌≡◌, ◌++◌, OnOk};
ghost use Rattle.lrc_lint_fault.specs.declared.hint.Hint.TheVariants.{Compound, Keyword as KeywordHint, Missing, NoKeyword, Open};
ghost use Rattle.lrc_lint_fault.specs.Hint.{TellsWords, hint_line, hint_words, opened_by, words_of};
ghost use Rattle.lrc_lint_fault.specs.HintTable.{row_if};

use lrc_lang::token::Sign;
use lrc_text::push_number;
use std::alloc::AllocError;

/// A hint on how to mend a fault. Its bytes are spellings of tokens in the text.
#[derive(Clone, Copy)]
pub enum Hint<'t> {
    TooLong,
    BadNumber,
    TooDeep,
    TooManyNames,
    /// The number of words that a program may have.
    Words,
    /// The number of locks that a program may have.
    Locks,
    /// The number of operators that an expression may have.
    Operators,
    ByteOrderMark,
    /// There is no `&&` and no `||`.
    AndOr,
    /// There is no `!`.
    Not,
    /// There are no texts in quotes.
    NoTexts,
    Ascii,
    /// How a program begins.
    Header,
    /// A block follows a condition.
    Block,
    /// How a comment begins.
    Comment,
    /// There is no `for`.
    For,
    Declaration,
    /// How a lock is acquired and released.
    Lock,
    Arrays,
    /// A statement such as `x += 1`, with its name and its operator.
    Compound(&'t [u8], &'t [u8]),
    /// This name is where a statement's keyword would be.
    NoKeyword(&'t [u8]),
    /// A block follows `else`.
    BehindElse,
    /// Where an `else` may stand.
    Else,
    /// This keyword is where a name would be.
    Keyword(&'t [u8]),
    /// Where a `;` may not stand.
    Semicolon,
    /// There is one `}` too many.
    NoBrace,
    /// This bracket, opened on this line, is still open.
    Open(Sign, u32),
    /// How to read a shared word.
    SharedRead,
    /// A `;` may be missing after this token, on this line.
    Missing(&'t [u8], u32),
    /// How to write a shared word, and how to read one.
    SharedWrite,
    Comparisons,
    OneComparison,
    /// A number has no sign.
    Negative,
    Calls,
}

impl<'t> Hint<'t> {
    /// Returns this hint, if it applies.
    pub fn only_if(self, applies: bool) -> Option<Hint<'t>>
        ensures { words_of result ≡ row_if applies (hint_words self.entry) }
    {
        if applies { Some(self) } else { None }
    }
}

/// Adds the line of a hint.
pub fn push_hint(out: &mut Vec<u8>, hint: Hint<'_>) -> Result<(), AllocError>
    ensures { OnOk result (out.new.items ≡ out.old.items ++ hint_line hint.entry) }
{
    out.extend_from_slice(b"  ")?;
    push_words(out, hint)?;
    out.extend_from_slice(b"\n")
}

/// Adds the words of a hint.
pub fn push_words(out: &mut Vec<u8>, hint: Hint<'_>) -> Result<(), AllocError>
    ensures { OnOk result (out.new.items ≡ out.old.items ++ hint_words hint.entry) }
{
    match hint {
        Hint::Compound(name, operator) => push_compound(out, name, operator),
        Hint::NoKeyword(name) => push_no_keyword(out, name),
        Hint::Keyword(keyword) => push_keyword(out, keyword),
        Hint::Open(sign, line) => push_open(out, sign, line),
        Hint::Missing(token, line) => push_missing(out, token, line),
        other => out.extend_from_slice(words_of(other)),
    }
}

fn push_compound(out: &mut Vec<u8>, name: &[u8], operator: &[u8]) -> Result<(), AllocError>
    ensures { OnOk result (out.new.items
        ≡ out.old.items ++ hint_words (Compound name.entry operator.entry)) }
{
    out.extend_from_slice(b"write `")?;
    out.extend_from_slice(name)?;
    out.extend_from_slice(b" = ")?;
    out.extend_from_slice(name)?;
    out.extend_from_slice(b" ")?;
    out.extend_from_slice(operator)?;
    out.extend_from_slice(b" E;`")
}

fn push_no_keyword(out: &mut Vec<u8>, name: &[u8]) -> Result<(), AllocError>
    ensures { OnOk result (out.new.items ≡ out.old.items ++ hint_words (NoKeyword name.entry)) }
{
    out.extend_from_slice(name)?;
    out.extend_from_slice(
        b" is no keyword: the statements are `x = E;`, `x = [E];`, `[E] = E;`, acquire, release, barrier, print, if and while",
    )
}

fn push_keyword(out: &mut Vec<u8>, keyword: &[u8]) -> Result<(), AllocError>
    ensures { OnOk result (out.new.items
        ≡ out.old.items ++ hint_words (KeywordHint keyword.entry)) }
{
    out.extend_from_slice(keyword)?;
    out.extend_from_slice(b" is a keyword and no name")
}

fn push_open(out: &mut Vec<u8>, sign: Sign, line: u32) -> Result<(), AllocError>
    ensures { OnOk result (out.new.items ≡ out.old.items ++ hint_words (Open sign line)) }
{
    out.extend_from_slice(opened_by(sign))?;
    push_number(out, b" of line ", u64::from(line))?;
    out.extend_from_slice(b" is open")
}

fn opened_by(sign: Sign) -> &'static [u8]
    ensures { result.now ≡ opened_by sign }
{
    match sign {
        Sign::OpenBrace => b"the `{`",
        Sign::OpenBracket => b"the `[`",
        _ => b"the `(`",
    }
}

fn push_missing(out: &mut Vec<u8>, token: &[u8], line: u32) -> Result<(), AllocError>
    ensures { OnOk result (out.new.items ≡ out.old.items ++ hint_words (Missing token.entry line)) }
{
    out.extend_from_slice(b"is a `;` missing behind `")?;
    out.extend_from_slice(token)?;
    push_number(out, b"` in line ", u64::from(line))?;
    out.extend_from_slice(b"?")
}

// The words of a hint that tells nothing of the text.
fn words_of(hint: Hint<'_>) -> &'static [u8]
    ensures { TellsWords hint.entry result.now }
{
    match hint {
        Hint::TooLong => b"a text has at most 65536 bytes",
        Hint::BadNumber => b"a number is decimal digits, at most 18446744073709551615",
        Hint::TooDeep => b"at most 32 `{` and `(` may be open",
        Hint::TooManyNames => b"a text has at most 32 names",
        Hint::Words => b"words is 1 to 65536",
        Hint::Locks => b"locks is 0 to 64",
        Hint::Operators => b"an expression has at most 256 operators",
        Hint::ByteOrderMark => b"the text begins with a byte order mark: save it without one",
        Hint::AndOr => {
            b"there is no sign for and, or: of comparisons, `(A) * (B)` holds where both do, `(A) + (B)` where one does"
        }
        Hint::Not => b"not equal is `!=`, and not A is `(A) == 0`",
        Hint::NoTexts => b"there are no texts: print takes a number",
        Hint::Ascii => b"only comments may have characters that are not ASCII",
        Hint::Header =>
            b"a program begins with `words N; locks N;`, or with what it shares: `shared NAME;`",
        Hint::Block => b"behind the condition stands a block: `{ .. }`",
        Hint::Comment => b"a comment begins with `#`",
        Hint::For => b"there is no for: `i = 0; while i < N { .. i = i + 1; }`",
        Hint::Declaration => b"a name needs no declaration: it is 0 until it is set",
        Hint::Lock => b"a lock is taken by `acquire K;` and given back by `release K;`",
        Hint::Arrays => b"there are no arrays: `a[i]` is `[W + i]` where a begins at word W",
        Hint::BehindElse => b"behind else stands a block, also around an if: `else { if .. }`",
        Hint::Else => b"an else stands behind the `}` of its if",
        Hint::Semicolon => b"a `;` ends a statement; none stands behind a block",
        Hint::NoBrace => b"no `{` is open here",
        Hint::SharedRead => b"a shared word is read by a statement of its own: `x = [E];`",
        Hint::SharedWrite => b"a shared word is written by `[E] = E;` and read by `x = [E];`",
        Hint::Comparisons => {
            b"the comparisons are `==`, `!=`, `<`, `<=`, `>` and `>=`; each assignment is a statement of its own"
        }
        Hint::OneComparison => {
            b"an expression has one comparison, brackets aside: `(a < b) * (b < c)` holds where both do"
        }
        Hint::Negative => b"a number has no sign: for `-1` write `0 - 1`",
        Hint::Calls => b"there are no calls",
        Hint::Compound(_, _)
        | Hint::NoKeyword(_)
        | Hint::Keyword(_)
        | Hint::Open(_, _)
        | Hint::Missing(_, _) => b"",
    }
}
