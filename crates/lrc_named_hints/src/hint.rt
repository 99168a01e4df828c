// Hints, and their words.

ghost use Rattle.std.specs.Prelude.{◌≡◌, ◌++◌, OnOk};
ghost use Rattle.lrc_lint_fault.specs.HintTable.{row_if};
ghost use Rattle.lrc_named_hints.specs.declared.hint.Hint.TheVariants.{NoKeyword, Update};
ghost use Rattle.lrc_named_hints.specs.Hint.{TellsWords, hint_line, hint_words, words_of};

use lrc_lint_fault::hint::{Hint as CoreHint, push_words as push_core_words};
use std::alloc::AllocError;

/// A hint on how to mend a fault of a named program. Its bytes are spellings of tokens in the text.
#[derive(Clone, Copy)]
pub enum Hint<'t> {
    /// A hint that programs of the core have too.
    Core(CoreHint<'t>),
    TooDeep,
    /// How conditions are joined.
    AndOrNot,
    /// How a range is written.
    Range,
    /// A block stands here.
    Block,
    /// How a loop is written.
    Loop,
    /// The name of a lock has no brackets around it.
    LockName,
    /// A function is one expression.
    Function,
    /// How `elif` is written.
    ElseIf,
    /// A statement such as `x += 1`, with its name and the operator.
    Update(&'t [u8], &'t [u8]),
    /// This name is where a statement's keyword would be.
    NoKeyword(&'t [u8]),
    /// A block or an `if` follows `else`.
    BehindElse,
    /// Where declarations stand.
    Declarations,
    /// A `not` within an expression.
    NotInBrackets,
    /// A shared word has a name.
    SharedName,
    /// A declaration gives no value.
    NoValue,
    /// Each index has brackets of its own.
    EachIndex,
    OneComparison,
}

impl<'t> Hint<'t> {
    /// Returns this hint, if it applies.
    pub fn only_if(self, applies: bool) -> Option<Hint<'t>>
        ensures { words_of result ≡ row_if applies (hint_words self.entry) }
    {
        if applies { Some(self) } else { None }
    }
}

/// Adds the line of a hint.
pub fn push_hint(out: &mut Vec<u8>, hint: Hint<'_>) -> Result<(), AllocError>
    ensures { OnOk result (out.new.items ≡ out.old.items ++ hint_line hint.entry) }
{
    out.extend_from_slice(b"  ")?;
    push_words(out, hint)?;
    out.extend_from_slice(b"\n")
}

fn push_words(out: &mut Vec<u8>, hint: Hint<'_>) -> Result<(), AllocError>
    ensures { OnOk result (out.new.items ≡ out.old.items ++ hint_words hint.entry) }
{
    match hint {
        Hint::Core(hint) => push_core_words(out, hint),
        Hint::Update(name, operator) => push_update(out, name, operator),
        Hint::NoKeyword(name) => push_no_keyword(out, name),
        other => out.extend_from_slice(words_of(other)),
    }
}

fn push_update(out: &mut Vec<u8>, name: &[u8], operator: &[u8]) -> Result<(), AllocError>
    ensures { OnOk result (out.new.items
        ≡ out.old.items ++ hint_words (Update name.entry operator.entry)) }
{
    out.extend_from_slice(b"write `")?;
    out.extend_from_slice(name)?;
    out.extend_from_slice(b" ")?;
    out.extend_from_slice(operator)?;
    out.extend_from_slice(b"= E;`")
}

fn push_no_keyword(out: &mut Vec<u8>, name: &[u8]) -> Result<(), AllocError>
    ensures { OnOk result (out.new.items ≡ out.old.items ++ hint_words (NoKeyword name.entry)) }
{
    out.extend_from_slice(name)?;
    out.extend_from_slice(
        b" is no keyword: the statements are `x = E;`, acquire, release, with, barrier, print, assert, if, while and for",
    )
}

// The words of a hint that tells nothing of the text.
fn words_of(hint: Hint<'_>) -> &'static [u8]
    ensures { TellsWords hint.entry result.now }
{
    match hint {
        Hint::TooDeep => b"at most 32 `{`, `(` and `[` may be open",
        Hint::AndOrNot => b"write `and`, `or`, `not`",
        Hint::Range => b"a range is `A..B`, and numbers are whole",
        Hint::Block => b"here stands a block: `{ .. }`",
        Hint::Loop => b"a loop is `for NAME in A..B { .. }`",
        Hint::LockName => b"a name stands here without brackets",
        Hint::Function => b"a function is one expression: `fn NAME(..) = E;`",
        Hint::ElseIf => b"write `else if`",
        Hint::BehindElse => b"behind else stands a block or an if",
        Hint::Declarations => b"declarations stand before the statements",
        Hint::NotInBrackets => b"within an expression `not` has brackets around it: `(not E)`",
        Hint::SharedName => b"a shared word has a name: `shared NAME;`",
        Hint::NoValue => b"a declaration gives no value: shared words are 0 until they are set",
        Hint::EachIndex => b"each index has brackets of its own: `a[i][j]`",
        Hint::OneComparison => {
            b"an expression has one comparison, brackets aside: `a < b and b < c` holds where both do"
        }
        Hint::Core(_) | Hint::Update(_, _) | Hint::NoKeyword(_) => b"",
    }
}
