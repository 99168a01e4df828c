// Why a statement traps, in words.

ghost use Rattle.std.specs.Prelude.{◌≡◌, ◌++◌, OnErr, OnOk, codes};
ghost use Rattle.lrc_named_core.specs.View.{trap_of};
ghost use Rattle.lrc_text.specs.Front.{BeginsWith};
ghost use Rattle.lrc_trap_words.specs.Words.{cause_words, index_words, plain_words};

use lrc_named_core::tree::Trap;
use lrc_trace::act::Cause;
use std::alloc::AllocError;

// The words of a cause that the text says nothing of.
fn plain_words(cause: Cause) -> &'static [u8]
    ensures { result.now ≡ plain_words cause }
{
    match cause {
        Cause::DivisionByZero => b"division by zero",
        Cause::WordOutOfRange => b"word out of range",
        Cause::LockOutOfRange => b"lock out of range",
        Cause::LockHeld => b"lock held already",
        Cause::LockNotHeld => b"lock not held",
    }
}

// Adds that an index of an item is out of range.
fn push_index(text: &mut Vec<u8>, name: &[u8]) -> Result<(), AllocError>
    ensures ok { OnOk result (text.new.items ≡ text.old.items ++ index_words name.now) }
    ensures err { OnErr result (BeginsWith text.new.items text.old.items) }
{
    text.extend_from_slice(b"index out of range of ")?;
    text.extend_from_slice(name)
}

/// Adds the words that tell why a statement traps, of which the text says this. On error `text` still begins with its old
/// bytes.
pub fn push_cause(text: &mut Vec<u8>, trap: Trap<'_>, cause: Cause) -> Result<(), AllocError>
    ensures ok { OnOk result (text.new.items
        ≡ text.old.items ++ cause_words (trap_of trap.entry) cause) }
    ensures err { OnErr result (BeginsWith text.new.items text.old.items) }
{
    match trap {
        Trap::Plain => text.extend_from_slice(plain_words(cause)),
        Trap::Assertion => match cause {
            Cause::DivisionByZero => text.extend_from_slice(b"assertion failed"),
            _ => text.extend_from_slice(plain_words(cause)),
        },
        Trap::Index(name) => match cause {
            Cause::WordOutOfRange | Cause::LockOutOfRange => push_index(text, name),
            _ => text.extend_from_slice(plain_words(cause)),
        },
    }
}
