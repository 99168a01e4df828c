// Acts in words.

ghost use Rattle.std.specs.Prelude.{◌≡◌, ◌++◌, OnErr, OnOk, codes, decimal};
ghost use Rattle.lrc_text.specs.ActText.{act_line, act_text, deed_name, deed_text};
ghost use Rattle.lrc_text.specs.Front.{BeginsWith};

use crate::number::push_number;
use lrc_trace::act::{Act, Deed};
use std::alloc::AllocError;

/// Returns the name of a deed, such as `quiet` or `write`.
pub fn deed_name(deed: Deed) -> &'static [u8]
    ensures { result.now ≡ deed_name deed }
{
    match deed {
        Deed::Quiet => b"quiet",
        Deed::Print(_) => b"print",
        Deed::Read(..) => b"read",
        Deed::Write(..) => b"write",
        Deed::Acquire(_) => b"acquire",
        Deed::Release(_) => b"release",
        Deed::Arrive => b"arrive",
        Deed::Depart => b"depart",
        Deed::Trap(_) => b"trap",
        Deed::End => b"end",
    }
}

/// Adds the words of a deed to a text, such as `quiet` or `write 0 1`. It fails if memory runs out. The text then keeps
/// what it had, perhaps with some of the new words behind it.
pub fn push_deed(text: &mut Vec<u8>, deed: Deed) -> Result<(), AllocError>
    ensures ok { OnOk result (text.new.items ≡ text.old.items ++ deed_text deed) }
    ensures err { OnErr result (BeginsWith text.new.items text.old.items) }
{
    text.extend_from_slice(deed_name(deed))?;
    match deed {
        Deed::Print(value) => push_number(text, b" ", value),
        Deed::Read(word, value) | Deed::Write(word, value) => push_access(text, word, value),
        Deed::Acquire(lock) | Deed::Release(lock) => push_number(text, b" ", u64::from(lock)),
        Deed::Trap(cause) => push_number(text, b" ", u64::from(cause as u8)),
        Deed::Quiet | Deed::Arrive | Deed::Depart | Deed::End => Ok(()),
    }
}

// Adds the word that is accessed and its value.
fn push_access(text: &mut Vec<u8>, word: u32, value: u64) -> Result<(), AllocError>
    ensures ok { OnOk result (text.new.items
        ≡ text.old.items ++ codes " " ++ decimal word ++ codes " " ++ decimal value) }
    ensures err { OnErr result (BeginsWith text.new.items text.old.items) }
{
    push_number(text, b" ", u64::from(word))?;
    push_number(text, b" ", value)
}

/// Adds an act to a text: its node, then the words of its deed. It fails as `push_deed` does.
pub fn push_act(text: &mut Vec<u8>, act: Act) -> Result<(), AllocError>
    ensures ok { OnOk result (text.new.items ≡ text.old.items ++ act_text act) }
    ensures err { OnErr result (BeginsWith text.new.items text.old.items) }
{
    push_number(text, b"", u64::from(act.node))?;
    text.extend_from_slice(b" ")?;
    push_deed(text, act.deed)
}

/// Adds the line of an act to a text. The act belongs to line `line` of the program's text. It fails as `push_deed`
/// does.
pub fn push_act_line(text: &mut Vec<u8>, act: Act, line: u32) -> Result<(), AllocError>
    ensures ok { OnOk result (text.new.items ≡ text.old.items ++ act_line act line) }
    ensures err { OnErr result (BeginsWith text.new.items text.old.items) }
{
    push_act(text, act)?;
    push_number(text, b" # line ", u64::from(line))?;
    text.extend_from_slice(b"\n")
}
