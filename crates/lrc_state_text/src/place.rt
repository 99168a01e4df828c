// Where a node's text stands.

ghost use Rattle.std.specs.Prelude.{◌≡◌, ◌++◌, OnOk, codes, map};
ghost use Rattle.lrc_state_text.specs.Json.{later, listed};
ghost use Rattle.lrc_state_text.specs.Place.{named_seen, named_text, place_members};

use lrc_text::push_number;
use std::alloc::AllocError;

/// A private name with its value.
#[derive(Clone, Copy)]
pub struct NamedValue<'t> {
    pub name: &'t [u8],
    pub value: u64,
}

/// Where a node is in the text: the line of its next statement, and its private names whose value is not 0, in the
/// order in which the text first names them.
#[derive(Clone, Copy)]
pub struct Place<'p> {
    pub at: u32,
    pub names: &'p [NamedValue<'p>],
}

#[tactic(auto, unfolding(crate::specs::Place::named_text))]
fn push_name(text: &mut Vec<u8>, named: NamedValue<'_>) -> Result<(), AllocError>
    ensures { OnOk result (text.new.items ≡ text.old.items ++ named_text (named_seen named.entry)) }
{
    text.extend_from_slice(b"\"")?;
    text.extend_from_slice(named.name)?;
    push_number(text, b"\":\"", named.value)?;
    text.extend_from_slice(b"\"")
}

// Adds a name behind others.
fn push_next(text: &mut Vec<u8>, named: NamedValue<'_>) -> Result<(), AllocError>
    ensures { OnOk result (text.new.items
        ≡ text.old.items ++ (codes "," ++ named_text (named_seen named.entry))) }
{
    text.extend_from_slice(b",")?;
    push_name(text, named)
}

fn push_later(text: &mut Vec<u8>, names: &[NamedValue<'_>]) -> Result<(), AllocError>
    ensures { OnOk result (text.new.items
        ≡ text.old.items ++ later named_text (map named_seen names.now)) }
{
    for named in names {
        push_next(text, *named)?;
    }
    Ok(())
}

#[tactic(auto, unfolding(crate::specs::Json::listed))]
fn push_names(text: &mut Vec<u8>, names: &[NamedValue<'_>]) -> Result<(), AllocError>
    ensures { OnOk result (text.new.items
        ≡ text.old.items ++ listed named_text (map named_seen names.now)) }
{
    match names {
        [] => Ok(()),
        [first, rest @ ..] => {
            push_name(text, *first)?;
            push_later(text, rest)
        }
    }
}

/// Adds the line of the next statement, and the private names with their values.
pub(crate) fn push_place(
    text: &mut Vec<u8>,
    line: u32,
    names: &[NamedValue<'_>],
) -> Result<(), AllocError>
    ensures { OnOk result (text.new.items
        ≡ text.old.items ++ place_members line (map named_seen names.now)) }
{
    push_number(text, b",\"at\":", u64::from(line))?;
    text.extend_from_slice(b",\"names\":{")?;
    push_names(text, names)?;
    text.extend_from_slice(b"}")
}
