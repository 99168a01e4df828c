// The label lines of what is declared.

ghost use Rattle.std.specs.Prelude.{◌≡◌, ◌++◌, OnOk, codes, decimal, map};
ghost use Rattle.lrc_named_names.specs.View.{entry_of, item_of};
ghost use Rattle.lrc_named_text.specs.Labels.{ends_text, item_text, label_text, labels_text, name_text, sizes_text};

use lrc_named_names::item::Item;
use lrc_named_names::names::{Declared, Meaning};
use lrc_text::push_number;
use std::alloc::AllocError;

/// Adds the label lines of all items to a text, in the order in which they are declared.
pub fn push_labels(text: &mut Vec<u8>, declared: &[Declared<'_, '_>]) -> Result<(), AllocError>
    ensures { OnOk result (text.new.items
        ≡ text.old.items ++ labels_text (map entry_of declared.now)) }
{
    for entry in declared {
        push_label(text, entry)?;
    }
    Ok(())
}

fn push_label(text: &mut Vec<u8>, declared: &Declared<'_, '_>) -> Result<(), AllocError>
    ensures { OnOk result (text.new.items ≡ text.old.items
        ++ label_text (entry_of declared.now).name (entry_of declared.now).meaning) }
{
    match &declared.meaning {
        Meaning::Shared(item) => push_item(text, b"#: word", declared.name, item),
        Meaning::Lock(item) => push_item(text, b"#: lock", declared.name, item),
        Meaning::Constant(_) | Meaning::Function(_, _) => Ok(()),
    }
}

// Adds the line of an item, which begins with what it is of.
fn push_item(text: &mut Vec<u8>, kind: &[u8], name: &[u8], item: &Item) -> Result<(), AllocError>
    ensures { OnOk result (text.new.items ≡ text.old.items
        ++ item_text kind.now name.now item.now.first item.now.sizes.items) }
{
    text.extend_from_slice(kind)?;
    match item.sizes.as_slice() {
        [] => push_single(text, name, item.first),
        [_, others @ ..] => {
            let last = item.first + (item.count - 1);
            push_array(text, name, item.first, last, others)
        }
    }
}

// Goes on with the line of a word or a lock.
fn push_single(text: &mut Vec<u8>, name: &[u8], first: u32) -> Result<(), AllocError>
    ensures { OnOk result (text.new.items
        ≡ text.old.items ++ (codes " " ++ decimal first ++ codes " " ++ name.now ++ codes "\n")) }
{
    push_number(text, b" ", u64::from(first))?;
    text.extend_from_slice(b" ")?;
    text.extend_from_slice(name)?;
    text.extend_from_slice(b"\n")
}

// Goes on with the line of an array.
fn push_array(
    text: &mut Vec<u8>,
    name: &[u8],
    first: u32,
    last: u32,
    others: &[u32],
) -> Result<(), AllocError>
    ensures { OnOk result (text.new.items ≡ text.old.items
        ++ (ends_text first last ++ name_text name.now ++ sizes_text others.now ++ codes "\n")) }
{
    push_ends(text, first, last)?;
    push_name(text, name)?;
    push_sizes(text, others)?;
    text.extend_from_slice(b"\n")
}

// Adds the first and the last number of an array.
fn push_ends(text: &mut Vec<u8>, first: u32, last: u32) -> Result<(), AllocError>
    ensures { OnOk result (text.new.items ≡ text.old.items ++ ends_text first last) }
{
    push_number(text, b"s ", u64::from(first))?;
    push_number(text, b" ", u64::from(last))
}

// Adds a name, a blank before it.
fn push_name(text: &mut Vec<u8>, name: &[u8]) -> Result<(), AllocError>
    ensures { OnOk result (text.new.items ≡ text.old.items ++ name_text name.now) }
{
    text.extend_from_slice(b" ")?;
    text.extend_from_slice(name)
}

// Adds sizes to a text, a blank before each.
fn push_sizes(text: &mut Vec<u8>, sizes: &[u32]) -> Result<(), AllocError>
    ensures { OnOk result (text.new.items ≡ text.old.items ++ sizes_text sizes.now) }
{
    for size in sizes {
        push_number(text, b" ", u64::from(*size))?;
    }
    Ok(())
}
