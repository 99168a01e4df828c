// Lists in words: items parted by a comma and a blank.

ghost use Rattle.std.specs.Prelude.{◌≡◌, ◌++◌, OnOk, codes, ◌∷◌};
ghost use Rattle.lrc_why_lines.specs.Lists.{joined_text, later_text, node_word, nodes_line, some_text};

use lrc_text::push_number;
use std::alloc::AllocError;

/// The most words of one page, and the most values, that a line lists.
pub(crate) const MOST_TOLD: usize = 8;

fn push_later(text: &mut Vec<u8>, comma: &[u8], numbers: &[usize]) -> Result<(), AllocError>
    ensures { OnOk result (text.new.items ≡ text.old.items ++ later_text comma.now numbers.now) }
{
    for number in numbers {
        push_number(text, comma, *number as u64)?;
    }
    Ok(())
}

#[tactic(auto, unfolding(crate::specs::Lists::joined_text))]
/// Adds numbers, with this separator between them.
pub fn push_joined(text: &mut Vec<u8>, comma: &[u8], numbers: &[usize]) -> Result<(), AllocError>
    ensures { OnOk result (text.new.items ≡ text.old.items ++ joined_text comma.now numbers.now) }
{
    match numbers {
        [] => Ok(()),
        [first, rest @ ..] => {
            push_number(text, b"", *first as u64)?;
            push_later(text, comma, rest)
        }
    }
}

fn push_later_values(text: &mut Vec<u8>, values: &[u64]) -> Result<(), AllocError>
    ensures { OnOk result (text.new.items ≡ text.old.items ++ later_text (codes ", ") values.now) }
{
    for value in values {
        push_number(text, b", ", *value)?;
    }
    Ok(())
}

#[tactic(auto, unfolding(crate::specs::Lists::joined_text))]
fn push_values(text: &mut Vec<u8>, values: &[u64]) -> Result<(), AllocError>
    ensures { OnOk result (text.new.items ≡ text.old.items ++ joined_text (codes ", ") values.now) }
{
    match values {
        [] => Ok(()),
        [first, rest @ ..] => {
            push_number(text, b"", *first)?;
            push_later_values(text, rest)
        }
    }
}

#[tactic(auto, unfolding(crate::specs::Lists::some_text))]
/// Adds values, separated by commas. If there are more than 8, it adds the first 8 and `..`.
pub fn push_some(text: &mut Vec<u8>, numbers: &[u64]) -> Result<(), AllocError>
    ensures { OnOk result (text.new.items ≡ text.old.items ++ some_text numbers.now) }
{
    if numbers.len() <= MOST_TOLD {
        return push_values(text, numbers);
    }
    push_values(text, &numbers[..MOST_TOLD])?;
    text.extend_from_slice(b", ..")
}

fn push_later_nodes(text: &mut Vec<u8>, nodes: &[u8]) -> Result<(), AllocError>
    ensures { OnOk result (text.new.items ≡ text.old.items ++ later_text (codes ", ") nodes.now) }
{
    for node in nodes {
        push_number(text, b", ", u64::from(*node))?;
    }
    Ok(())
}

#[tactic(auto, unfolding(crate::specs::Lists::joined_text))]
fn push_nodes(text: &mut Vec<u8>, first: u8, rest: &[u8]) -> Result<(), AllocError>
    ensures { OnOk result (text.new.items
        ≡ text.old.items ++ joined_text (codes ", ") (first ∷ rest.now)) }
{
    push_number(text, b"", u64::from(first))?;
    push_later_nodes(text, rest)
}

#[tactic(auto, unfolding(crate::specs::Lists::nodes_line))]
/// Adds a line about nodes: what is said of them, then their numbers. Adds nothing if there are no nodes.
pub fn push_nodes_line(text: &mut Vec<u8>, said: &[u8], nodes: &[u8]) -> Result<(), AllocError>
    ensures { OnOk result (text.new.items ≡ text.old.items ++ nodes_line said.now nodes.now) }
{
    match nodes {
        [] => Ok(()),
        [first, rest @ ..] => {
            text.extend_from_slice(said)?;
            text.extend_from_slice(node_word(rest))?;
            push_nodes(text, *first, rest)?;
            text.extend_from_slice(b"\n")
        }
    }
}

#[tactic(auto, unfolding(crate::specs::Lists::node_word))]
fn node_word(others: &[u8]) -> &'static [u8]
    ensures { result.now ≡ node_word others.now }
{
    match others {
        [] => b"node ",
        [_, ..] => b"nodes ",
    }
}
