// What pages need before they can be read.

ghost use Rattle.std.specs.Prelude.{◌≡◌, ◌++◌, IfOk, OnOk, codes, decimal, map};
ghost use Rattle.lrc_need.specs.Seen.{seen_base};
ghost use Rattle.lrc_state_text.specs.Json.{later, listed};
ghost use Rattle.lrc_state_text.specs.Waits.{needs_member};
ghost use Rattle.lrc_state_text.specs.Needs.{asked_names, asked_of_maker, base_name, name_of, name_text, names_text, need_text};

use crate::json::push_interval_name;
use lrc_envelope::Indices;
use lrc_need::{Asked, Base, Need};
use lrc_text::push_number;
use std::alloc::{AllocError, Global};

/// The name of an interval: its node, and its index among that node's intervals.
#[derive(Clone, Copy)]
pub struct IntervalName {
    pub node: u8,
    pub index: u32,
}

fn push_name(text: &mut Vec<u8>, name: IntervalName) -> Result<(), AllocError>
    ensures { OnOk result (text.new.items ≡ text.old.items ++ name_text name) }
{
    push_interval_name(text, name.node, name.index)
}

// Adds a name behind others.
fn push_next_name(text: &mut Vec<u8>, name: IntervalName) -> Result<(), AllocError>
    ensures { OnOk result (text.new.items ≡ text.old.items ++ (codes "," ++ name_text name)) }
{
    text.extend_from_slice(b",")?;
    push_name(text, name)
}

fn push_later_names(text: &mut Vec<u8>, names: &[IntervalName]) -> Result<(), AllocError>
    ensures { OnOk result (text.new.items ≡ text.old.items ++ later name_text names.now) }
{
    for name in names {
        push_next_name(text, *name)?;
    }
    Ok(())
}

#[tactic(auto, unfolding(crate::specs::Json::listed))]
fn push_listed_names(text: &mut Vec<u8>, names: &[IntervalName]) -> Result<(), AllocError>
    ensures { OnOk result (text.new.items ≡ text.old.items ++ listed name_text names.now) }
{
    match names {
        [] => Ok(()),
        [first, rest @ ..] => {
            push_name(text, *first)?;
            push_later_names(text, rest)
        }
    }
}

/// Adds a list of interval names.
pub(crate) fn push_interval_names(
    text: &mut Vec<u8>,
    names: &[IntervalName],
) -> Result<(), AllocError>
    ensures { OnOk result (text.new.items ≡ text.old.items ++ names_text names.now) }
{
    text.extend_from_slice(b"[")?;
    push_listed_names(text, names)?;
    text.extend_from_slice(b"]")
}

// Puts the names of a node's intervals behind others.
fn put_names(names: &mut Vec<IntervalName>, node: u8, indices: &Indices) -> Result<(), AllocError>
    ensures { OnOk result (names.new.items ≡ names.old.items ++ map (name_of node) indices.now) }
{
    for place in 0..indices.len() {
        let index = indices.at(place);
        names.push(IntervalName { node, index })?;
    }
    Ok(())
}

// Puts the intervals whose changes are asked of one maker behind others.
fn put_asked(names: &mut Vec<IntervalName>, asked: &Asked) -> Result<(), AllocError>
    ensures { OnOk result (names.new.items ≡ names.old.items ++ asked_of_maker asked.now) }
{
    put_names(names, asked.maker, &asked.indices)
}

// The intervals whose changes are asked of their makers.
fn asked_names(alloc: Global, all: &[Asked]) -> Result<Vec<IntervalName>, AllocError>
    ensures { IfOk result (λ names. names.items ≡ asked_names all.now) }
{
    let mut names = Vec::new(alloc);
    for asked in all {
        put_asked(&mut names, asked)?;
    }
    Ok(names)
}

#[tactic(auto, unfolding(crate::specs::Needs::base_name))]
fn base_name(base: &Base) -> &'static [u8]
    ensures { result.now ≡ base_name (seen_base base.now) }
{
    match base {
        Base::Unneeded => b"unneeded",
        Base::Due(_) => b"due",
        Base::Come(_) => b"come",
    }
}

// Adds the page of a need, and what is known of its base copy.
fn push_base(text: &mut Vec<u8>, need: &Need) -> Result<(), AllocError>
    ensures { OnOk result (text.new.items ≡ text.old.items
        ++ (codes "{\"page\":" ++ decimal need.now.page ++ codes ",\"base\":\""
        ++ base_name need.now.base)) }
{
    push_number(text, b"{\"page\":", u64::from(need.page()))?;
    text.extend_from_slice(b",\"base\":\"")?;
    text.extend_from_slice(base_name(need.base()))
}

#[tactic(auto, unfolding(crate::specs::Needs::need_text))]
fn push_need(text: &mut Vec<u8>, need: &Need) -> Result<(), AllocError>
    ensures { OnOk result (text.new.items ≡ text.old.items ++ need_text need.now) }
{
    let names = asked_names(*text.allocator(), need.asked())?;
    push_base(text, need)?;
    text.extend_from_slice(b"\",\"changes\":")?;
    push_interval_names(text, &names)?;
    text.extend_from_slice(b"}")
}

// Adds a need behind others.
fn push_next_need(text: &mut Vec<u8>, need: &Need) -> Result<(), AllocError>
    ensures { OnOk result (text.new.items ≡ text.old.items ++ (codes "," ++ need_text need.now)) }
{
    text.extend_from_slice(b",")?;
    push_need(text, need)
}

fn push_later_needs(text: &mut Vec<u8>, needs: &[Need]) -> Result<(), AllocError>
    ensures { OnOk result (text.new.items ≡ text.old.items ++ later need_text needs.now) }
{
    for need in needs {
        push_next_need(text, need)?;
    }
    Ok(())
}

#[tactic(auto, unfolding(crate::specs::Json::listed))]
// Adds what pages need.
fn push_needs(text: &mut Vec<u8>, needs: &[Need]) -> Result<(), AllocError>
    ensures { OnOk result (text.new.items ≡ text.old.items ++ listed need_text needs.now) }
{
    match needs {
        [] => Ok(()),
        [first, rest @ ..] => {
            push_need(text, first)?;
            push_later_needs(text, rest)
        }
    }
}

/// Adds the member that tells what pages need before they can be read.
pub(crate) fn push_needs_member(text: &mut Vec<u8>, needs: &[Need]) -> Result<(), AllocError>
    ensures { OnOk result (text.new.items ≡ text.old.items ++ needs_member needs.now) }
{
    text.extend_from_slice(b"\",\"needs\":[")?;
    push_needs(text, needs)?;
    text.extend_from_slice(b"]")
}
