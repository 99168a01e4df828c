// What is asked of the makers of changes.

ghost use Rattle.std.specs.Prelude.{◌≡◌, ◌≤◌, ◌==◌, ◌++◌, IfOk, OnOk, All, length, not, map, filter};
ghost use Rattle.std.specs.List.{list_any};
ghost use Rattle.std.specs.Option.{option_to_list};
ghost use lib.Pointwise.{pointwise};
ghost use Rattle.lrc_protocol.specs.Pages.{asked_of, asks_just, indices_of, some_asked};
ghost use Rattle.lrc_need.specs.Need.{AreAskable};

use lrc_envelope::{FEW_INDICES, IndexedChanges, Indices};
use lrc_store::Key;
use smallvec::SmallVec;
use std::alloc::{AllocError, Global};
use std::marker::Model;

/// The changes that a node asks of one maker.
#[derive(Drop)]
pub struct Asked {
    /// The node that made the changes, counted from 0.
    pub maker: u8,
    /// The maker's intervals that made the changes.
    pub indices: Indices,
}

impl Model for Asked {
    ghost use Rattle.lrc_protocol.specs.Pages as fetch;

    ghost Value = { fetch.Asked };

    ghost view = { λ a. record { maker = a.maker; indices = a.indices } };
}

impl Asked {
    // Whether these are the changes that are asked of this maker.
    fn is_of(&self, maker: u8, parts: &[IndexedChanges]) -> bool
        ensures { result ≡ asks_just maker (map (λ part. part.index) parts.now) self.now }
    {
        self.maker == maker && are_of(self.indices.as_slice(), parts)
    }

    /// Returns a copy of the indices.
    pub fn duplicate_indices(&self, alloc: Global) -> Result<Indices, AllocError>
        ensures { IfOk result (λ indices. indices ≡ self.now.indices) }
    {
        let list = SmallVec::from_slice(alloc, self.indices.as_slice())?;
        Ok(Indices::from_short(list))
    }
}

// Whether these are the indices of these parts.
fn are_of(indices: &[u32], parts: &[IndexedChanges]) -> bool
    ensures { result ≡ pointwise ◌==◌ indices.now (map (λ part. part.index) parts.now) }
{
    if indices.len() != parts.len() {
        return false;
    }
    for (place, part) in parts.iter().enumerate() {
        if indices[place] != part.index {
            return false;
        }
    }
    true
}

/// Returns whether one of these is a request to this maker for exactly these changes.
pub(crate) fn is_any_of(all: &[Asked], maker: u8, parts: &[IndexedChanges]) -> bool
    ensures { result ≡ list_any (asks_just maker (map (λ part. part.index) parts.now)) all.now }
{
    all.iter().any(|asked| asked.is_of(maker, parts))
}

/// Removes what is asked of this maker.
pub(crate) fn drop_maker(all: &mut Vec<Asked>, maker: u8)
    ensures { all.new.items ≡ filter (λ asked. not (asked.maker == maker)) all.old.items }
{
    all.retain(|asked| asked.maker != maker);
}

/// Returns what is asked of each maker of these keys, makers ascending.
pub(crate) fn ask(alloc: Global, nodes: u8, keys: &[Key]) -> Result<Vec<Asked>, AllocError>
    requires { AreAskable keys.now }
    ensures asked { IfOk result (λ asked. asked.items ≡ asked_of nodes keys.now) }
    ensures some { IfOk result (λ asked. All (λ a. 1 ≤ length a.indices) asked.items) }
{
    let most = keys.len().min(usize::from(nodes));
    let mut all = Vec::with_capacity(alloc, most)?;
    for maker in 0..nodes {
        let indices = ask_maker(alloc, keys, maker)?;
        put_some(&mut all, maker, indices)?;
    }
    Ok(all)
}

// Adds what is asked of a maker, where it is anything.
fn put_some(all: &mut Vec<Asked>, maker: u8, indices: Indices) -> Result<(), AllocError>
    ensures { OnOk result (all.new.items
        ≡ all.old.items ++ option_to_list (some_asked maker indices)) }
{
    if !indices.is_empty() {
        all.push(Asked { maker, indices })?;
    }
    Ok(())
}

// The indices of a maker's intervals among these keys, ascending.
fn ask_maker(alloc: Global, keys: &[Key], maker: u8) -> Result<Indices, AllocError>
    requires { AreAskable keys.now }
    ensures { IfOk result (λ indices. indices ≡ indices_of keys.now maker) }
{
    let mut list = indices_by(alloc, keys, maker)?;
    list.sort_unstable();
    Ok(Indices::from_short(list))
}

// The indices of a maker's intervals among these keys, in their order.
fn indices_by(
    alloc: Global,
    keys: &[Key],
    maker: u8,
) -> Result<SmallVec<u32, FEW_INDICES>, AllocError>
    ensures { IfOk result (λ list. list.items
        ≡ map (λ key. key.index) (filter (λ key. key.node == maker) keys.now)) }
{
    let mut list = SmallVec::new(alloc);
    for key in keys {
        if key.node == maker {
            list.push(key.index)?;
        }
    }
    Ok(list)
}
