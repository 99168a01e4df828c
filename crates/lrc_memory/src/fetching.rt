// What a node gives to others, and takes from them.

ghost use Rattle.std.specs.Prelude.{◌≡◌, ◌<◌, Some, All, IfOk, IsTrue, OnOk, fold, is_none, length, true, []};
ghost use Rattle.std.specs.List.{list_all};
ghost use Rattle.lrc_page.specs.declared.TheConstants.{MOST_PAGES};
ghost use Rattle.lrc_protocol.specs.Pages.{asked_of, changes_or_none, copy_at, keeper_at, missing_at, repaired, need_of, unknown_of, with_part};
ghost use Rattle.lrc_page.specs.Page.{words_of};
ghost use Rattle.lrc_store.specs.Lists.{KnowsTheFirst};
ghost use Rattle.lrc_store.specs.Store.{IsMissing, attached, changes_at, missing_of, notice_at, unread};
ghost use Rattle.lrc_table.specs.Table.{with_copy};
ghost use Rattle.lrc_table.specs.Table as tables;
ghost use Rattle.lrc_need.specs.Need.{AreAskable};
ghost use Rattle.lrc_need.specs.Seen.{seen_base};
ghost use Rattle.lrc_memory.specs.Steps.{base_in, begun_with, patched_with};
ghost use Rattle.lrc_memory.specs.View.{AreSized, SameMemory, seen_in, with_known};
ghost use Rattle.lrc_memory.specs.Turns.{AreAwaited, is_mendable};

use crate::memory::Memory;
use crate::settle::settle_page;
use lrc_envelope::Parts;
use lrc_need::{Base, Need};
use lrc_page::Changes;
use lrc_store::{Key, Store};
use lrc_table::{PageTable, State};
use lrc_time::Time;
use std::alloc::{AllocError, Global};

impl Memory {
    /// Returns what the node's own interval with this index changed in a page, for a reply. The list is empty if no
    /// such changes are known.
    pub fn changes_of(&mut self, page: u16, index: u32) -> Result<Changes, AllocError>
        requires { page < length self.old.memory.copies }
        ensures changes { IfOk result (λ changes. changes
            ≡ changes_or_none self.old.memory.store
            (record { node = self.old.me; index = index; page = page })) }
        ensures ok { OnOk result (self.new ≡ self.old) }
        ensures same { SameMemory self.old self.new }
    {
        settle_page(&mut self.table, &mut self.store, self.me, &self.notes, page)?;
        let alloc = *self.notes.allocator();
        let node = self.me;
        changes_or_none(alloc, &self.store, Key { node, index, page })
    }

    /// Stores what the intervals of a maker changed in a page.
    pub fn attach(&mut self, maker: u8, page: u16, parts: &Parts) -> Result<(), AllocError>
        requires awaited { AreAwaited self.old.size self.old.memory.store maker page parts.now }
        ensures ok { OnOk result (self.new ≡ with_known self.old
            (record self.old.memory {
              store = fold (with_part maker page) self.old.memory.store
                  parts.now;
            })) }
        ensures same { SameMemory self.old self.new }
    {
        for part in parts.as_slice() {
            let node = maker;
            let index = part.index;
            self.keep(Key { node, index, page }, part.changes.duplicate()?);
        }
        Ok(())
    }

    // Keeps the changes of a stored notice of which none are known.
    fn keep(&mut self, key: Key, changes: Changes)
        requires awaited { notice_at self.old.memory.store key ≡ Some (unread key.page) }
        requires sized { All (λ c. c.offset < words_of self.old.size) changes }
        ensures kept { self.new ≡ with_known self.old
            (record self.old.memory { store = attached self.old.memory.store key changes }) }
        ensures same { SameMemory self.old self.new }
    {
        self.store.attach(key, changes);
    }

    /// Returns what a page needs before it can be read: a base copy if its copy is absent, and the changes that its
    /// copy lacks. Those that are not known here are asked of their makers.
    pub fn need(&self, page: u16) -> Result<Need, AllocError>
        requires { page < length self.now.memory.copies }
        ensures need { IfOk result (λ need. need
            ≡ need_of (length self.now.memory.store.last) self.now.memory page) }
        ensures keeper { keeper_at self.now.memory page < length self.now.memory.store.last }
    {
        let alloc = *self.notes.allocator();
        let missing = self.lacking(page)?;
        // For the proof: there are at most `MOST_PAGES` pages.
        let _few = self.table.size();
        let keeper = self.notes[usize::from(page)].keeper;
        let base = base_due(self.table.state(page), keeper);
        need_of(
            alloc,
            &self.store,
            self.collected.nodes(),
            page,
            base,
            missing,
        )
    }

    /// Returns the notices of a page that its copy lacks, in the order in which their changes are applied.
    pub fn lacking(&self, page: u16) -> Result<Vec<Key>, AllocError>
        requires { page < length self.now.memory.copies }
        ensures keys { IfOk result (λ keys. keys.items ≡ missing_at self.now.memory page) }
        ensures askable { IfOk result (λ keys. AreAskable keys.items) }
    {
        match self.table.state(page) {
            State::Invalid => {
                let since = &self.notes[usize::from(page)].since;
                missing(&self.store, page, since, self.in_step)
            }
            State::Absent => missing(&self.store, page, &self.collected, self.in_step),
            _ => Ok(Vec::new(*self.notes.allocator())),
        }
    }

    /// Repairs a page whose copy is not readable. The missing changes are applied to the base copy that arrived, or
    /// else to the present copy. The copy is then valid.
    pub fn mend(&mut self, need: &Need)
        requires in_range { need.now.page < length self.old.memory.copies }
        requires fit { is_mendable self.old.size
            (copy_at self.old.memory need.now.page) need.now.base ≡ true }
        requires of_page { All (λ key. key.page ≡ need.now.page) need.now.missing }
        ensures mended { self.new ≡ with_known self.old (repaired self.old.memory need.now) }
        ensures same { SameMemory self.old self.new }
    {
        let page = need.page();
        // For the proof: every copy is whole.
        let _whole = self.table.size();
        install_base(&mut self.table, page, need.base());
        patch_all(&mut self.table, &self.store, page, need.missing());
        self.table.repair(page, &[]);
    }
}

// The notices of a page that a time does not know, in the order in which their changes are applied. With `in_step` the time
// once was the store's, and the page's list is followed no further than to the newest notice that it knows.
fn missing(store: &Store, page: u16, since: &Time, in_step: bool) -> Result<Vec<Key>, AllocError>
    requires since { length since.now ≡ length store.now.last }
    requires in_step { IsTrue in_step → KnowsTheFirst store.now page since.now }
    ensures missing { IfOk result (λ found. IsMissing store.now page since.now found.items) }
    ensures value { IfOk result (λ found. found.items ≡ missing_of store.now page since.now) }
{
    if in_step {
        store.missing_until_known(page, since)
    } else {
        store.missing(page, since)
    }
}

// Puts the base copy that has come in the place of an absent copy, which is invalid then. An invalid copy stays.
fn install_base(table: &mut PageTable, page: u16, base: &Base)
    requires in_range { page < length table.old.copies }
    requires fit { is_mendable table.old.size
        (seen_in (tables.copy_at table.old page).state [] (tables.copy_at table.old page))
        (seen_base base.now) ≡ true }
    ensures copy { table.new ≡ with_copy table.old page
        (begun_with (tables.copy_at table.old page) (seen_base base.now)) }
    ensures invalid { (tables.copy_at table.new page).state ≡ State.Invalid }
{
    if let Base::Come(copy) = base {
        table.install(page, copy.copy());
    }
}

// Writes the changes of these keys, where they are known, into an invalid copy of a page.
fn patch_all(table: &mut PageTable, store: &Store, page: u16, keys: &[Key])
    requires in_range { page < length table.old.copies }
    requires invalid { (tables.copy_at table.old page).state ≡ State.Invalid }
    requires sized { All (AreSized table.old.size) store.now.entries }
    ensures { table.new ≡ with_copy table.old page
        (patched_with store.now (tables.copy_at table.old page) keys.now) }
{
    for key in keys {
        if let Some(changes) = store.changes(*key) {
            table.patch(page, changes);
        }
    }
}

// The changes of a key, and none where they are not known.
fn changes_or_none(alloc: Global, store: &Store, key: Key) -> Result<Changes, AllocError>
    ensures { IfOk result (λ changes. changes ≡ changes_or_none store.now key) }
{
    match store.changes(key) {
        Some(changes) => changes.duplicate(),
        None => Ok(Changes::empty(alloc)),
    }
}

// What a page needs that lacks these changes: those that are not known are asked of their makers. Mostly none are known.
fn need_of(
    alloc: Global,
    store: &Store,
    nodes: u8,
    page: u16,
    base: Base,
    missing: Vec<Key>,
) -> Result<Need, AllocError>
    requires page { page < MOST_PAGES }
    requires askable { AreAskable missing.items }
    ensures { IfOk result (λ need. need
        ≡ record {
          page = page;
          base = seen_base base;
          asked = asked_of nodes
              (unknown_of store.now missing.items);
          missing = missing.items;
        }) }
{
    if are_unknown(store, &missing) {
        return Need::asking_all(alloc, nodes, page, base, missing);
    }
    let unknown = unknown_of(alloc, store, &missing)?;
    Need::new(alloc, nodes, page, base, missing, &unknown)
}

// Whether no changes of these keys are known.
fn are_unknown(store: &Store, keys: &[Key]) -> bool
    ensures { result ≡ list_all (λ key. is_none (changes_at store.now key)) keys.now }
{
    keys.iter().all(|key| store.changes(*key).is_none())
}

// The keys of which no changes are known.
fn unknown_of(alloc: Global, store: &Store, keys: &[Key]) -> Result<Vec<Key>, AllocError>
    ensures { IfOk result (λ unknown. unknown.items ≡ unknown_of store.now keys.now) }
{
    let mut unknown = Vec::with_capacity(alloc, keys.len())?;
    for key in keys {
        if store.changes(*key).is_none() {
            unknown.push(*key)?;
        }
    }
    Ok(unknown)
}

// A base copy is due from the keeper where the copy is absent.
fn base_due(state: State, keeper: u8) -> Base
    ensures { seen_base result ≡ base_in state keeper }
{
    match state {
        State::Absent => Base::Due(keeper),
        State::Valid | State::Written | State::Invalid => Base::Unneeded,
    }
}
