// Lists that run through an arena.

ghost use Rattle.std.specs.Prelude.{◌≡◌, ◌<◌, ◌≤◌, ◌+◌, ◌==◌, IfOk, OnErr, OnOk, [], ◌∷◌, ◌++◌, length, slice_index, take};
ghost use Rattle.lrc_store.specs.Chains.{ChainsRecord, last_at};

use std::alloc::{AllocError, Global};
use std::marker::Model;

/// The largest number of entries of an arena.
pub(crate) const MOST_ENTRIES: usize = 4_294_967_295;

/// An entry's key, and the place of the entry before it with the same key.
#[derive(Clone, Copy)]
struct Entry {
    key: u16,
    next: Option<u32>,
}

/// For each key, the list of the entries that have it, newest first. Entries are counted in the order of adding.
#[derive(Drop)]
pub(crate) struct Chains {
    newest: Vec<Option<u32>>,
    entries: Vec<Entry>,
}

impl Model for Chains {
    ghost use Rattle.std.specs.Prelude.{ℕ, ◌≤◌, length, map, vec_capacity};
    ghost use Rattle.lrc_store.specs.Chains.{ChainsRecord};

    ghost Value = { ChainsRecord };

    ghost use Rattle.lrc_store.specs.Linked.{IsLinked};

    ghost view = { λ c. record {
      lists = length c.newest.items;
      keys = map (λ entry. entry.key) c.entries.items;
      room = vec_capacity c.entries;
    } };

    ghost invariant = { λ c. IsLinked c.newest.items c.entries.items };
}

impl Chains {
    /// Returns an arena's lists without entries, for keys below `lists`. It fails if memory runs out.
    pub(crate) fn new(alloc: Global, lists: usize) -> Result<Self, AllocError>
        ensures lists { IfOk result (λ chains. chains.lists ≡ lists) }
        ensures keys { IfOk result (λ chains. chains.keys ≡ []) }
    {
        let mut newest = Vec::new(alloc);
        newest.resize(lists, None)?;
        Ok(Chains {
            newest,
            entries: Vec::new(alloc),
        })
    }

    /// Returns the number of entries.
    pub(crate) fn len(&self) -> usize
        ensures count { result ≡ length self.now.keys }
        ensures room { length self.now.keys ≤ self.now.room }
        ensures few { length self.now.keys ≤ MOST_ENTRIES }
    {
        self.entries.len()
    }

    /// Makes room for `more` entries. It fails if memory runs out, or if there would be more than `MOST_ENTRIES`
    /// entries. Then nothing changes.
    pub(crate) fn reserve(&mut self, more: usize) -> Result<(), AllocError>
        ensures same { self.new ≡ record self.old { room = self.new.room } }
        ensures ok { OnOk result (length self.old.keys + more ≤ self.new.room) }
        ensures few { OnOk result (length self.old.keys + more ≤ MOST_ENTRIES) }
    {
        if more > MOST_ENTRIES || self.entries.len() > MOST_ENTRIES - more {
            return Err(AllocError);
        }
        self.entries.reserve(more)
    }

    /// Adds an entry with the given key. There is room for it.
    pub(crate) fn push(&mut self, key: u16)
        requires in_range { key < self.old.lists }
        requires room { length self.old.keys < self.old.room }
        requires few { length self.old.keys < MOST_ENTRIES }
        ensures lists { self.new.lists ≡ self.old.lists }
        ensures keys { self.new.keys ≡ self.old.keys ++ key ∷ [] }
        ensures room { self.old.room ≤ self.new.room }
    {
        let at = self.entries.len() as u32;
        let next = self.newest[usize::from(key)];
        let Ok(()) = self.entries.push(Entry { key, next }) else {
            unreachable!();
        };
        self.newest[usize::from(key)] = Some(at);
    }

    /// Removes all entries, but keeps their room.
    pub(crate) fn clear(&mut self)
        ensures { self.new ≡ record self.old { keys = [] } }
    {
        self.entries.clear();
        self.newest.as_mut_slice().fill(None);
    }

    /// Returns the key of an entry.
    pub(crate) fn key(&self, at: u32) -> u16
        requires { at < length self.now.keys }
        ensures { result ≡ slice_index self.now.keys at }
    {
        self.entries[at as usize].key
    }

    /// Returns the newest entry with the given key, or none if there is none.
    pub(crate) fn first(&self, key: u16) -> Option<u32>
        ensures { result ≡ last_at (λ other. other == key) self.now.keys }
    {
        if usize::from(key) < self.newest.len() {
            self.newest[usize::from(key)]
        } else {
            None
        }
    }

    /// Returns the newest entry before the given one that has the same key, or none if there is none.
    pub(crate) fn next(&self, at: u32) -> Option<u32>
        requires { at < length self.now.keys }
        ensures { result ≡ last_at (λ other. other == slice_index self.now.keys at)
            (take at self.now.keys) }
    {
        self.entries[at as usize].next
    }
}
