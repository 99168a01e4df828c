// The intervals and the notices of a store.

ghost use Rattle.std.specs.Prelude.{◌≡◌, ◌<◌, ◌≤◌, ◌+◌, ◌==◌, ℕ, OnErr, OnOk, Some, [], ◌∷◌, ◌++◌, filter, flat_map, is_some, length, map, nat_lt};
ghost use Rattle.std.specs.Prelude.{not, option_and_then, position, slice_index_or, slice_set, take, vec_capacity, vec_len};
ghost use Rattle.std.specs.Option.{option_copied};
ghost use Rattle.lrc_time.specs.Time.{knows};
ghost use Rattle.lrc_page.specs.Pages.{IsRising};
ghost use Rattle.lrc_store.specs.Arena.{fresh_in};
ghost use Rattle.lrc_store.specs.Links.{ranked_pages};
ghost use Rattle.lrc_store.specs.Lists.{keys_of};
ghost use Rattle.lrc_store.specs.Store.{StoredRecord, interval_of, is_covered, notice_of, notice_with, without_changes};

use crate::interval::Interval;
use crate::key::Key;
use crate::links::is_known;
use lrc_page::Changes;
use lrc_time::Time;
use std::alloc::{AllocError, Global};
use std::marker::Model;

/// A notice, with the weight of its interval's stamp, and with the changes of its page once they have arrived.
#[derive(Drop)]
struct Noted {
    weight: u64,
    key: Key,
    changes: Option<Changes>,
}

impl Model for Noted {
    ghost use Rattle.lrc_store.specs.Arena.{NotedRecord};

    ghost Value = { NotedRecord };

    ghost view = { λ n. record { weight = n.weight; key = n.key; changes = n.changes } };
}

impl Noted {
    // Keeps the changes.
    fn keep(&mut self, changes: Changes)
        ensures { self.new ≡ record self.old { changes = Some changes } }
    {
        self.changes = Some(changes);
    }
}

/// The intervals in the order of adding, and their notices. The notices have the same order, and those of one interval
/// are ordered by page. Each notice holds its changes.
#[derive(Drop)]
pub(crate) struct Arena {
    intervals: Vec<Interval>,
    notices: Vec<Noted>,
}

impl Model for Arena {
    ghost use Rattle.std.specs.Prelude.{◌≡◌, map};
    ghost use Rattle.lrc_store.specs.Arena.{ArenaRecord, rank_of, stored_from};
    ghost use Rattle.lrc_store.specs.Links.{ranked_of};

    ghost Value = { ArenaRecord };

    ghost view = { λ a. record {
      entries = stored_from a.intervals.items a.notices.items;
      notices = map rank_of a.notices.items;
    } };

    ghost invariant = { λ a. map rank_of a.notices.items ≡ ranked_of a.intervals.items };
}

impl Arena {
    /// Returns an arena without intervals and notices.
    pub(crate) fn new(alloc: Global) -> Self
        ensures { result ≡ record { entries = []; notices = [] } }
    {
        Arena {
            intervals: Vec::new(alloc),
            notices: Vec::new(alloc),
        }
    }

    /// Returns the allocator that the memory comes from.
    pub(crate) fn allocator(&self) -> Global {
        *self.intervals.allocator()
    }

    /// Returns the number of intervals.
    pub(crate) fn len(&self) -> usize
        ensures { result ≡ length self.now.entries }
    {
        self.intervals.len()
    }

    /// Returns the number of notices.
    pub(crate) fn noted(&self) -> usize
        ensures { result ≡ length self.now.notices }
    {
        self.notices.len()
    }

    /// Adds an interval without changes. It fails if memory runs out, and then nothing changes.
    pub(crate) fn push(&mut self, interval: &Interval) -> Result<(), AllocError>
        ensures entries { OnOk result (self.new.entries
            ≡ self.old.entries ++ without_changes interval.now ∷ []) }
        ensures notices { OnOk result (self.new.notices
            ≡ self.old.notices ++ ranked_pages interval.now) }
        ensures err { OnErr result (self.new ≡ self.old) }
    {
        self.notices.reserve(interval.pages.len())?;
        let own = interval.duplicate()?;
        self.intervals.push(own)?;
        add_notices(&mut self.notices, interval);
        Ok(())
    }

    /// Returns the interval at a place, in the order of adding.
    pub(crate) fn interval(&self, at: usize) -> &Interval
        requires { at < length self.now.entries }
        ensures { (d : StoredRecord) → result.now
            ≡ interval_of (slice_index_or self.now.entries at d) }
    {
        &self.intervals[at]
    }

    /// Returns the weight and the key of the notice at a place, in the order of adding.
    pub(crate) fn notice(&self, at: usize) -> (u64, Key)
        requires { at < length self.now.notices }
        ensures { (d : ℕ × Key) → result ≡ slice_index_or self.now.notices at d }
    {
        let noted = &self.notices[at];
        (noted.weight, noted.key)
    }

    /// Returns the changes of a page in the interval at a place, if they are known. The interval's notices begin at
    /// `start`.
    pub(crate) fn changes(&self, at: usize, start: usize, page: u16) -> Option<&Changes>
        requires within { at < length self.now.entries }
        requires start { start ≡ length (flat_map keys_of
            (take at (map interval_of self.now.entries))) }
        ensures { (d : StoredRecord) → option_copied result
            ≡ option_and_then (λ notice. notice.changes)
            (notice_of page (slice_index_or self.now.entries at d)) }
    {
        let offset = place_of(self.intervals[at].pages.as_slice(), page)?;
        let noted = &self.notices[start + offset];
        noted.changes.as_ref()
    }

    /// Returns whether the interval at a place names the page.
    pub(crate) fn has_notice(&self, at: usize, page: u16) -> bool
        requires { at < length self.now.entries }
        ensures { (d : StoredRecord) → result
            ≡ is_some (notice_of page (slice_index_or self.now.entries at d)) }
    {
        place_of(self.intervals[at].pages.as_slice(), page).is_some()
    }

    /// Keeps the changes of a page in the interval at a place. The interval's notices begin at `start`.
    pub(crate) fn attach(&mut self, at: usize, start: usize, page: u16, changes: Changes)
        requires within { at < length self.old.entries }
        requires start { start ≡ length (flat_map keys_of
            (take at (map interval_of self.old.entries))) }
        ensures entries { (d : StoredRecord) → self.new.entries ≡ slice_set self.old.entries at
            (record (slice_index_or self.old.entries at d) {
              notices = map (notice_with page changes)
                  (slice_index_or self.old.entries at d).notices;
            }) }
        ensures notices { self.new.notices ≡ self.old.notices }
    {
        if let Some(offset) = place_of(self.intervals[at].pages.as_slice(), page) {
            self.notices[start + offset].keep(changes);
        }
    }

    /// Removes the intervals that the time knows, with their notices. The others move to the front.
    pub(crate) fn discard(&mut self, time: &Time)
        ensures entries { self.new.entries ≡ filter
            (λ stored. not (is_covered time.now (interval_of stored))) self.old.entries }
        ensures notices { self.new.notices ≡ filter
            (λ notice. not (knows time.now notice.1.node notice.1.index)) self.old.notices }
    {
        self.intervals.retain(|interval| !interval.is_known(time));
        self.notices
            .retain(|noted| !is_known(time, noted.key.node, noted.key.index));
    }
}

// Adds the interval's notices, for which there is room, without changes.
fn add_notices(notices: &mut Vec<Noted>, interval: &Interval)
    requires room { vec_len notices.old + length interval.now.pages ≤ vec_capacity notices.old }
    ensures { notices.new.items ≡ notices.old.items
        ++ map (fresh_in interval.now) interval.now.pages }
{
    let weight = interval.stamp.weight();
    let node = interval.node;
    let index = interval.index();
    for page in interval.pages.as_slice() {
        let noted = Noted {
            weight,
            key: Key {
                node,
                index,
                page: *page,
            },
            changes: None,
        };
        let Ok(()) = notices.push(noted) else {
            unreachable!();
        };
    }
}

// Where this page stands among pages that ascend.
fn place_of(pages: &[u16], page: u16) -> Option<usize>
    requires { IsRising pages.now }
    ensures { result ≡ position (λ named. named == page) pages.now }
{
    let place = pages.partition_point(
        |named: &u16| -> bool
            ensures { result ≡ nat_lt named.now page }
        { *named < page },
    );
    let named = pages.get(place)?;
    if *named == page { Some(place) } else { None }
}
