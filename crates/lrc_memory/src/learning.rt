// What a node knows of the intervals of all nodes.

ghost use Rattle.std.specs.Prelude.{All, ◌≡◌, ◌<◌, ◌+◌, ◌↔◌, IfOk, IsTrue, OnOk, is_some, length};
ghost use Rattle.lrc_time.specs.Time.{entry};
ghost use Rattle.lrc_store.specs.Store.{newer_of, notice_at};
ghost use Rattle.lrc_protocol.specs.Pages.{learned};
ghost use Rattle.lrc_store.specs.Interval.{index_of};
ghost use Rattle.lrc_memory.specs.Steps.{invalidated_on, learned_one};
ghost use Rattle.lrc_memory.specs.View.{SameMemory, WasLast, with_known};
ghost use Rattle.lrc_memory.specs.Turns.{CanBeAdded, IsInRange};

use crate::memory::Memory;
use crate::settle::settle_page;
use lrc_store::{Interval, Intervals, Key, Store};
use lrc_table::State;
use lrc_time::Time;
use std::alloc::AllocError;

impl Memory {
    /// Learns intervals of other nodes. They are stored, and the valid copies of the pages that they name become
    /// invalid. A written page stays written. `before` is the node's time before it learns them.
    pub fn learn(&mut self, before: &Time, intervals: &Intervals) -> Result<(), AllocError>
        requires before { length before.now ≡ length self.old.memory.store.last }
        requires intervals { CanBeAdded self.old.memory.store intervals.now }
        ensures ok { OnOk result (self.new ≡ with_known self.old
            (learned before.now intervals.now self.old.memory)) }
        ensures same { SameMemory self.old self.new }
    {
        let in_step = is_last(&self.store, before);
        for interval in intervals.as_slice() {
            self.learn_one(before, in_step, interval)?;
        }
        Ok(())
    }

    // Learns one interval, which follows the last one added of its node. With `in_step` the time before was what the store had
    // of each node when the learning began.
    fn learn_one(
        &mut self,
        before: &Time,
        in_step: bool,
        interval: &Interval,
    ) -> Result<(), AllocError>
        requires before { length before.now ≡ length self.old.memory.store.last }
        requires in_step { IsTrue in_step → WasLast self.old.memory.store before.now }
        requires in_range { IsInRange self.old.memory.store interval.now }
        requires next { index_of interval.now ≡ entry self.old.memory.store.last interval.now.node +
            1 }
        ensures ok { OnOk result (self.new ≡ with_known self.old
            (learned_one before.now self.old.memory interval.now)) }
        ensures same { SameMemory self.old self.new }
    {
        self.store.add(interval)?;
        for page in interval.pages.as_slice() {
            self.invalidate(before, in_step, *page)?;
        }
        Ok(())
    }

    // Makes a valid copy of a page invalid, at a time before the write of another node is known. Another copy stays.
    fn invalidate(&mut self, before: &Time, in_step: bool, page: u16) -> Result<(), AllocError>
        requires before { length before.now ≡ length self.old.memory.store.last }
        requires in_step { IsTrue in_step → WasLast self.old.memory.store before.now }
        requires in_range { page < length self.old.memory.copies }
        ensures ok { OnOk result (self.new ≡ with_known self.old
            (record self.old.memory {
              copies = invalidated_on before.now self.old.memory.copies
                  page;
            })) }
        ensures same { SameMemory self.old self.new }
    {
        if let State::Valid = self.table.state(page) {
            settle_page(&mut self.table, &mut self.store, self.me, &self.notes, page)?;
            self.table.invalidate(page);
            self.notes[usize::from(page)].since = before.copy();
            self.in_step &= in_step;
        }
        Ok(())
    }

    /// Returns the intervals that `upto` knows and `since` does not, ascending by node and index.
    pub fn newer(&self, since: &Time, upto: &Time) -> Result<Intervals, AllocError>
        requires since { length since.now ≡ length self.now.memory.store.last }
        requires upto { length upto.now ≡ length self.now.memory.store.last }
        ensures found { IfOk result (λ found. found
            ≡ newer_of self.now.memory.store since.now upto.now) }
        ensures stamps { IfOk result (λ found. All
            (λ i. length i.stamp ≡ length self.now.memory.store.last) found) }
    {
        self.store.newer_than(since, upto)
    }

    /// Returns the number of stored intervals.
    pub fn len(&self) -> usize
        ensures { result ≡ length self.now.memory.store.entries }
    {
        self.store.len()
    }

    /// Returns the greatest index ever added for this node, or 0 if there is none.
    pub fn last(&self, node: u8) -> u32
        requires { node < length self.now.memory.store.last }
        ensures index { result ≡ entry self.now.memory.store.last node }
    {
        self.store.last(node)
    }

    /// Returns whether this node's interval with the given index is stored and names the page.
    pub fn has_notice(&self, node: u8, index: u32, page: u16) -> bool
        ensures { result
            ≡ is_some (notice_at self.now.memory.store
            (record { node = node; index = index; page = page })) }
    {
        self.store.has_notice(Key { node, index, page })
    }
}

/// Returns whether this time equals the last index added for each node. A node's time does so before it learns.
pub(crate) fn is_last(store: &Store, time: &Time) -> bool
    requires { length time.now ≡ length store.now.last }
    ensures { IsTrue result ↔ (time.now ≡ store.now.last) }
{
    for node in 0..time.nodes() {
        if time.at(node) != store.last(node) {
            return false;
        }
    }
    true
}
