// What becomes of what nodes share.

ghost use Rattle.std.specs.Prelude.{◌≡◌, ℕ, ◌||◌, IfOk, List, OnOk, Option};
ghost use Rattle.std.specs.List.{list_any};
ghost use Rattle.lrc_orders_settling.specs.Gone.{freed};
ghost use Rattle.lrc_orders_memory.specs.Sharing.{AreSharedDistinct, IsSharedAt, KeepsShared};
ghost use Rattle.lrc_orders_table.specs.Shared.{Fits, IsFitting, holders_then, is_change, is_release, words_then};

use crate::next::Next;
use crate::table::{Change, Table};
use lrc_orders_memory::numbers::short;
use lrc_orders_memory::sharing::AllShared;
use lrc_orders_settling::settle::give_back;
use lrc_trace::act::Deed;
use std::alloc::{AllocError, Global};

impl Table {
    ghost use Rattle.std.specs.Prelude.{◌≡◌, ℕ, IfOk, List, OnOk, Option, Some, slice_get};
    ghost use Rattle.lrc_orders_settling.specs.Gone.{freed};
    ghost use Rattle.lrc_orders_memory.specs.Sharing.{AreSharedDistinct, IsSharedAt, KeepsShared};
    ghost use Rattle.lrc_orders_table.specs.declared.table.After.{After as TheAfter};
    ghost use Rattle.lrc_orders_table.specs.declared.table.Asked.{Asked as TheAsked};
    ghost use Rattle.lrc_orders_table.specs.Shared.{IsFitting, holders_then, words_then};
    ghost use Rattle.lrc_orders_table.specs.Tables.{AreChanges};
    ghost use Rattle.lrc_orders_table.specs.Going.{IsNextOf};

    // The number of what is shared after what a node does next and what comes of it.
    pub(crate) fn shared_after(
        &mut self,
        alloc: Global,
        shared: u32,
        node: usize,
        next: Next,
        place: usize,
    ) -> Result<u32, AllocError>
        requires changes { AreChanges self.old }
        requires distinct { AreSharedDistinct self.old.rows.shared }
        requires next { IsNextOf self.old place node next }
        requires fits { IsFitting self.old.rows.shared shared next }
        ensures changes { OnOk result (AreChanges self.new) }
        ensures distinct { OnOk result (AreSharedDistinct self.new.rows.shared) }
        ensures keeps { OnOk result (KeepsShared self.old.rows.shared self.new.rows.shared) }
        ensures there { IfOk result (λ number. (words : List ℕ) (holders : List (Option ℕ))
            (asked : TheAsked) (after : TheAfter)
            → IsSharedAt self.old.rows.shared shared words holders
            → slice_get self.old.afters.entries place ≡ Some (asked, after)
            → IsSharedAt self.new.rows.shared number (words_then next words)
            (freed after.deeds.items (holders_then node next holders))) }
        ensures others { self.new ≡ record self.old {
          rows = record self.old.rows
              { shared = self.new.rows.shared };
          changes = self.new.changes;
        } }
    {
        let deeds = &self.afters[place].deeds;
        if !changes(next, deeds) {
            return Ok(shared);
        }
        let change = Change {
            shared,
            after: short(place)?,
        };
        if let Some(number) = self.changes.get(&change) {
            return Ok(*number);
        }
        let number = changed(alloc, &mut self.rows.shared, shared, node, next, deeds)?;
        self.changes.insert(change, number)?;
        Ok(number)
    }
}

// Whether what is shared changes.
fn changes(next: Next, deeds: &[Deed]) -> bool
    ensures { result ≡ (is_change next || list_any is_release deeds.now) }
{
    is_change(next) || deeds.iter().any(|deed| is_release(*deed))
}

// Whether a node changes it by what it does next.
fn is_change(next: Next) -> bool
    ensures { result ≡ is_change next }
{
    matches!(next, Next::Writes(..) | Next::Acquires(_))
}

fn is_release(deed: Deed) -> bool
    ensures { result ≡ is_release deed }
{
    matches!(deed, Deed::Release(_))
}

// The number of what is shared, changed.
fn changed(
    alloc: Global,
    all: &mut AllShared,
    shared: u32,
    node: usize,
    next: Next,
    deeds: &[Deed],
) -> Result<u32, AllocError>
    requires distinct { AreSharedDistinct all.old }
    requires fits { IsFitting all.old shared next }
    ensures distinct { OnOk result (AreSharedDistinct all.new) }
    ensures keeps { OnOk result (KeepsShared all.old all.new) }
    ensures there { IfOk result (λ number. (words : List ℕ) (holders : List (Option ℕ))
        → IsSharedAt all.old shared words holders
        → IsSharedAt all.new number (words_then next words)
        (freed deeds.now (holders_then node next holders))) }
{
    let mut holders = all.holders(alloc, shared)?;
    acquire(&mut holders, node, next);
    give_back(&mut holders, deeds);
    if let Next::Writes(word, value) = next {
        let number = all.written(shared, word as usize, value, holders)?;
        return Ok(number);
    }
    let number = all.held(shared, holders)?;
    Ok(number)
}

// A node takes the lock that it acquires next.
fn acquire(holders: &mut Vec<Option<usize>>, node: usize, next: Next)
    requires { (words : List ℕ) × Fits next words holders.old.items }
    ensures { holders.new.items ≡ holders_then node next holders.old.items }
{
    if let Next::Acquires(lock) = next {
        holders[lock as usize] = Some(node);
    }
}
