// Steps from a row. What was worked out before is known.

ghost use Rattle.std.specs.Prelude.{◌≡◌, ◌||◌};

use crate::known::Means;
use crate::next::{Next, Settled, has_trap_deed, settled_after};
use crate::rows::Row;
use crate::table::{After, Asked, Led, Table};
use lrc_orders::search::ExploreFault;
use lrc_orders_live::forget_spot;
use std::alloc::{AllocError, Global};

// Whether a node has trapped, one before or this one.
fn either(before: bool, here: bool) -> bool
    ensures { result ≡ (before || here) }
{
    before || here
}

impl Table {
    ghost use Rattle.std.specs.Prelude.{◌≡◌, ℕ, ◌<◌, IfErr, IfOk, List, MatchOption, None, OnOk, Option, Some, false, length, slice_get, true};
    ghost use Rattle.lrc_orders.specs.declared.noted.Noted.{Noted as Key};
    ghost use Rattle.lrc_orders_settling.specs.declared.step.Step.TheVariants.{Alone, Together};
    ghost use Rattle.lrc_orders_settling.specs.Gone.{acts_by};
    ghost use Rattle.lrc_orders_memory.specs.Sharing.{IsSharedAt};
    ghost use Rattle.lrc_orders_table.specs.Links.{AreNotesAt, AreNotesSound, GrowNotes, HaveNotes};
    ghost use Rattle.lrc_trace.specs.declared.act.Act.{Act as ActType};
    ghost use Rattle.lrc_orders_table.specs.Nexts.{notes_on};
    ghost use Rattle.lrc_orders_table.specs.declared.table.After.{After as TheAfter};
    ghost use Rattle.lrc_orders_table.specs.declared.table.Asked.{Asked as TheAsked};
    ghost use Rattle.lrc_orders_table.specs.Shared.{given};
    ghost use Rattle.indexmap.specs.IndexMap.{get};
    ghost use Rattle.lrc_orders_table.specs.contracts.table.AskedPartialEq.TheImpl.{eq-value as asked_eq};
    ghost use Rattle.lrc_orders_table.specs.Tables.{AreMeans, CannotTakeFrom, IsKnown, IsLongFault, IsRowOf, IsTable, IsTakenFrom, IsTakenFromSome, KeepsIfLong, KeepsRows, LeadsToRow, next_at};
    ghost use Rattle.lrc_orders_table.specs.Going.{CanGo, HasAfter, HasGone, IsAskable, IsAskedSettled, IsLongAct, IsLongAsk};

    /// Returns the row that the step of one node leads to, and whether the node traps in it, or none if the node cannot
    /// take one. It fails if memory runs out, or if a thread makes as many free acts as are looked at: then the rows
    /// stay as they are.
    pub fn alone(
        &mut self,
        alloc: Global,
        means: &Means<'_>,
        row: &Row,
        node: usize,
    ) -> Result<Option<Led>, ExploreFault>
        requires means { AreMeans means.now }
        requires table { IsTable means.now self.old }
        requires from { IsTakenFromSome means.now self.old row.now }
        requires node { node < self.old.rows.nodes }
        ensures table { OnOk result (IsTable means.now self.new) }
        ensures keeps { OnOk result (KeepsRows self.old self.new) }
        ensures taken { IfOk result (λ taken. (key : Key)
            → IsTakenFrom means.now self.old row.now key
            → MatchOption taken (CannotTakeFrom means.now key (Alone node))
            (LeadsToRow means.now self.new key (Alone node))) }
        ensures faults { IfErr result (λ fault. (key : Key)
            → IsTakenFrom means.now self.old row.now key → IsLongFault means.now key fault) }
        ensures long { IfErr result (KeepsIfLong means.now self.old self.new) }
    {
        let Some(value) = self.given(row, node) else {
            return Ok(None);
        };
        let led = self.gone(alloc, means, row, node, value)?;
        Ok(Some(led))
    }

    // The value that a node's read, write or acquire gives, if it makes one of these next and can.
    fn given(&self, row: &Row, node: usize) -> Option<u64>
        requires row { IsKnown self.now row.now }
        requires node { node < self.now.rows.nodes }
        ensures { (words : List ℕ) (holders : List (Option ℕ))
            → IsSharedAt self.now.rows.shared row.now.shared words holders
            → result ≡ given (next_at self.now row.now node) words holders }
    {
        match self.next(row, node) {
            Next::Reads(word) => Some(self.rows.shared.word(row.shared, word as usize)),
            Next::Writes(..) => Some(0),
            Next::Acquires(lock) if self.rows.shared.is_free(row.shared, lock as usize) => Some(0),
            _ => None,
        }
    }

    /// Returns the row that the step of all nodes leads to, and whether one of them traps in it, or none if they cannot
    /// take one. It fails if memory runs out, or if a thread makes as many free acts as are looked at: then the rows
    /// stay as they are.
    pub fn together(
        &mut self,
        alloc: Global,
        means: &Means<'_>,
        row: &Row,
    ) -> Result<Option<Led>, ExploreFault>
        requires means { AreMeans means.now }
        requires table { IsTable means.now self.old }
        requires from { IsTakenFromSome means.now self.old row.now }
        ensures table { OnOk result (IsTable means.now self.new) }
        ensures keeps { OnOk result (KeepsRows self.old self.new) }
        ensures taken { IfOk result (λ taken. (key : Key)
            → IsTakenFrom means.now self.old row.now key
            → MatchOption taken (CannotTakeFrom means.now key Together)
            (LeadsToRow means.now self.new key Together)) }
        ensures faults { IfErr result (λ fault. (key : Key)
            → IsTakenFrom means.now self.old row.now key → IsLongFault means.now key fault) }
        ensures long { IfErr result (KeepsIfLong means.now self.old self.new) }
    {
        if !self.all_wait(row) {
            return Ok(None);
        }
        let mut new = *row;
        let mut traps = false;
        for node in 0..self.rows.nodes {
            let led = self.gone(alloc, means, &new, node, 0)?;
            new = led.row;
            traps = either(traps, led.traps);
        }
        Ok(Some(Led { row: new, traps }))
    }

    // The row after a node's next act, which gives this value, once the node has settled, and whether it then trapped.
    fn gone(
        &mut self,
        alloc: Global,
        means: &Means<'_>,
        row: &Row,
        node: usize,
        value: u64,
    ) -> Result<Led, ExploreFault>
        requires means { AreMeans means.now }
        requires table { IsTable means.now self.old }
        requires row { CanGo means.now self.old row.now node }
        ensures table { OnOk result (IsTable means.now self.new) }
        ensures keeps { OnOk result (KeepsRows self.old self.new) }
        ensures gone { IfOk result (λ led. (key : Key) → IsRowOf means.now self.old row.now key
            → HasGone means.now key node value self.new led) }
        ensures faults { IfErr result (λ fault. (key : Key)
            → IsRowOf means.now self.old row.now key
            → IsLongAct means.now key node value fault) }
        ensures long { IfErr result (KeepsIfLong means.now self.old self.new) }
    {
        let next = self.next(row, node);
        let asked = Asked {
            thread: row.threads[node],
            value,
        };
        let place = self.after(alloc, means, asked)?;
        let shared = self.shared_after(alloc, row.shared, node, next, place)?;
        let notes = self.notes(means.noting, row.notes, node, place)?;
        let mut threads = row.threads;
        let after = &self.afters[place];
        threads[node] = after.thread;
        let row = Row {
            threads,
            shared,
            notes,
        };
        Ok(Led {
            row,
            traps: after.traps,
        })
    }

    // The number of the notes after what comes of a thread of a node, if notes are kept.
    fn notes(
        &mut self,
        noting: bool,
        notes: u32,
        node: usize,
        place: usize,
    ) -> Result<u32, AllocError>
        requires sound { AreNotesSound self.old.rows.notes }
        requires there { HaveNotes self.old.rows.notes notes }
        requires node { node < 16 }
        requires place { place < length self.old.afters.entries }
        ensures sound { OnOk result (AreNotesSound self.new.rows.notes) }
        ensures grows { OnOk result (GrowNotes self.old.rows.notes self.new.rows.notes) }
        ensures noted { IfOk result (λ number. noting ≡ true → (acts : List ActType)
            (asked : TheAsked) (after : TheAfter) → AreNotesAt self.old.rows.notes notes acts
            → slice_get self.old.afters.entries place ≡ Some (asked, after)
            → AreNotesAt self.new.rows.notes number
            (notes_on acts (acts_by node after.deeds.items))) }
        ensures bare { IfOk result (λ number. noting ≡ false → number ≡ notes) }
        ensures others { self.new ≡ record self.old {
          rows = record self.old.rows
              { notes = self.new.rows.notes };
        } }
    {
        if !noting {
            return Ok(notes);
        }
        let deeds = &self.afters[place].deeds;
        let number = self.rows.notes.after(notes, node as u8, deeds)?;
        Ok(number)
    }

    // The place of what comes of a thread.
    fn after(
        &mut self,
        alloc: Global,
        means: &Means<'_>,
        asked: Asked,
    ) -> Result<usize, ExploreFault>
        requires means { AreMeans means.now }
        requires table { IsTable means.now self.old }
        requires asked { IsAskable means.now self.old asked }
        ensures table { OnOk result (IsTable means.now self.new) }
        ensures keeps { OnOk result (KeepsRows self.old self.new) }
        ensures there { IfOk result (HasAfter self.new asked) }
        ensures faults { IfErr result (IsLongAsk means.now self.old asked) }
        ensures long { IfErr result (KeepsIfLong means.now self.old self.new) }
    {
        if let Some(place) = self.afters.get_index_of(&asked) {
            return Ok(place);
        }
        let spot = self.rows.threads[asked.thread as usize];
        let settled = settled_after(alloc, &means.flat, &spot, asked.value, means.looked)?;
        let Some(settled) = settled else {
            return Err(ExploreFault::TooMany);
        };
        Ok(self.keep_after(means, asked, settled)?)
    }

    // Keeps what comes of a thread: its place.
    fn keep_after(
        &mut self,
        means: &Means<'_>,
        asked: Asked,
        settled: Settled,
    ) -> Result<usize, AllocError>
        requires means { AreMeans means.now }
        requires table { IsTable means.now self.old }
        requires absent { get asked_eq.it self.old.afters asked ≡ None }
        requires settled { IsAskedSettled means.now self.old asked settled }
        ensures table { OnOk result (IsTable means.now self.new) }
        ensures keeps { OnOk result (KeepsRows self.old self.new) }
        ensures there { IfOk result (HasAfter self.new asked) }
    {
        let mut spot = settled.spot;
        forget_spot(means.live, &mut spot);
        let thread = self.number(means, spot)?;
        let place = self.afters.len();
        let traps = has_trap_deed(&settled.deeds);
        let after = After {
            thread,
            deeds: settled.deeds,
            traps,
        };
        self.afters.insert(asked, after)?;
        Ok(place)
    }
}
