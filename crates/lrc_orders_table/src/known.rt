// What is known of threads: what each one does next.

ghost use Rattle.std.specs.Prelude.{◌≡◌, ◌≤◌, All, OnOk, length, map, take};
ghost use Rattle.lrc_exec.specs.Spots.{IsFlat};
ghost use Rattle.lrc_orders_table.specs.Nexts.{next_in};

use crate::next::{Next, next_of};
use crate::parts::thread_number;
use crate::rows::Row;
use crate::table::Table;
use lrc_exec::spot::{Flat, Spot};
use lrc_orders::noted::Noted;
use std::alloc::AllocError;

/// What the steps depend on: the code, the names that matter at each place, how many free acts of a thread are looked
/// at, and whether notes are kept.
#[derive(Clone, Copy)]
pub struct Means<'c> {
    pub flat: Flat<'c>,
    pub live: &'c [[bool; 32]],
    pub looked: u64,
    pub noting: bool,
}

impl Table {
    ghost use Rattle.std.specs.Prelude.{◌≡◌, ◌≤◌, All, IfOk, OnOk, Some, length, slice_get};
    ghost use Rattle.lrc_exec.specs.States.{IsStateOf};
    ghost use Rattle.lrc_orders.specs.declared.noted.Noted.{Noted as Key};
    ghost use Rattle.lrc_orders.specs.Kept.{IsAddedAt};
    ghost use Rattle.lrc_orders_settling.specs.Taking.{IsCounted};
    ghost use Rattle.lrc_orders_live.specs.Live.{forgot};
    ghost use Rattle.lrc_orders_table.specs.Links.{StandByNode};
    ghost use Rattle.lrc_orders_table.specs.Rows.{AreRowsDistinct, IsRowAt, StandsFor, WidensRows, row_count};
    ghost use Rattle.lrc_orders_table.specs.declared.known.Means.{Means as TheMeans};
    ghost use Rattle.lrc_orders_table.specs.Tables.{AreMeans, IsTable, KeepsRows};

    /// Adds the row of a state with its notes, if it is new. Returns its place, and whether it is new. Its dead values
    /// must be 0, and its notes stand node by node. It fails if memory runs out.
    pub fn add(&mut self, means: &Means<'_>, noted: Noted) -> Result<(usize, bool), AllocError>
        requires means { AreMeans means.now }
        requires table { IsTable means.now self.old }
        requires state { IsStateOf means.now.flat noted.state }
        requires counted { IsCounted noted.state }
        requires bare { All (λ spot. forgot means.now.live.now spot ≡ spot)
            noted.state.spots.items }
        requires notes { StandByNode means.now.flat.nodes noted.notes.items }
        ensures table { OnOk result (IsTable means.now self.new) }
        ensures widens { OnOk result (WidensRows self.old.rows self.new.rows) }
        ensures there { IfOk result (λ added. IsRowAt self.new.rows added.0 noted) }
        ensures added { IfOk result (λ added. IsAddedAt (row_count self.old.rows)
            (row_count self.new.rows) added.0 added.1) }
    {
        let (place, added) = self.rows.add(noted)?;
        complete(&mut self.nexts, &means.flat, self.rows.threads.as_slice())?;
        Ok((place, added))
    }

    /// Adds a row, if it is new. Returns its place, and whether it is new. It fails if memory runs out.
    pub fn put(&mut self, row: Row) -> Result<(usize, bool), AllocError>
        requires { AreRowsDistinct self.old.rows }
        ensures table { OnOk result ((means : TheMeans) → IsTable means self.old
            → IsTable means self.new) }
        ensures widens { OnOk result (WidensRows self.old.rows self.new.rows) }
        ensures has { IfOk result (λ added.
            slice_get self.new.rows.rows.keys added.0 ≡ Some row) }
        ensures there { IfOk result (λ added. (key : Key) → StandsFor self.old.rows row key
            → IsRowAt self.new.rows added.0 key) }
        ensures added { IfOk result (λ added. IsAddedAt (row_count self.old.rows)
            (row_count self.new.rows) added.0 added.1) }
    {
        let (place, added) = self.rows.put(row)?;
        Ok((place, added))
    }

    // Returns the number of a thread, which is added if it is new. Its dead values must be 0.
    pub(crate) fn number(&mut self, means: &Means<'_>, spot: Spot) -> Result<u32, AllocError>
        requires means { AreMeans means.now }
        requires table { IsTable means.now self.old }
        requires placed { spot.place ≤ length means.now.flat.code.now }
        requires bare { forgot means.now.live.now spot ≡ spot }
        ensures table { OnOk result (IsTable means.now self.new) }
        ensures keeps { OnOk result (KeepsRows self.old self.new) }
        ensures there { IfOk result (λ number.
            slice_get self.new.rows.threads.keys number ≡ Some spot) }
        ensures afters { self.new.afters ≡ self.old.afters }
    {
        let number = thread_number(&mut self.rows.threads, spot)?;
        complete(&mut self.nexts, &means.flat, self.rows.threads.as_slice())?;
        Ok(number)
    }
}

// Adds what the threads do next of which that is not known yet.
fn complete(nexts: &mut Vec<Next>, flat: &Flat, spots: &[Spot]) -> Result<(), AllocError>
    requires flat { IsFlat flat.now }
    requires placed { All (λ spot. spot.place ≤ length flat.now.code.now) spots.now }
    requires before { nexts.old.items
        ≡ map (next_in flat.now) (take (length nexts.old.items) spots.now) }
    ensures { OnOk result (nexts.new.items ≡ map (next_in flat.now) spots.now) }
{
    for place in nexts.len()..spots.len() {
        nexts.push(next_of(flat, &spots[place]))?;
    }
    Ok(())
}
