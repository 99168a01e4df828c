// The last accesses of variables.
ghost use Rattle.std.specs.Prelude.{◌≡◌, ℕ, ◌<◌, [], ◌++◌, OnOk, false, length, slice_get};
ghost use Rattle.std.specs.Bool.{OnFalse};
ghost use Rattle.lrc_races_detector.specs.Placed.{row_in};
ghost use Rattle.lrc_races_detector.specs.Variables.{lasts_of, noted, told_at, told_one, told_below, IsNoted};
ghost use Rattle.lrc_races_detector.specs.Vectors.{entries};
ghost use Rattle.lrc_races_detector.specs.Written.{any_written};

use crate::accesses::Accesses;
use crate::places::Place;
use crate::vectors::Known;
use lrc_races_trace::event::{Pair, Placed};
use std::alloc::{AllocError, Global};

/// The last access of a variable by one thread, and that thread's last write.
#[derive(Clone, Copy)]
pub struct Last {
    pub access: Placed,
    pub write: Option<Placed>,
}

// The pair of an access with the last one of a thread, where that thread is another and the access does not know of it.
fn told_one(last: &Last, known: Known<'_>, later: Placed, is_write: bool) -> Option<Pair>
    ensures { result ≡ told_one last.now (entries known.entry) later is_write }
{
    let thread = last.access.event.thread;
    if thread == later.event.thread {
        return None;
    }
    let found = if is_write {
        Some(last.access)
    } else {
        last.write
    };
    let earlier = found?;
    if earlier.position < known.of(thread) {
        return None;
    }
    Some(Pair { earlier, later })
}

// The pair with the last access that stands at a place.
fn told_at(
    lasts: &[Last],
    place: Place,
    known: Known<'_>,
    later: Placed,
    is_write: bool,
) -> Option<Pair>
    ensures { result ≡ told_at (slice_get lasts.now place.index) (entries known.entry) later is_write }
{
    match lasts.get(place.index as usize) {
        Some(last) => told_one(last, known, later, is_write),
        None => None,
    }
}

// Adds to `told` the pairs of an access with these last accesses of its variable, in this order, if `known` is what the
// access's thread knows. It fails if memory runs out.
fn tell_all(
    lasts: &[Last],
    order: &[Place],
    known: Known<'_>,
    later: Placed,
    is_write: bool,
    told: &mut Vec<Pair>,
) -> Result<(), AllocError>
    ensures { OnOk result (told.new.items ≡ told.old.items
        ++ told_below (row_in lasts.now order.now) (entries known.entry) later is_write
        (length (row_in lasts.now order.now))) }
{
    for place in order {
        if let Some(pair) = told_at(lasts, *place, known, later, is_write) {
            told.push(pair)?;
        }
    }
    Ok(())
}

/// The entry of a thread, with an access more.
pub(crate) fn noted(old: Option<Last>, placed: Placed, is_write: bool) -> Last
    ensures { result ≡ noted old placed is_write }
{
    let write = if is_write {
        Some(placed)
    } else {
        match old {
            Some(last) => last.write,
            None => None,
        }
    };
    Last {
        access: placed,
        write,
    }
}

/// All variables.
#[derive(Drop)]
pub struct Variables {
    rows: Vec<Accesses>,
}

impl Variables {
    /// Returns the variables before any access.
    pub fn new(alloc: Global) -> Variables
        ensures { result.rows.items ≡ [] }
    {
        Variables {
            rows: Vec::new(alloc),
        }
    }

    // Whether a thread may have written the variable.
    fn is_written(&self, variable: usize) -> bool
        ensures { OnFalse result (any_written (lasts_of self.now variable) ≡ false) }
    {
        match self.rows.get(variable) {
            Some(row) => row.written,
            None => false,
        }
    }

    // Adds to `told` the pairs of an access with the last accesses of the variable.
    fn tell_row(
        &self,
        variable: usize,
        known: Known<'_>,
        later: Placed,
        is_write: bool,
        told: &mut Vec<Pair>,
    ) -> Result<(), AllocError>
        ensures { OnOk result (told.new.items
            ≡ told.old.items ++ told_below (lasts_of self.now variable) (entries known.entry) later
            is_write (length (lasts_of self.now variable))) }
    {
        match self.rows.get(variable) {
            Some(row) => {
                let lasts = row.lasts.as_slice();
                tell_all(lasts, row.order.as_slice(), known, later, is_write, told)
            }
            None => Ok(()),
        }
    }

    /// Adds to `told` the pairs of an access with the last accesses of the variable, if `known` is what the access's
    /// thread knows. A read looks at a variable only if it was written. It fails if memory runs out.
    pub fn tell(
        &self,
        variable: usize,
        known: Known<'_>,
        later: Placed,
        is_write: bool,
        told: &mut Vec<Pair>,
    ) -> Result<(), AllocError>
        ensures { OnOk result (told.new.items
            ≡ told.old.items ++ told_below (lasts_of self.now variable) (entries known.entry) later
            is_write (length (lasts_of self.now variable))) }
    {
        if is_write || self.is_written(variable) {
            return self.tell_row(variable, known, later, is_write, told);
        }
        Ok(())
    }

    // Makes a row for the variable, where there is none.
    fn reach(&mut self, variable: usize) -> Result<(), AllocError>
        ensures { OnOk result ((variable < length self.new.rows.items)
            × ((other : ℕ) → lasts_of self.new other ≡ lasts_of self.old other)) }
    {
        let alloc = *self.rows.allocator();
        while self.rows.len() <= variable {
            self.rows.push(Accesses::new(alloc))?;
        }
        Ok(())
    }

    /// Records an access of the variable. It fails if memory runs out.
    pub fn note(
        &mut self,
        variable: usize,
        placed: Placed,
        is_write: bool,
    ) -> Result<(), AllocError>
        ensures { OnOk result (IsNoted self.old self.new variable placed is_write) }
    {
        self.reach(variable)?;
        self.rows[variable].note(placed, is_write)?;
        Ok(())
    }
}
