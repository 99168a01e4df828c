// The pairs of locations that race.
ghost use Rattle.std.specs.Prelude.{◌≡◌, ℕ, ◌+◌, ◌<◌, ◌↔◌, [], List, AllPairs, IsTrue, OnOk, length};
ghost use Rattle.lrc_races_trace.specs.declared.event.Event.{Event as AnyEvent};
ghost use Rattle.lrc_races_trace.specs.Trace.{Accesses, At};
ghost use Rattle.lrc_races_detector.specs.Vectors.{entries};
ghost use Rattle.lrc_races_text.specs.declared.asked.Sought.{Sought as AnySought};
ghost use Rattle.lrc_races_locations.specs.Rivals.{IsBehind};
ghost use Rattle.lrc_races_locations.specs.Located.{AreShown};
ghost use Rattle.lrc_races_locations.specs.Finding.{IsRival, IsOffered, IsConsidered, AreFoundFrom, HasShown};

use crate::spots::{is_write, note, row_of, side_of};
use indexmap::IndexSet;
use lrc_races_detector::groups::Sides;
use lrc_races_detector::vectors::Known;
use lrc_races_trace::event::{Operation, Pair, Placed};
use std::alloc::{AllocError, Global};

/// What is kept of a trace so far: of each variable the last accesses, and the pairs of locations that race.
#[derive(Drop)]
pub struct Locator {
    spots: Vec<Vec<Placed>>,
    // The locations and kinds of the pairs.
    sides: IndexSet<Sides>,
    pairs: Vec<Pair>,
}

// Whether an access races with a later one of its variable, if `known` is what comes before that.
fn is_rival(known: Known<'_>, later: Placed, earlier: Placed) -> bool
    ensures { IsTrue result ↔ IsRival (entries known.entry) later earlier }
{
    let thread = earlier.event.thread;
    if thread == later.event.thread {
        return false;
    }
    if !is_write(earlier.event.operation) && !is_write(later.event.operation) {
        return false;
    }
    known.of(thread) <= earlier.position
}

// Puts a pair before those that are found, if its locations and kinds are new.
fn offer(sides: &mut IndexSet<Sides>, found: &mut Vec<Pair>, pair: Pair) -> Result<(), AllocError>
    ensures { OnOk result (IsOffered pair sides.old.keys sides.new.keys found.old.items
        found.new.items) }
{
    let both = Sides {
        earlier: side_of(pair.earlier.event),
        later: side_of(pair.later.event),
    };
    if let Some((_place, _met)) = sides.get_full(&both) {
        return Ok(());
    }
    found.insert(0, pair)?;
    sides.insert(both)?;
    Ok(())
}

// Does so with the pair of an access and an earlier one, if they race.
fn consider(
    sides: &mut IndexSet<Sides>,
    found: &mut Vec<Pair>,
    known: Known<'_>,
    later: Placed,
    earlier: Placed,
) -> Result<(), AllocError>
    ensures { OnOk result (IsConsidered (entries known.entry) later earlier sides.old.keys sides.new.keys
        found.old.items found.new.items) }
{
    if !is_rival(known, later, earlier) {
        return Ok(());
    }
    offer(sides, found, Pair { earlier, later })?;
    Ok(())
}

// Finds the pairs of an access with those of a row that race with it, if their locations and kinds are new.
fn find(
    sides: &mut IndexSet<Sides>,
    found: &mut Vec<Pair>,
    row: &[Placed],
    known: Known<'_>,
    later: Placed,
) -> Result<(), AllocError>
    requires { found.old.items ≡ [] }
    ensures { OnOk result (AllPairs (λ p q. p.position < q.position) row.now
        → AreFoundFrom 0 row.now (entries known.entry) later sides.old.keys sides.new.keys found.new.items) }
{
    for place in (0..row.len()).rev() {
        let earlier = row[place];
        consider(sides, found, known, later, earlier)?;
    }
    Ok(())
}

impl Locator {
    /// Returns the locator before any event. It allocates nothing.
    pub fn new(alloc: Global) -> Locator
        ensures { (sought : AnySought) (events : List AnyEvent) → HasShown sought events 0 result }
    {
        Locator {
            spots: Vec::new(alloc),
            sides: IndexSet::new(alloc),
            pairs: Vec::new(alloc),
        }
    }

    // Takes an access of a variable.
    fn access(&mut self, known: Known<'_>, variable: u32, placed: Placed) -> Result<(), AllocError>
        ensures { OnOk result ((sought : AnySought) (events : List AnyEvent)
            → At events placed.position placed.event → Accesses placed.event variable
            → IsBehind sought events placed.position (entries known.entry)
            → HasShown sought events placed.position self.old
            → HasShown sought events (placed.position + 1) self.new) }
    {
        let alloc = *self.pairs.allocator();
        let mut found = Vec::new(alloc);
        let row = row_of(self.spots.as_slice(), variable as usize);
        find(&mut self.sides, &mut found, row, known, placed)?;
        self.pairs.extend_from_slice(found.as_slice())?;
        note(&mut self.spots, variable, placed)?;
        Ok(())
    }

    /// Takes the next event of a trace; `known` has what comes before it, if it is an access. It fails if memory runs
    /// out, and then the locator is of no use.
    pub fn take(&mut self, known: Known<'_>, placed: Placed) -> Result<(), AllocError>
        ensures { OnOk result ((sought : AnySought) (events : List AnyEvent)
            → At events placed.position placed.event
            → ((variable : ℕ) → Accesses placed.event variable
            → IsBehind sought events placed.position (entries known.entry))
            → HasShown sought events placed.position self.old
            → HasShown sought events (placed.position + 1) self.new) }
    {
        match placed.event.operation {
            Operation::Read(variable) | Operation::Write(variable) => {
                self.access(known, variable, placed)?;
                Ok(())
            }
            _ => Ok(()),
        }
    }

    /// Returns the pairs of locations of the trace that race, each by the pair of accesses that shows it, in order.
    pub fn pairs(&self) -> &[Pair]
        ensures { (sought : AnySought) (events : List AnyEvent)
            → HasShown sought events (length events) self.now
            → AreShown sought events result.now }
    {
        self.pairs.as_slice()
    }
}
