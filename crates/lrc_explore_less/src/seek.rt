// The search, from the settled start through all states from which every step is taken.

ghost use Rattle.std.specs.Prelude.{◌≡◌, OnOk};
ghost use Rattle.lrc_orders.specs.Kept.{Grows};
ghost use Rattle.lrc_orders.specs.Outcome.{HasOutcome};
ghost use Rattle.lrc_explore.specs.Answers.{AddsOnly, first_stuck};

use crate::less::{Less, most_rows};
use indexmap::IndexSet;
use lrc_explore::task::{End, Sought, Task};
use lrc_orders::outcomes::Outcome;
use lrc_orders::search::ExploreFault;
use lrc_orders_table::rows::Row;
use lrc_trace::act::Act;
use std::alloc::{AllocError, Global};

/// What a visit to a state saw: two nodes that meet; or whether the program is stuck there; or that some node computes
/// too long.
#[derive(Clone, Copy)]
pub enum Visit {
    Meeting(usize, usize),
    Past { stuck: bool },
    Cut,
}

// The first state at which the program is stuck, where that at this place is next.
fn first_stuck(stuck: Option<usize>, halts: bool, place: usize) -> Option<usize>
    ensures { result ≡ first_stuck stuck halts place }
{
    match stuck {
        Some(first) => Some(first),
        None => { if halts { Some(place) } else { None } }
    }
}

// One outcome more, if it is new.
fn keep(outcomes: &mut IndexSet<Outcome>, notes: Vec<Act>) -> Result<(), AllocError>
    ensures grows { OnOk result (Grows outcomes.old.keys outcomes.new.keys) }
    ensures has { OnOk result (HasOutcome outcomes.new.keys notes.items) }
    ensures only { OnOk result (AddsOnly outcomes.old.keys outcomes.new.keys notes.items) }
{
    outcomes.insert_full(Outcome { notes })?;
    Ok(())
}

impl Less {
    ghost use Rattle.std.specs.Prelude.{◌≡◌, ◌<◌, ◌≤◌, IfErr, IfOk, MatchOption, OnOk, [], false, length, true};
    ghost use Rattle.lrc_exec.specs.States.{plain_at};
    ghost use Rattle.lrc_orders.specs.declared.noted.Noted.{Noted as Key};
    ghost use Rattle.lrc_orders.specs.Kept.{Grows};
    ghost use Rattle.lrc_orders.specs.Meeting.{IsCalm, Meet};
    ghost use Rattle.lrc_orders_table.specs.declared.known.Means.{Means as TheMeans};
    ghost use Rattle.lrc_orders_table.specs.Rows.{row_count};
    ghost use Rattle.lrc_orders_table.specs.Tables.{IsKnown, IsRowOf, IsTable};
    ghost use Rattle.lrc_explore.specs.Answers.{AreSound, IsFault, IsSearchFault};
    ghost use Rattle.lrc_explore.specs.Cut.{IsCut};
    ghost use Rattle.lrc_explore.specs.Reached.{AreCalm, AreFound, IsTask};
    ghost use Rattle.lrc_explore_less.specs.Passing.{AreLess, IsNone, IsSound, Widens};
    ghost use Rattle.lrc_explore_less.specs.Enough.{HasBegun, IsEnd, IsVisit};
    ghost use Rattle.lrc_explore_less.specs.Met.{IsSought};
    ghost use Rattle.lrc_explore_less.specs.Outcomes.{AreGathered, IsGatheredAt};

    /// Searches as `seek` does, from the settled start on. There must be no states yet. It fails if memory runs out, or
    /// if a node makes so many free acts as the start settles.
    pub fn search(
        &mut self,
        alloc: Global,
        task: &Task<'_>,
        races: bool,
    ) -> Result<Sought, ExploreFault>
        requires task { IsTask task.now }
        requires none { IsNone task.now self.old }
        ensures less { OnOk result (AreLess task.now self.new) }
        ensures begun { OnOk result (HasBegun task.now self.new) }
        ensures sought { IfOk result (IsSought task.now self.new races) }
        ensures faults { IfErr result (IsFault task.now) }
    {
        let passes = self.begin(alloc, task)?;
        if passes {
            self.seek(alloc, task, races)
        } else {
            Ok(self.end_of_all(task, races))
        }
    }

    /// Looks for a state where two nodes meet, if `races` is true. If there is none, enough states are found, and the
    /// answer tells the first of them at which the program is stuck, if any, and where a node traps first, if one does.
    /// Where there are too many states, or a node makes so many free acts that the limit is reached, no two nodes meet
    /// at any of the states that were found, if `races` is true, and the answer tells the first of them at which the
    /// program is stuck, and where a node traps on the way to them. It fails if memory runs out.
    pub fn seek(
        &mut self,
        alloc: Global,
        task: &Task<'_>,
        races: bool,
    ) -> Result<Sought, ExploreFault>
        requires task { IsTask task.now }
        requires less { AreLess task.now self.old }
        requires begun { HasBegun task.now self.old }
        ensures less { OnOk result (AreLess task.now self.new) }
        ensures begun { OnOk result (HasBegun task.now self.new) }
        ensures sought { IfOk result (IsSought task.now self.new races) }
        ensures faults { IfErr result (λ fault. fault ≡ ExploreFault.NoMemory) }
    {
        let mut stuck = None;
        let mut index = 0;
        while index < self.opens.len() {
            let many = self.are_too_many(task);
            if many {
                return Ok(self.end_of_all(task, races));
            }
            let place = self.opens[index];
            match self.visit(alloc, task, place, races)? {
                Visit::Meeting(p, q) => return Ok(Sought::Ended(End::Meeting { place, p, q })),
                Visit::Past { stuck: halts } => stuck = first_stuck(stuck, halts, place),
                Visit::Cut => return Ok(self.end_of_all(task, races)),
            }
            index += 1;
        }
        Ok(Sought::Ended(End::Through {
            stuck,
            trap: self.trap,
        }))
    }

    // Whether there are more states than may be: those from which every step is taken, or all that are kept.
    fn are_too_many(&self, task: &Task<'_>) -> bool
        requires few { length self.now.opens.items ≤ row_count self.now.found.table.rows }
        ensures many { result ≡ true → task.now.most < row_count self.now.found.table.rows }
        ensures fits { result ≡ false → length self.now.opens.items ≤ task.now.most }
    {
        self.opens.len() > task.most || self.found.table.rows.len() > most_rows(task)
    }

    // Where a search ends that is cut short: at the first state found where two nodes meet, if that is looked for; or
    // with what it met.
    fn end_of_all(&self, task: &Task<'_>, races: bool) -> Sought
        requires sound { IsSound task.now self.now }
        requires cut { IsCut task.now self.now.found.table.rows }
        ensures { IsSought task.now self.now races result }
    {
        match self.meeting_of_all(task, races) {
            Some(end) => Sought::Ended(end),
            None => {
                let stuck = self.found.stuck_of_all(task);
                Sought::Many {
                    stuck,
                    trap: self.trap,
                }
            }
        }
    }

    // The first of all states where two nodes meet, if that is looked for.
    fn meeting_of_all(&self, task: &Task<'_>, races: bool) -> Option<End>
        requires found { AreFound task.now self.now.found }
        ensures { MatchOption result (races ≡ true → AreCalm task.now self.now.found.table.rows
            (row_count self.now.found.table.rows)) (IsEnd task.now self.now races) }
    {
        let _most = task.most;
        for place in 0..self.found.table.rows.len() {
            let row = self.found.table.rows.row(place);
            if let Some((p, q)) = self.meeting(&row, races) {
                return Some(End::Meeting { place, p, q });
            }
        }
        None
    }

    // Looks at a state, and finds those to which steps lead from it, but where two nodes meet there and that is looked for.
    fn visit(
        &mut self,
        alloc: Global,
        task: &Task<'_>,
        place: usize,
        races: bool,
    ) -> Result<Visit, ExploreFault>
        requires task { IsTask task.now }
        requires less { AreLess task.now self.old }
        requires within { place < row_count self.old.found.table.rows }
        ensures less { OnOk result (AreLess task.now self.new) }
        ensures widens { OnOk result (Widens self.old self.new) }
        ensures visit { IfOk result (IsVisit task.now self.new place races) }
        ensures faults { IfErr result (λ fault. fault ≡ ExploreFault.NoMemory) }
    {
        let row = self.found.table.rows.row(place);
        if let Some((p, q)) = self.meeting(&row, races) {
            return Ok(Visit::Meeting(p, q));
        }
        let stuck = self.found.table.is_stuck(&row);
        match self.expand(alloc, task, place) {
            Ok(()) => Ok(Visit::Past { stuck }),
            Err(ExploreFault::TooMany) => Ok(Visit::Cut),
            // The only other fault of a step.
            Err(_) => Err(ExploreFault::NoMemory),
        }
    }

    // The least two nodes that meet, if that is looked for.
    fn meeting(&self, row: &Row, races: bool) -> Option<(usize, usize)>
        requires { IsKnown self.now.found.table row.now }
        ensures { (means : TheMeans) (key : Key) → IsTable means self.now.found.table
            → IsRowOf means self.now.found.table row.now key
            → MatchOption result (races ≡ true → IsCalm (plain_at means.flat key.state))
            (λ pair. (races ≡ true) × Meet (plain_at means.flat key.state) pair.0 pair.1) }
    {
        if races {
            self.found.table.meeting(row)
        } else {
            None
        }
    }

    /// Finds enough states, and collects the outcomes of those at which no node can make an act.
    pub fn gather(
        &mut self,
        alloc: Global,
        task: &Task<'_>,
        outcomes: &mut IndexSet<Outcome>,
    ) -> Result<(), ExploreFault>
        requires task { IsTask task.now }
        requires less { AreLess task.now self.old }
        requires begun { HasBegun task.now self.old }
        requires none { outcomes.old.keys ≡ [] }
        ensures less { OnOk result (AreLess task.now self.new) }
        ensures begun { OnOk result (HasBegun task.now self.new) }
        ensures sound { OnOk result (AreSound task.now outcomes.new.keys) }
        ensures done { OnOk result (AreGathered task.now self.new outcomes.new.keys
            (length self.new.opens.items)) }
        ensures faults { IfErr result (IsSearchFault task.now false) }
    {
        let mut index = 0;
        while index < self.opens.len() {
            let many = self.are_too_many(task);
            if many {
                return Err(ExploreFault::TooMany);
            }
            let place = self.opens[index];
            self.take_outcome(alloc, task, place, outcomes)?;
            self.expand(alloc, task, place)?;
            index += 1;
        }
        Ok(())
    }

    // Takes the outcome of a state, where no node can make an act.
    fn take_outcome(
        &self,
        alloc: Global,
        task: &Task<'_>,
        place: usize,
        outcomes: &mut IndexSet<Outcome>,
    ) -> Result<(), AllocError>
        requires less { AreLess task.now self.now }
        requires within { place < row_count self.now.found.table.rows }
        requires sound { AreSound task.now outcomes.old.keys }
        ensures grows { OnOk result (Grows outcomes.old.keys outcomes.new.keys) }
        ensures sound { OnOk result (AreSound task.now outcomes.new.keys) }
        ensures done { OnOk result (IsGatheredAt task.now self.now.found.table.rows outcomes.new.keys place) }
    {
        let _most = task.most;
        let row = self.found.table.rows.row(place);
        let still = self.found.table.is_still(&row);
        if still {
            let key = self.found.table.rows.noted(alloc, place)?;
            keep(outcomes, key.notes)?;
        }
        Ok(())
    }
}
