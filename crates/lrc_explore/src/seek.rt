// The search, from the settled start through all states.

ghost use Rattle.std.specs.Prelude.{◌≡◌, MatchResult, OnOk};
ghost use Rattle.lrc_orders.specs.Kept.{Grows};
ghost use Rattle.lrc_orders.specs.Outcome.{HasOutcome};
ghost use Rattle.lrc_explore.specs.Answers.{AddsOnly, first_stuck};
ghost use Rattle.lrc_explore.specs.Cut.{trap_among};
ghost use Rattle.lrc_explore.specs.declared.task.Steps.TheVariants.{All, Cut};
ghost use Rattle.lrc_explore.specs.Traps.{first_trap, start_trap};

use crate::task::{End, Found, Origin, Sought, Steps, Task, Trapping, Visit};
use indexmap::IndexSet;
use lrc_orders::outcomes::Outcome;
use lrc_orders::search::ExploreFault;
use lrc_orders_settling::step::Step;
use lrc_orders_table::rows::Row;
use lrc_trace::act::Act;
use std::alloc::{AllocError, Global};

// Where a node traps first, if it does as the start settles.
fn start_trap(start: bool) -> Option<Trapping>
    ensures { result ≡ start_trap start }
{
    if start { Some(Trapping::Start) } else { None }
}

// The first state at which the program is stuck, where that at this place is next.
fn first_stuck(stuck: Option<usize>, halts: bool, place: usize) -> Option<usize>
    ensures { result ≡ first_stuck stuck halts place }
{
    match stuck {
        Some(first) => Some(first),
        None => { if halts { Some(place) } else { None } }
    }
}

// Where a node traps first, where this step from the state at this place is next, if there is one.
fn first_trap(trap: Option<Trapping>, step: Option<Step>, place: usize) -> Option<Trapping>
    ensures { result ≡ first_trap trap step place }
{
    match trap {
        Some(first) => Some(first),
        None => match step {
            Some(step) => Some(Trapping::Step(Origin {
                parent: place,
                step,
            })),
            None => None,
        },
    }
}

// One outcome more, if it is new.
fn keep(outcomes: &mut IndexSet<Outcome>, notes: Vec<Act>) -> Result<(), AllocError>
    ensures grows { OnOk result (Grows outcomes.old.keys outcomes.new.keys) }
    ensures has { OnOk result (HasOutcome outcomes.new.keys notes.items) }
    ensures only { OnOk result (AddsOnly outcomes.old.keys outcomes.new.keys notes.items) }
{
    outcomes.insert_full(Outcome { notes })?;
    Ok(())
}

// Says no where some node computes too long.
fn or_too_long(steps: &Steps) -> Result<(), ExploreFault>
    ensures { MatchResult result (λ _. steps.now ≡ All (trap_among steps.now))
        (λ fault. (fault ≡ ExploreFault.TooMany) × (steps.now ≡ Cut (trap_among steps.now))) }
{
    match steps {
        Steps::All(_) => Ok(()),
        Steps::Cut(_) => Err(ExploreFault::TooMany),
    }
}

impl Found {
    ghost use Rattle.std.specs.Prelude.{◌≡◌, ◌<◌, ◌≤◌, IfOk, IfErr, OnOk, MatchOption, [], true, false};
    ghost use Rattle.lrc_orders_table.specs.Rows.{row_count, WidensRows};
    ghost use Rattle.lrc_orders.specs.Kept.{Grows};
    ghost use Rattle.lrc_explore.specs.Reached.{AreCalm, AreExpanded, AreFound, IsExpandedAt, IsMore, IsTask};
    ghost use Rattle.lrc_explore.specs.Answers.{AreGathered, AreSound, IsFault, IsGatheredAt, IsSearchFault, IsVisit, MeetAt};
    ghost use Rattle.lrc_explore.specs.Cut.{IsCut};
    ghost use Rattle.lrc_explore.specs.Met.{FitsSought, IsSought, IsStuckMet, IsTrapMet, VisitKeeps};
    ghost use Rattle.lrc_explore.specs.Traps.{AreRowsTrapless, ShowsStartTrap};
    ghost use Rattle.lrc_exec.specs.States.{plain_at};
    ghost use Rattle.lrc_orders.specs.declared.noted.Noted.{Noted as Key};
    ghost use Rattle.lrc_orders.specs.Meeting.{IsCalm, Meet};
    ghost use Rattle.lrc_orders_table.specs.declared.known.Means.{Means as TheMeans};
    ghost use Rattle.lrc_orders_table.specs.Tables.{IsKnown, IsRowOf, IsTable};

    /// Looks for a state where two nodes meet, if `races` is true. If there is none, all states are found, and the
    /// answer tells the first of them at which the program is stuck, if any, and where a node traps first, if one does.
    /// `start` says whether one traps as the start settles. Where there are too many states, or a node makes so many
    /// free acts that the limit is reached, no two nodes meet at any of the states that were found, if `races` is true,
    /// and the answer tells the first of them at which the program is stuck, and where a node traps on the way to them.
    /// It fails if memory runs out.
    pub fn seek(
        &mut self,
        alloc: Global,
        task: &Task<'_>,
        races: bool,
        start: bool,
    ) -> Result<Sought, ExploreFault>
        requires task { IsTask task.now }
        requires found { AreFound task.now self.old }
        requires start { ShowsStartTrap task.now start }
        requires trapless { start ≡ false → AreRowsTrapless task.now self.old.table.rows }
        ensures found { OnOk result (AreFound task.now self.new) }
        ensures more { OnOk result (IsMore self.old self.new) }
        ensures sought { IfOk result (IsSought task.now self.new races) }
        ensures fits { IfOk result (FitsSought task.now self.new) }
        ensures faults { IfErr result (λ fault. fault ≡ ExploreFault.NoMemory) }
    {
        let mut stuck = None;
        let mut trap = start_trap(start);
        let mut place = 0;
        while place < self.table.rows.len() {
            if self.table.rows.len() > task.most {
                return Ok(self.end_from(task, place, races, trap));
            }
            match self.visit(alloc, task, place, races)? {
                Visit::Meeting(p, q) => return Ok(Sought::Ended(End::Meeting { place, p, q })),
                Visit::Past {
                    stuck: halts,
                    trap: step,
                } => {
                    stuck = first_stuck(stuck, halts, place);
                    trap = first_trap(trap, step, place);
                }
                Visit::Cut { trap: step } => {
                    let met = first_trap(trap, step, place);
                    return Ok(self.end_from(task, place, races, met));
                }
            }
            place += 1;
        }
        Ok(Sought::Ended(End::Through { stuck, trap }))
    }

    // Where a search ends that is cut short: at the first state found from this place on where two nodes meet, if that
    // is looked for; or with what it met.
    fn end_from(&self, task: &Task<'_>, first: usize, races: bool, trap: Option<Trapping>) -> Sought
        requires found { AreFound task.now self.now }
        requires calm { races ≡ true → AreCalm task.now self.now.table.rows first }
        requires within { first < row_count self.now.table.rows }
        requires cut { IsCut task.now self.now.table.rows }
        requires traps { IsTrapMet task.now self.now.table.rows trap }
        ensures sought { IsSought task.now self.now races result }
        ensures fits { FitsSought task.now self.now result }
    {
        match self.meeting_from(task, first, races) {
            Some(meeting) => Sought::Ended(End::Meeting {
                place: meeting.0,
                p: meeting.1,
                q: meeting.2,
            }),
            None => {
                let stuck = self.stuck_of_all(task);
                Sought::Many { stuck, trap }
            }
        }
    }

    // The first state from this place on where two nodes meet, if that is looked for, with the least two that do.
    fn meeting_from(
        &self,
        task: &Task<'_>,
        first: usize,
        races: bool,
    ) -> Option<(usize, usize, usize)>
        requires found { AreFound task.now self.now }
        requires calm { races ≡ true → AreCalm task.now self.now.table.rows first }
        requires within { first < row_count self.now.table.rows }
        ensures { MatchOption result (races ≡ true → AreCalm task.now self.now.table.rows
            (row_count self.now.table.rows))
            (λ meeting. MeetAt task.now self.now races meeting.0 meeting.1 meeting.2) }
    {
        let _most = task.most;
        for place in first..self.table.rows.len() {
            let row = self.table.rows.row(place);
            if let Some((p, q)) = self.meeting(&row, races) {
                return Some((place, p, q));
            }
        }
        None
    }

    /// Returns the place of the first of the states found at which the program is stuck, if there is one.
    pub fn stuck_of_all(&self, task: &Task<'_>) -> Option<usize>
        requires found { AreFound task.now self.now }
        ensures { IsStuckMet task.now self.now.table.rows result }
    {
        let _most = task.most;
        for place in 0..self.table.rows.len() {
            let row = self.table.rows.row(place);
            let halts = self.table.is_stuck(&row);
            if halts {
                return Some(place);
            }
        }
        None
    }

    // Looks at a state, and finds the states after it, but where two nodes meet there and that is looked for.
    fn visit(
        &mut self,
        alloc: Global,
        task: &Task<'_>,
        place: usize,
        races: bool,
    ) -> Result<Visit, ExploreFault>
        requires task { IsTask task.now }
        requires found { AreFound task.now self.old }
        requires within { place < row_count self.old.table.rows }
        ensures found { OnOk result (AreFound task.now self.new) }
        ensures more { OnOk result (IsMore self.old self.new) }
        ensures visit { IfOk result (IsVisit task.now self.new place races) }
        ensures keeps { IfOk result (VisitKeeps task.now self.old.table.rows self.new.table.rows) }
        ensures faults { IfErr result (λ fault. fault ≡ ExploreFault.NoMemory) }
    {
        let row = self.table.rows.row(place);
        if let Some((p, q)) = self.meeting(&row, races) {
            return Ok(Visit::Meeting(p, q));
        }
        let stuck = self.table.is_stuck(&row);
        match self.expand(alloc, task, place)? {
            Steps::All(trap) => Ok(Visit::Past { stuck, trap }),
            Steps::Cut(trap) => Ok(Visit::Cut { trap }),
        }
    }

    // The least two nodes that meet, if that is looked for.
    fn meeting(&self, row: &Row, races: bool) -> Option<(usize, usize)>
        requires { IsKnown self.now.table row.now }
        ensures { (means : TheMeans) (key : Key) → IsTable means self.now.table
            → IsRowOf means self.now.table row.now key
            → MatchOption result (races ≡ true → IsCalm (plain_at means.flat key.state))
            (λ pair. (races ≡ true) × Meet (plain_at means.flat key.state) pair.0 pair.1) }
    {
        if races { self.table.meeting(row) } else { None }
    }

    /// Visits all states, and collects the outcomes of those at which no node can make an act.
    pub fn gather(
        &mut self,
        alloc: Global,
        task: &Task<'_>,
        outcomes: &mut IndexSet<Outcome>,
    ) -> Result<(), ExploreFault>
        requires task { IsTask task.now }
        requires found { AreFound task.now self.old }
        requires none { outcomes.old.keys ≡ [] }
        ensures found { OnOk result (AreFound task.now self.new) }
        ensures more { OnOk result (IsMore self.old self.new) }
        ensures sound { OnOk result (AreSound task.now outcomes.new.keys) }
        ensures done { OnOk result (AreGathered task.now self.new.table.rows outcomes.new.keys
            (row_count self.new.table.rows)) }
        ensures fits { OnOk result (row_count self.new.table.rows ≤ task.now.most) }
        ensures faults { IfErr result (IsSearchFault task.now false) }
    {
        let mut place = 0;
        while place < self.table.rows.len() {
            if self.table.rows.len() > task.most {
                return Err(ExploreFault::TooMany);
            }
            self.take_outcome(alloc, task, place, outcomes)?;
            place += 1;
        }
        Ok(())
    }

    // Looks at a state: finds those after it, and takes its outcome where no node can make an act.
    fn take_outcome(
        &mut self,
        alloc: Global,
        task: &Task<'_>,
        place: usize,
        outcomes: &mut IndexSet<Outcome>,
    ) -> Result<(), ExploreFault>
        requires task { IsTask task.now }
        requires found { AreFound task.now self.old }
        requires within { place < row_count self.old.table.rows }
        requires sound { AreSound task.now outcomes.old.keys }
        ensures found { OnOk result (AreFound task.now self.new) }
        ensures more { OnOk result (IsMore self.old self.new) }
        ensures grows { OnOk result (Grows outcomes.old.keys outcomes.new.keys) }
        ensures sound { OnOk result (AreSound task.now outcomes.new.keys) }
        ensures done { OnOk result (IsGatheredAt task.now self.new.table.rows outcomes.new.keys place) }
        ensures faults { IfErr result (IsFault task.now) }
    {
        let row = self.table.rows.row(place);
        let still = self.table.is_still(&row);
        let steps = self.expand(alloc, task, place)?;
        or_too_long(&steps)?;
        if still {
            let key = self.table.rows.noted(alloc, place)?;
            keep(outcomes, key.notes)?;
        }
        Ok(())
    }
}
