// The runs of a program that end, and their outcomes.

ghost use Rattle.std.specs.Prelude.{◌≡◌, ◌↔◌, IfErr, IfOk, IsTrue, false, true};
ghost use Rattle.lrc_explore.specs.Answers.{IsSearchFault};
ghost use Rattle.lrc_explore.specs.Reached.{IsTask};
ghost use Rattle.lrc_explore_less.specs.Outcomes.{AreEnded};

use crate::less::Less;
use indexmap::IndexSet;
use lrc_explore::ended::all_ended as all_ended_of_all;
use lrc_explore::task::Task;
use lrc_orders::noted::Noted;
use lrc_orders::outcomes::Outcome;
use lrc_orders::search::ExploreFault;
use lrc_trace::act::Act;
use std::alloc::{AllocError, Global};

/// The outcomes of a program, each once, and states from which a run of each outcome is read back.
#[derive(Drop)]
pub struct Ended {
    pub less: Less,
    pub outcomes: IndexSet<Outcome>,
}

/// Finds enough states of a program, and the outcomes of those at which no node can make an act. It gives up with
/// `TooMany` only if there are more states to tell apart than the task allows, or if a thread makes as many free acts as
/// are to be looked at. It fails if memory runs out.
pub fn all_ended(alloc: Global, task: &Task<'_>) -> Result<Ended, ExploreFault>
    requires task { IsTask task.now }
    requires noting { task.now.noting ≡ true }
    ensures ended { IfOk result (AreEnded task.now) }
    ensures faults { IfErr result (IsSearchFault task.now false) }
{
    let mut less = Less::none(alloc, task.flat.nodes as usize);
    let mut outcomes = IndexSet::new(alloc);
    let all = less.all_outcomes(alloc, task, &mut outcomes);
    match all {
        Ok(()) => Ok(Ended { less, outcomes }),
        Err(fault) => Err(fault),
    }
}

// Whether what is kept of a state has these notes.
fn has_notes(key: &Noted, notes: &[Act]) -> bool
    ensures { IsTrue result ↔ (key.now.notes.items ≡ notes.now) }
{
    key.notes.as_slice() == notes
}

impl Less {
    ghost use Rattle.std.specs.Prelude.{◌≡◌, ◌↔◌, ◌<◌, [], IfErr, IfOk, IsTrue, List, OnOk, false, option_map, true};
    ghost use Rattle.lrc_trace.specs.declared.act.Act.{Act as ActType};
    ghost use Rattle.lrc_orders.specs.Outcome.{HasOutcome, IsOutcome};
    ghost use Rattle.lrc_orders_table.specs.Rows.{row_count};
    ghost use Rattle.lrc_explore.specs.Answers.{IsFault, IsSearchFault};
    ghost use Rattle.lrc_explore.specs.Ended.{IsEndAt, IsFirstEnd, IsRunFor};
    ghost use Rattle.lrc_explore.specs.Reached.{AreFound, IsTask};
    ghost use Rattle.lrc_explore_less.specs.Enough.{AreEnough};
    ghost use Rattle.lrc_explore_less.specs.Passing.{IsNone};

    // From the settled start on, where there are no states yet: enough states, and every outcome.
    fn all_outcomes(
        &mut self,
        alloc: Global,
        task: &Task<'_>,
        outcomes: &mut IndexSet<Outcome>,
    ) -> Result<(), ExploreFault>
        requires task { IsTask task.now }
        requires noting { task.now.noting ≡ true }
        requires none { IsNone task.now self.old }
        requires empty { outcomes.old.keys ≡ [] }
        ensures enough { OnOk result (AreEnough task.now self.new) }
        ensures exact { OnOk result ((notes : List ActType)
            → (HasOutcome outcomes.new.keys notes
            ↔ IsOutcome task.now.program.now task.now.flat.nodes notes)) }
        ensures faults { IfErr result (IsSearchFault task.now false) }
    {
        let passes = self.begin(alloc, task)?;
        if !passes {
            return Err(ExploreFault::TooMany);
        }
        self.gather(alloc, task, outcomes)?;
        Ok(())
    }

    /// Returns the acts of a run with these notes after which no node can make an act, or none if there is no such run.
    /// The run is that of the search that makes no undisputed acts, unless that one gives up with `TooMany`. It fails if
    /// memory runs out.
    pub fn run_told(
        &self,
        alloc: Global,
        task: &Task<'_>,
        notes: &[Act],
    ) -> Result<Option<Vec<Act>>, ExploreFault>
        requires task { IsTask task.now }
        requires noting { task.now.noting ≡ true }
        requires enough { AreEnough task.now self.now }
        ensures run { IfOk result (λ run. IsRunFor task.now.program.now task.now.flat.nodes
            notes.now (option_map (λ acts. acts.items) run)) }
        ensures faults { IfErr result (IsSearchFault task.now false) }
    {
        match all_ended_of_all(alloc, task) {
            Ok(all) => all.found.run_with(alloc, task, notes),
            Err(ExploreFault::TooMany) => self.run_with(alloc, task, notes),
            Err(fault) => Err(fault),
        }
    }

    // The same, of the states from which every step is taken.
    fn run_with(
        &self,
        alloc: Global,
        task: &Task<'_>,
        notes: &[Act],
    ) -> Result<Option<Vec<Act>>, ExploreFault>
        requires task { IsTask task.now }
        requires noting { task.now.noting ≡ true }
        requires enough { AreEnough task.now self.now }
        ensures run { IfOk result (λ run. IsRunFor task.now.program.now task.now.flat.nodes
            notes.now (option_map (λ acts. acts.items) run)) }
        ensures faults { IfErr result (IsFault task.now) }
    {
        match self.end_with(alloc, task, notes)? {
            Some(place) => Ok(Some(self.found.acts_to(alloc, task, place)?)),
            None => Ok(None),
        }
    }

    // The place of the first state with these notes at which no node can make an act.
    fn end_with(
        &self,
        alloc: Global,
        task: &Task<'_>,
        notes: &[Act],
    ) -> Result<Option<usize>, AllocError>
        requires { AreFound task.now self.now.found }
        ensures { IfOk result (IsFirstEnd task.now self.now.found notes.now) }
    {
        for place in 0..self.found.table.rows.len() {
            let is_end = self.is_end_at(alloc, task, place, notes)?;
            if is_end {
                return Ok(Some(place));
            }
        }
        Ok(None)
    }

    // Whether no node can make an act at the state at a place, and it has these notes.
    fn is_end_at(
        &self,
        alloc: Global,
        task: &Task<'_>,
        place: usize,
        notes: &[Act],
    ) -> Result<bool, AllocError>
        requires found { AreFound task.now self.now.found }
        requires within { place < row_count self.now.found.table.rows }
        ensures { IfOk result (λ is. IsTrue is
            ↔ IsEndAt task.now self.now.found notes.now place) }
    {
        let _most = task.most;
        let row = self.found.table.rows.row(place);
        if self.found.table.is_still(&row) {
            let key = self.found.table.rows.noted(alloc, place)?;
            Ok(has_notes(&key, notes))
        } else {
            Ok(false)
        }
    }
}
