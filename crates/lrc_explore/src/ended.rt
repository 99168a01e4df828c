// The runs of a program that end, and their outcomes.

ghost use Rattle.std.specs.Prelude.{◌≡◌, ◌↔◌, IfOk, IfErr, IsTrue, true, false};
ghost use Rattle.lrc_explore.specs.Answers.{FitsSettledNoted, IsSearchFault};
ghost use Rattle.lrc_explore.specs.Ended.{AreEnded};
ghost use Rattle.lrc_explore.specs.Reached.{IsTask};

use crate::task::{Found, Task};
use indexmap::IndexSet;
use lrc_orders::noted::Noted;
use lrc_orders::outcomes::Outcome;
use lrc_orders::search::ExploreFault;
use lrc_trace::act::Act;
use std::alloc::{AllocError, Global};

/// The outcomes of a program, each once, and its settled states, from which a run of each outcome is read back.
#[derive(Drop)]
pub struct Ended {
    pub found: Found,
    pub outcomes: IndexSet<Outcome>,
}

/// Finds all settled states of a program, and the outcomes of those at which no node can make an act. It gives up with
/// `TooMany` only if there are more states to tell apart than the task allows, or if a thread makes as many free acts as
/// are to be looked at. It fails if memory runs out.
pub fn all_ended(alloc: Global, task: &Task<'_>) -> Result<Ended, ExploreFault>
    requires task { IsTask task.now }
    requires noting { task.now.noting ≡ true }
    ensures ended { IfOk result (AreEnded task.now) }
    ensures fits { IfOk result (λ _. FitsSettledNoted task.now.program.now task.now.flat.nodes
        task.now.most) }
    ensures faults { IfErr result (IsSearchFault task.now false) }
{
    let mut found = Found::none(alloc, task.flat.nodes as usize);
    let mut outcomes = IndexSet::new(alloc);
    let all = found.all_outcomes(alloc, task, &mut outcomes);
    match all {
        Ok(()) => Ok(Ended { found, outcomes }),
        Err(fault) => Err(fault),
    }
}

// Whether what is kept of a state has these notes.
fn has_notes(key: &Noted, notes: &[Act]) -> bool
    ensures { IsTrue result ↔ (key.now.notes.items ≡ notes.now) }
{
    key.notes.as_slice() == notes
}

impl Found {
    ghost use Rattle.std.specs.Prelude.{◌≡◌, ◌↔◌, ◌<◌, IfOk, IfErr, IsTrue, true, option_map};
    ghost use Rattle.lrc_explore.specs.Answers.{IsFault};
    ghost use Rattle.lrc_explore.specs.Ended.{AreAllFound, IsEndAt, IsFirstEnd, IsRunFor};
    ghost use Rattle.lrc_orders_table.specs.Rows.{row_count};
    ghost use Rattle.lrc_explore.specs.Reached.{AreFound, IsTask};

    /// Returns the acts of a run with these notes after which no node can make an act, or none if there is no such run.
    /// It fails if memory runs out.
    pub fn run_with(
        &self,
        alloc: Global,
        task: &Task<'_>,
        notes: &[Act],
    ) -> Result<Option<Vec<Act>>, ExploreFault>
        requires task { IsTask task.now }
        requires noting { task.now.noting ≡ true }
        requires all { AreAllFound task.now self.now }
        ensures run { IfOk result (λ run. IsRunFor task.now.program.now task.now.flat.nodes
            notes.now (option_map (λ acts. acts.items) run)) }
        ensures faults { IfErr result (IsFault task.now) }
    {
        match self.end_with(alloc, task, notes)? {
            Some(place) => Ok(Some(self.acts_to(alloc, task, place)?)),
            None => Ok(None),
        }
    }

    // The place of the first state with these notes at which no node can make an act.
    fn end_with(
        &self,
        alloc: Global,
        task: &Task<'_>,
        notes: &[Act],
    ) -> Result<Option<usize>, AllocError>
        requires task { IsTask task.now }
        requires found { AreFound task.now self.now }
        ensures { IfOk result (IsFirstEnd task.now self.now notes.now) }
    {
        for place in 0..self.table.rows.len() {
            let is_end = self.is_end_at(alloc, task, place, notes)?;
            if is_end {
                return Ok(Some(place));
            }
        }
        Ok(None)
    }

    // Whether no node can make an act at the state at a place, and it has these notes.
    fn is_end_at(
        &self,
        alloc: Global,
        task: &Task<'_>,
        place: usize,
        notes: &[Act],
    ) -> Result<bool, AllocError>
        requires found { AreFound task.now self.now }
        requires within { place < row_count self.now.table.rows }
        ensures { IfOk result (λ is. IsTrue is ↔ IsEndAt task.now self.now notes.now place) }
    {
        let _most = task.most;
        let row = self.table.rows.row(place);
        if self.table.is_still(&row) {
            let key = self.table.rows.noted(alloc, place)?;
            Ok(has_notes(&key, notes))
        } else {
            Ok(false)
        }
    }
}
