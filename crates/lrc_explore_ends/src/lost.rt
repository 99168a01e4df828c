// An order that can no longer end.

ghost use Rattle.std.specs.Prelude.{◌≡◌, ◌<◌, ◌≢◌, ℕ, false, true, IfErr, IfOk, MatchOption, length, slice_index_or, option_map};
ghost use Rattle.lrc_exec.specs.Follows.{nodes_of_acts};
ghost use Rattle.lrc_orders_ends.specs.Ends.{TellsEnd};
ghost use Rattle.lrc_orders_table.specs.Rows.{row_count};
ghost use Rattle.lrc_explore.specs.Answers.{IsFault};
ghost use Rattle.lrc_explore.specs.Reached.{AreFound, IsTask};

use crate::states::States;
use lrc_explore::task::{Found, Task};
use lrc_orders::search::ExploreFault;
use lrc_trace::act::Act;
use std::alloc::{AllocError, Global};

/// Returns an order that can no longer end, or none if every order can, from the states that were found of a program.
/// The first of them is the settled start. It fails if memory runs out, or if a thread makes as many free acts as are to
/// be looked at.
pub fn lost_order(
    alloc: Global,
    task: &Task<'_>,
    found: Found,
) -> Result<Option<Vec<usize>>, ExploreFault>
    requires task { IsTask task.now }
    requires found { AreFound task.now found }
    requires some { 0 < row_count found.table.rows }
    ensures lost { IfOk result (λ order. TellsEnd task.now.program.now task.now.flat.nodes
        (option_map (λ nodes. nodes.items) order)) }
    ensures faults { IfErr result (IsFault task.now) }
{
    let mut states = States::of(alloc, found);
    states.find_lost(alloc, task)
}

// The first place at which a table says no.
fn first_false(table: &[bool]) -> Option<usize>
    ensures { MatchOption result ((k : ℕ) → k < length table.now
        → slice_index_or table.now k false ≡ true)
        (λ place. (place < length table.now) × (slice_index_or table.now place false ≡ false)
        × ((k : ℕ) → k < place → slice_index_or table.now k false ≡ true)) }
{
    for place in 0..table.len() {
        if !table[place] {
            return Some(place);
        }
    }
    None
}

// The nodes of acts, in their order.
fn nodes_of(alloc: Global, acts: &[Act]) -> Result<Vec<usize>, AllocError>
    ensures { IfOk result (λ order. order.items ≡ nodes_of_acts acts.now) }
{
    acts.iter().map(|act| act.node as usize).collect(alloc)
}

impl States {
    ghost use Rattle.std.specs.Prelude.{◌<◌, IfErr, IfOk, option_map};
    ghost use Rattle.lrc_orders_ends.specs.Ends.{TellsEnd};
    ghost use Rattle.lrc_orders_table.specs.Rows.{row_count};
    ghost use Rattle.lrc_explore.specs.Answers.{IsFault};
    ghost use Rattle.lrc_explore.specs.Reached.{IsTask};
    ghost use Rattle.lrc_explore_ends.specs.Lost.{IsFirstLost};
    ghost use Rattle.lrc_explore_ends.specs.Stepped.{AreAllStepped, AreStepped};

    // Finds the steps between the states, and the order that leads to the first state from which none lead to an end.
    fn find_lost(
        &mut self,
        alloc: Global,
        task: &Task<'_>,
    ) -> Result<Option<Vec<usize>>, ExploreFault>
        requires task { IsTask task.now }
        requires stepped { AreStepped task.now self.old }
        requires some { 0 < row_count self.old.found.table.rows }
        ensures lost { IfOk result (λ order. TellsEnd task.now.program.now task.now.flat.nodes
            (option_map (λ nodes. nodes.items) order)) }
        ensures faults { IfErr result (IsFault task.now) }
    {
        self.link_all(alloc, task)?;
        self.lost_told(alloc, task)
    }

    // The order that leads to the first state from which no steps lead to an end, if there is one.
    fn lost_told(&self, alloc: Global, task: &Task<'_>) -> Result<Option<Vec<usize>>, ExploreFault>
        requires task { IsTask task.now }
        requires all { AreAllStepped task.now self.now }
        requires some { 0 < row_count self.now.found.table.rows }
        ensures lost { IfOk result (λ order. TellsEnd task.now.program.now task.now.flat.nodes
            (option_map (λ nodes. nodes.items) order)) }
        ensures faults { IfErr result (IsFault task.now) }
    {
        let Some(place) = self.lost_place(alloc, task)? else {
            return Ok(None);
        };
        let acts = self.found.acts_to(alloc, task, place)?;
        let order = nodes_of(alloc, &acts)?;
        Ok(Some(order))
    }

    /// Returns the place of the first state from which no steps lead to one at which no node can make an act, if there is
    /// one. It fails if memory runs out.
    pub fn lost_place(&self, alloc: Global, task: &Task<'_>) -> Result<Option<usize>, AllocError>
        requires { AreAllStepped task.now self.now }
        ensures { IfOk result (IsFirstLost task.now self.now) }
    {
        let still = self.still_places(alloc, task)?;
        let ending = self.steps.leading_to(alloc, &still)?;
        Ok(first_false(&ending))
    }
}
