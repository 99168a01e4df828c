// The states that a search has found, with the steps between them.

use lrc_explore::task::{Found, Origin, Task};
use lrc_graph::graph::Graph;
use lrc_orders::search::ExploreFault;
use lrc_orders_settling::step::Step;
use std::alloc::{AllocError, Global};

/// The states found, and a graph of their places. An edge stands for a step from one state to another.
#[derive(Drop)]
pub struct States {
    pub found: Found,
    pub steps: Graph,
}

impl States {
    ghost use Rattle.std.specs.Prelude.{◌≡◌, ◌<◌, ◌≤◌, ℕ, IfErr, IfOk, OnOk, length};
    ghost use Rattle.lrc_orders_settling.specs.declared.step.Step.{Step as TheStep};
    ghost use Rattle.lrc_orders_table.specs.Rows.{row_count};
    ghost use Rattle.lrc_explore.specs.Answers.{IsFault};
    ghost use Rattle.lrc_explore.specs.Reached.{AreFound, IsStepOf, IsTask};
    ghost use Rattle.lrc_explore.specs.declared.task.Task.{Task as TheTask};
    ghost use Rattle.lrc_explore_ends.specs.Stepped.{AreAllStepped, AreStepped, IsStepKnown, IsWider};
    ghost use Rattle.lrc_explore_ends.specs.Lost.{SaysStill};

    /// The states that were found, with no steps between them yet.
    pub fn of(alloc: Global, found: Found) -> States
        ensures found { result.found ≡ found }
        ensures stepped { (task : TheTask) → AreFound task found → AreStepped task result }
    {
        States {
            found,
            steps: Graph::new(alloc),
        }
    }

    /// Finds each step from each of the states. It fails if memory runs out, or if a thread makes as many free acts as
    /// are to be looked at.
    pub fn link_all(&mut self, alloc: Global, task: &Task<'_>) -> Result<(), ExploreFault>
        requires task { IsTask task.now }
        requires stepped { AreStepped task.now self.old }
        ensures stepped { OnOk result (AreAllStepped task.now self.new) }
        ensures wider { OnOk result (IsWider self.old self.new) }
        ensures faults { IfErr result (IsFault task.now) }
    {
        let mut place = 0;
        while place < self.found.table.rows.len() {
            self.link_steps(alloc, task, place)?;
            place += 1;
        }
        self.steps.widen(alloc, self.found.table.rows.len())?;
        Ok(())
    }

    // Finds each step from the state at a place.
    fn link_steps(
        &mut self,
        alloc: Global,
        task: &Task<'_>,
        place: usize,
    ) -> Result<(), ExploreFault>
        requires task { IsTask task.now }
        requires stepped { AreStepped task.now self.old }
        requires within { place < row_count self.old.found.table.rows }
        ensures stepped { OnOk result (AreStepped task.now self.new) }
        ensures wider { OnOk result (IsWider self.old self.new) }
        ensures known { OnOk result ((step : TheStep)
            → IsStepKnown task.now self.new place step) }
        ensures faults { IfErr result (IsFault task.now) }
    {
        self.link_step(alloc, task, place, Step::Together)?;
        for node in 0..task.flat.nodes {
            self.link_step(alloc, task, place, Step::Alone(node))?;
        }
        Ok(())
    }

    // Finds where a step leads from the state at a place, if it can be taken.
    fn link_step(
        &mut self,
        alloc: Global,
        task: &Task<'_>,
        place: usize,
        step: Step,
    ) -> Result<(), ExploreFault>
        requires task { IsTask task.now }
        requires stepped { AreStepped task.now self.old }
        requires within { place < row_count self.old.found.table.rows }
        requires step { IsStepOf task.now step }
        ensures stepped { OnOk result (AreStepped task.now self.new) }
        ensures wider { OnOk result (IsWider self.old self.new) }
        ensures known { OnOk result (IsStepKnown task.now self.new place step) }
        ensures faults { IfErr result (IsFault task.now) }
    {
        let Some(led) = self.found.row_after(alloc, task, place, step)? else {
            return Ok(());
        };
        let origin = Origin {
            parent: place,
            step,
        };
        let to = self.found.put(task, led.row, origin)?;
        self.steps.widen(alloc, self.found.table.rows.len())?;
        self.steps.link(place, to)?;
        Ok(())
    }

    /// Returns of each state whether no node can make an act there. It fails if memory runs out.
    pub fn still_places(&self, alloc: Global, task: &Task<'_>) -> Result<Vec<bool>, AllocError>
        requires { AreFound task.now self.now.found }
        ensures count { IfOk result (λ still. length still.items
            ≡ row_count self.now.found.table.rows) }
        ensures exact { IfOk result (λ still. SaysStill task.now self.now still.items) }
    {
        let _most = task.most;
        let mut still = Vec::new(alloc);
        for place in 0..self.found.table.rows.len() {
            let row = self.found.table.rows.row(place);
            let is = self.found.table.is_still(&row);
            still.push(is)?;
        }
        Ok(still)
    }
}
