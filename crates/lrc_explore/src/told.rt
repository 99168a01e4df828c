// The acts that lead to a state.

ghost use Rattle.std.specs.Prelude.{IfOk, IfErr};
ghost use Rattle.lrc_explore.specs.Reached.{IsTask};
ghost use Rattle.lrc_explore.specs.Answers.{IsFault};
ghost use Rattle.lrc_explore.specs.Traps.{LeadIntoTrap, StartTraps};

use crate::found::{settled_start, taken};
use crate::task::{Found, Origin, Task, Trapping};
use lrc_orders::search::ExploreFault;
use lrc_trace::act::Act;
use std::alloc::{AllocError, Global};

// The acts by which the start settles, where a node traps as it does.
fn start_acts(alloc: Global, task: &Task<'_>) -> Result<Vec<Act>, ExploreFault>
    requires task { IsTask task.now }
    requires traps { StartTraps task.now }
    ensures led { IfOk result (λ acts. LeadIntoTrap task.now acts.items) }
    ensures faults { IfErr result (IsFault task.now) }
{
    let mut acts = Vec::new(alloc);
    let _state = settled_start(alloc, task, &mut acts)?;
    Ok(acts)
}

impl Found {
    ghost use Rattle.std.specs.Prelude.{◌≡◌, ◌<◌, ◌++◌, IfOk, IfErr, OnOk, length};
    ghost use Rattle.lrc_orders_table.specs.Rows.{row_count};
    ghost use Rattle.lrc_explore.specs.Reached.{AreFound, IsTask};
    ghost use Rattle.lrc_explore.specs.Answers.{IsFault};
    ghost use Rattle.lrc_explore.specs.Told.{Comes, IsParentLed, LeadTo};
    ghost use Rattle.lrc_explore.specs.Traps.{IsTrapping, LeadIntoTrap};
    ghost use Rattle.lrc_explore.specs.declared.task.Trapping.TheVariants.{Step};

    /// Returns acts that lead from the beginning to a settled state of the program that the state at this place stands
    /// for. If notes are kept, they have its notes. It fails if memory runs out.
    pub fn acts_to(
        &self,
        alloc: Global,
        task: &Task<'_>,
        place: usize,
    ) -> Result<Vec<Act>, ExploreFault>
        requires task { IsTask task.now }
        requires found { AreFound task.now self.now }
        requires within { place < row_count self.now.table.rows }
        ensures led { IfOk result (λ acts. LeadTo task.now self.now place acts.items) }
        ensures faults { IfErr result (IsFault task.now) }
    {
        let path = self.path_to(alloc, task, place)?;
        let mut acts = Vec::new(alloc);
        let _start = settled_start(alloc, task, &mut acts)?;
        self.follow(alloc, task, &path, place, &mut acts)?;
        Ok(acts)
    }

    /// Returns acts that lead from the beginning to a settled state of the program, where a node traps there. One of them
    /// is a trap. It fails if memory runs out.
    pub(crate) fn acts_into_trap(
        &self,
        alloc: Global,
        task: &Task<'_>,
        there: Trapping,
    ) -> Result<Vec<Act>, ExploreFault>
        requires task { IsTask task.now }
        requires found { AreFound task.now self.now }
        requires traps { IsTrapping task.now self.now.table.rows there }
        ensures led { IfOk result (λ acts. LeadIntoTrap task.now acts.items) }
        ensures faults { IfErr result (IsFault task.now) }
    {
        match there {
            Trapping::Start => start_acts(alloc, task),
            Trapping::Step(origin) => self.acts_through(alloc, task, origin),
        }
    }

    // Acts that lead to a state and on by a step, in which a node traps.
    fn acts_through(
        &self,
        alloc: Global,
        task: &Task<'_>,
        origin: Origin,
    ) -> Result<Vec<Act>, ExploreFault>
        requires task { IsTask task.now }
        requires found { AreFound task.now self.now }
        requires traps { IsTrapping task.now self.now.table.rows (Step origin) }
        ensures led { IfOk result (λ acts. LeadIntoTrap task.now acts.items) }
        ensures faults { IfErr result (IsFault task.now) }
    {
        let mut acts = self.acts_to(alloc, task, origin.parent)?;
        let key = self.table.rows.noted(alloc, origin.parent)?;
        let _after = taken(alloc, task, &key.state, origin.step, &mut acts)?;
        Ok(acts)
    }

    // Takes the steps by which the states at these places were found.
    fn follow(
        &self,
        alloc: Global,
        task: &Task<'_>,
        path: &[usize],
        place: usize,
        acts: &mut Vec<Act>,
    ) -> Result<(), ExploreFault>
        requires task { IsTask task.now }
        requires found { AreFound task.now self.now }
        requires comes { Comes self.now.origins.items 0 path.now place }
        requires led { LeadTo task.now self.now 0 acts.old.items }
        ensures led { OnOk result (LeadTo task.now self.now place acts.new.items) }
        ensures faults { IfErr result (IsFault task.now) }
    {
        let _place = place;
        for at in path {
            self.take_again(alloc, task, *at, acts)?;
        }
        Ok(())
    }

    // The places on the way to a state, behind the first.
    fn path_to(
        &self,
        alloc: Global,
        task: &Task<'_>,
        place: usize,
    ) -> Result<Vec<usize>, AllocError>
        requires found { AreFound task.now self.now }
        requires within { place < row_count self.now.table.rows }
        ensures { IfOk result (λ path. Comes self.now.origins.items 0 path.items place) }
    {
        let _most = task.most;
        let mut path = Vec::new(alloc);
        let mut at = place;
        while at != 0 {
            let origin = self.origins[at];
            path.push(at)?;
            at = origin.parent;
        }
        path.reverse();
        Ok(path)
    }

    // Takes the step by which a state was found.
    fn take_again(
        &self,
        alloc: Global,
        task: &Task<'_>,
        place: usize,
        acts: &mut Vec<Act>,
    ) -> Result<(), ExploreFault>
        requires task { IsTask task.now }
        requires found { AreFound task.now self.now }
        requires within { place < row_count self.now.table.rows }
        requires later { 0 < place }
        requires led { IsParentLed task.now self.now place acts.old.items }
        ensures led { OnOk result (LeadTo task.now self.now place acts.new.items) }
        ensures faults { IfErr result (IsFault task.now) }
    {
        let origin = self.origins[place];
        let key = self.table.rows.noted(alloc, origin.parent)?;
        let _after = taken(alloc, task, &key.state, origin.step, acts)?;
        Ok(())
    }
}
