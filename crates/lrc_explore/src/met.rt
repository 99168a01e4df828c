// What a search met that was cut short.

use crate::answers::order_of;
use crate::task::{Found, Task, Trapping};
use lrc_orders::search::{ExploreFault, Findings};
use std::alloc::Global;

impl Found {
    ghost use Rattle.std.specs.Prelude.{IfErr, IfOk, option_map};
    ghost use Rattle.lrc_orders.specs.Stuck.{GetsStuck};
    ghost use Rattle.lrc_orders.specs.Traps.{NodeTraps};
    ghost use Rattle.lrc_explore.specs.Answers.{IsFault};
    ghost use Rattle.lrc_explore.specs.Met.{HasMet, IsMany, IsStuckAt, IsStuckMet, IsTrapMet, TellsStuckAt, TellsTrapAt};
    ghost use Rattle.lrc_explore.specs.Reached.{AreFound, IsTask};
    ghost use Rattle.lrc_explore.specs.Traps.{IsTrapping};

    /// Returns an order that gets stuck, if the program is stuck at a state that was found, and one in which a node
    /// traps, if it is said where one does, where a search was cut short. It fails if memory runs out.
    pub fn met_told(
        &self,
        alloc: Global,
        task: &Task<'_>,
        races: bool,
        stuck: Option<usize>,
        trap: Option<Trapping>,
    ) -> Result<Findings, ExploreFault>
        requires task { IsTask task.now }
        requires found { AreFound task.now self.now }
        requires many { IsMany task.now self.now.table.rows races stuck trap }
        ensures met { IfOk result (HasMet task.now task.now.most races) }
        ensures faults { IfErr result (IsFault task.now) }
    {
        let _races = races;
        let stuck = self.stuck_met(alloc, task, stuck)?;
        let trap = self.trap_met(alloc, task, trap)?;
        Ok(Findings { stuck, trap })
    }

    // An order that gets stuck, if the program is stuck at a state that was found.
    fn stuck_met(
        &self,
        alloc: Global,
        task: &Task<'_>,
        stuck: Option<usize>,
    ) -> Result<Option<Vec<usize>>, ExploreFault>
        requires task { IsTask task.now }
        requires found { AreFound task.now self.now }
        requires stuck { IsStuckMet task.now self.now.table.rows stuck }
        ensures stuck { IfOk result (λ order. TellsStuckAt task.now self.now.table.rows
            (option_map (λ nodes. nodes.items) order)) }
        ensures faults { IfErr result (IsFault task.now) }
    {
        let Some(place) = stuck else {
            return Ok(None);
        };
        let order = self.stuck_order(alloc, task, place)?;
        Ok(Some(order))
    }

    // An order in which a node traps, if it is said where one does.
    fn trap_met(
        &self,
        alloc: Global,
        task: &Task<'_>,
        trap: Option<Trapping>,
    ) -> Result<Option<Vec<usize>>, ExploreFault>
        requires task { IsTask task.now }
        requires found { AreFound task.now self.now }
        requires trap { IsTrapMet task.now self.now.table.rows trap }
        ensures trap { IfOk result (λ order. TellsTrapAt task.now self.now.table.rows
            (option_map (λ nodes. nodes.items) order)) }
        ensures faults { IfErr result (IsFault task.now) }
    {
        let Some(there) = trap else {
            return Ok(None);
        };
        let order = self.trap_order(alloc, task, there)?;
        Ok(Some(order))
    }

    // An order that leads to the state at a place, at which the program is stuck.
    pub(crate) fn stuck_order(
        &self,
        alloc: Global,
        task: &Task<'_>,
        place: usize,
    ) -> Result<Vec<usize>, ExploreFault>
        requires task { IsTask task.now }
        requires found { AreFound task.now self.now }
        requires stuck { IsStuckAt task.now self.now.table.rows place }
        ensures gets { IfOk result (λ order. GetsStuck task.now.program.now task.now.flat.nodes
            order.items) }
        ensures faults { IfErr result (IsFault task.now) }
    {
        let acts = self.acts_to(alloc, task, place)?;
        let order = order_of(alloc, &acts, &[])?;
        Ok(order)
    }

    // An order in which a node traps there.
    pub(crate) fn trap_order(
        &self,
        alloc: Global,
        task: &Task<'_>,
        there: Trapping,
    ) -> Result<Vec<usize>, ExploreFault>
        requires task { IsTask task.now }
        requires found { AreFound task.now self.now }
        requires traps { IsTrapping task.now self.now.table.rows there }
        ensures traps { IfOk result (λ order. NodeTraps task.now.program.now task.now.flat.nodes
            order.items) }
        ensures faults { IfErr result (IsFault task.now) }
    {
        let acts = self.acts_into_trap(alloc, task, there)?;
        let order = order_of(alloc, &acts, &[])?;
        Ok(order)
    }
}
