// How a node closes its open interval.

ghost use Rattle.std.specs.Prelude.{◌≡◌, ◌⊎◌, ◌+◌, ◌<◌, ◌≤◌, IfErr, IfOk};
ghost use Rattle.lrc_time.specs.Time.{entry};
ghost use Rattle.lrc_protocol.specs.Times.{next_time, MOST_NUMBER};
ghost use Rattle.lrc_protocol.specs.Node.{own_index};
ghost use Rattle.lrc_protocol.specs.Turn.{after_close};
ghost use Rattle.lrc_node.specs.declared.fault.NodeFault.TheVariants.{NoMemory, Worn};

use crate::fault::NodeFault;
use crate::state::NodeState;

impl NodeState<'_> {
    /// Closes the open interval. It fails with `Worn`, and changes nothing, if the interval's index would be too large.
    pub(crate) fn close(&mut self) -> Result<(), NodeFault>
        requires { entry (next_time self.old.setting.me self.old.locks.time) self.old.setting.me
            ≡ entry self.old.memory.store.last self.old.setting.me + 1 }
        ensures closed { IfOk result (λ _. (own_index self.old < MOST_NUMBER)
            × (self.new ≡ after_close self.old)) }
        ensures setting { self.new.setting ≡ self.old.setting }
        ensures refused { IfErr result (λ fault. ((fault ≡ Worn)
            × (MOST_NUMBER ≤ own_index self.old)) ⊎ (fault ≡ NoMemory)) }
    {
        if self.clock.index() == u32::MAX {
            return Err(NodeFault::Worn);
        }
        self.clock.tick();
        self.memory.close(self.clock.time())?;
        Ok(())
    }
}
