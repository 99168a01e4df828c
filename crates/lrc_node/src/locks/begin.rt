// How a node begins an acquire or a release.

ghost use Rattle.std.specs.Prelude.{◌≡◌, ◌<◌, false, IfOk, IsTrue, Some, length};
ghost use Rattle.lrc_exec.specs.declared.machine.Ask.TheVariants.{Acquire, Release};
ghost use Rattle.lrc_lock.specs.Held.{is_free, is_held, lock_at};
ghost use Rattle.lrc_lock.specs.declared.state.LockState.TheVariants.{Away};
ghost use Rattle.lrc_protocol.specs.Turn.{acquire_at, release_at};
ghost use Rattle.lrc_node.specs.State.{seen_effect, AreFor};
ghost use Rattle.lrc_control.specs.Text.{asked_in};

use crate::state::NodeState;
use crate::turn::Effect;
use lrc_envelope::{LockRequest, Message};
use lrc_need::Wait;
use std::alloc::AllocError;

impl NodeState<'_> {
    /// Takes a lock that is free and whose token is here. Otherwise it asks the lock's manager, and waits.
    pub(crate) fn acquire(&mut self, lock: u8) -> Result<Effect, AllocError>
        requires lock { lock < length self.old.locks.held.locks }
        requires next { asked_in self.old.course ≡ Some (Acquire lock) }
        requires away { is_free (lock_at self.old.locks.held lock) ≡ false
            → lock_at self.old.locks.held lock ≡ Away }
        ensures effect { IfOk result (λ effect. acquire_at lock self.old
            ≡ seen_effect effect self.new) }
        ensures to { IfOk result (λ effect. AreFor self.new.setting.nodes effect.letters.items) }
    {
        if self.clock.try_local(lock) {
            return self.act(Vec::new(self.alloc));
        }
        self.clock.ask(lock);
        self.mail.wait_for(Wait::Grant(lock));
        let time = self.clock.time().copy();
        let request = Message::LockRequest(LockRequest { lock, time });
        let letters = self.letter(lock % self.nodes, request)?;
        Ok(Effect::sending(letters))
    }

    /// Releases a lock that the node holds, and grants it to the successor, if there is one.
    pub(crate) fn release(&mut self, lock: u8) -> Result<Effect, AllocError>
        requires lock { lock < length self.old.locks.held.locks }
        requires next { asked_in self.old.course ≡ Some (Release lock) }
        requires held { IsTrue (is_held (lock_at self.old.locks.held lock)) }
        ensures effect { IfOk result (λ effect. release_at lock self.old
            ≡ seen_effect effect self.new) }
        ensures to { IfOk result (λ effect. AreFor self.new.setting.nodes effect.letters.items) }
    {
        let pass = self.clock.release(lock);
        let letters = self.grants(pass)?;
        self.act(letters)
    }
}
