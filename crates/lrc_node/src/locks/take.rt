// Messages about locks: when a node expects them, and what it does with them.

ghost use Rattle.std.specs.Prelude.{◌≡◌, ℕ, ◌<◌, IfOk, IsTrue, Some, length, ◌&&◌};
ghost use Rattle.lrc_exec.specs.declared.machine.Ask.TheVariants.{Acquire};
ghost use Rattle.lrc_lock.specs.Held.{is_awaited};
ghost use Rattle.lrc_lock.specs.Held.{forwarded, lock_at, is_taken};
ghost use Rattle.lrc_lock.specs.Lock.{manager_of};
ghost use Rattle.lrc_memory.specs.Turns.{CanBeAdded};
ghost use Rattle.lrc_protocol.specs.Turn.{forward_by, take_grant, expects_request, expects_forward, expects_grant, passes_on};
ghost use Rattle.lrc_node.specs.State.{seen_effect, AreFor};
ghost use Rattle.lrc_control.specs.Text.{asked_in};

use crate::state::NodeState;
use crate::turn::Effect;
use lrc_envelope::{LockForward, LockGrant, LockRequest, Message};
use lrc_need::Wait;
use std::alloc::AllocError;

impl NodeState<'_> {
    /// Returns whether a request for a lock is expected: this node manages the lock.
    pub(crate) fn expects_request(&self, m: &LockRequest) -> bool
        ensures { result ≡ expects_request self.now m.now }
    {
        m.lock < self.locks && m.time.nodes() == self.nodes && m.lock % self.nodes == self.me
    }

    /// Takes a request for a lock that this node manages, and forwards it to the last node to ask for the lock.
    pub(crate) fn take_request(
        &mut self,
        from: u8,
        request: &LockRequest,
    ) -> Result<Effect, AllocError>
        requires from { from < self.old.setting.nodes }
        requires lock { request.now.lock < self.old.setting.locks }
        requires managed { manager_of self.old.locks.managed.nodes request.now.lock
            ≡ self.old.locks.managed.me }
        ensures effect { IfOk result (λ effect. passes_on self.old from request.now
            ≡ seen_effect effect self.new) }
        ensures to { IfOk result (λ effect. AreFor self.new.setting.nodes effect.letters.items) }
    {
        let lock = request.lock;
        let to = self.clock.request(lock, from);
        let forward = LockForward {
            lock,
            asker: from,
            time: request.time.copy(),
        };
        let letters = self.letter(to, Message::LockForward(forward))?;
        Ok(Effect::sending(letters))
    }

    /// Returns whether a forwarded request is expected: its sender manages the lock, its asker is another node, and the
    /// token is here or awaited, with no successor yet.
    pub(crate) fn expects_forward(&self, from: u8, m: &LockForward) -> bool
        ensures { result ≡ (expects_forward self.now from m.now
            && is_taken (forwarded self.now.locks.held m.now.lock m.now.asker m.now.time)) }
    {
        m.lock < self.locks
            && m.asker < self.nodes
            && m.time.nodes() == self.nodes
            && m.lock % self.nodes == from
            && self.clock.accepts(m.lock, m.asker)
    }

    /// Takes a request that was forwarded to this node. It grants the lock at once, or keeps the asker as successor.
    pub(crate) fn take_forward(&mut self, forward: &LockForward) -> Result<Effect, AllocError>
        requires lock { forward.now.lock < self.old.setting.locks }
        requires asker { forward.now.asker < self.old.setting.nodes }
        requires counted { length forward.now.time ≡ self.old.setting.nodes }
        requires taken { IsTrue (is_taken (forwarded self.old.locks.held forward.now.lock
            forward.now.asker forward.now.time)) }
        ensures effect { IfOk result (λ effect. forward_by self.old forward.now.lock
            (forwarded self.old.locks.held forward.now.lock forward.now.asker forward.now.time)
            ≡ Some (seen_effect effect self.new)) }
        ensures to { IfOk result (λ effect. AreFor self.new.setting.nodes effect.letters.items) }
    {
        let time = forward.time.copy();
        let pass = self.clock.forward(forward.lock, forward.asker, time);
        let letters = self.grants(pass)?;
        Ok(Effect::sending(letters))
    }

    /// Returns whether a grant is expected: this node awaits it, and can learn the news.
    pub(crate) fn expects_grant(&self, m: &LockGrant) -> bool
        ensures { result ≡ expects_grant self.now m.now }
    {
        m.lock < self.locks && self.mail.wait().awaits_grant(m.lock) && self.can_learn(&m.news)
    }

    /// Takes the token with its news, and makes the acquire.
    pub(crate) fn take_grant(&mut self, grant: &LockGrant) -> Result<Effect, AllocError>
        requires lock { grant.now.lock < self.old.setting.locks }
        requires awaited { IsTrue (is_awaited (lock_at self.old.locks.held grant.now.lock)) }
        requires next { asked_in self.old.course ≡ Some (Acquire grant.now.lock) }
        requires counted { length grant.now.time ≡ self.old.setting.nodes }
        requires intervals { CanBeAdded self.old.memory.store grant.now.intervals }
        ensures effect { IfOk result (λ effect. take_grant self.old grant.now
            ≡ seen_effect effect self.new) }
        ensures to { IfOk result (λ effect. AreFor self.new.setting.nodes effect.letters.items) }
    {
        self.clock.granted(grant.lock);
        self.learn(&grant.news)?;
        self.mail.wait_for(Wait::Nothing);
        self.act(Vec::new(self.alloc))
    }
}
