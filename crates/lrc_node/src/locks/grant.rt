// The grant of a lock.

ghost use Rattle.std.specs.Prelude.{◌≡◌, ◌<◌, IfOk, IfSome};
ghost use Rattle.lrc_envelope.specs.declared.limits.TheConstants.{MOST_LOCKS};
ghost use Rattle.lrc_lock.specs.Lock.{IsPass};
ghost use Rattle.lrc_protocol.specs.Turn.{grants_of};
ghost use Rattle.lrc_node.specs.State.{AreFor};

use crate::state::NodeState;
use lrc_envelope::{LockGrant, Message, News};
use lrc_lock::Pass;
use lrc_mail::Letter;
use std::alloc::AllocError;

impl NodeState<'_> {
    /// Returns the grant of a pass, if there is one.
    pub(crate) fn grants(&mut self, pass: Option<Pass>) -> Result<Vec<Letter>, AllocError>
        requires pass { IfSome pass (IsPass self.old.setting.me self.old.setting.nodes) }
        requires lock { IfSome pass (λ pass. pass.lock < MOST_LOCKS) }
        ensures letters { IfOk result (λ letters. letters.items ≡ grants_of self.old pass) }
        ensures to { IfOk result (λ letters. AreFor self.old.setting.nodes letters.items) }
        ensures same { self.new ≡ self.old }
    {
        let Some(pass) = pass else {
            return Ok(Vec::new(self.alloc));
        };
        let intervals = self.memory.newer(&pass.since, &pass.upto)?;
        let news = News {
            time: pass.upto,
            intervals,
        };
        let lock = pass.lock;
        self.letter(pass.to, Message::LockGrant(LockGrant { lock, news }))
    }
}
