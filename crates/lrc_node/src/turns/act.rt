// The act that a node's text makes next.

ghost use Rattle.std.specs.Prelude.{◌≡◌, ◌<◌, IfOk, OnOk};
ghost use Rattle.lrc_protocol.specs.Node.{acts, with_memory};
ghost use Rattle.lrc_node.specs.Effects.{CanAccess, acted, deed_next, memory_asked, value_asked};
ghost use Rattle.lrc_node.specs.State.{seen_effect, AreFor};
ghost use Rattle.lrc_control.specs.Text.{asked_in};

use crate::state::NodeState;
use crate::turn::Effect;
use lrc_exec::machine::Ask;
use lrc_mail::Letter;
use lrc_trace::act::Deed;
use std::alloc::AllocError;

impl NodeState<'_> {
    // Makes the access that the text asks for next, if it asks for one. The value is what is read, else 0.
    fn access(&mut self, asked: Option<Ask>) -> Result<u64, AllocError>
        requires { CanAccess self.old asked }
        ensures value { IfOk result (λ value. value ≡ value_asked self.old asked) }
        ensures node { OnOk result (self.new ≡ with_memory self.old (memory_asked self.old asked)) }
        ensures setting { self.new.setting ≡ self.old.setting }
    {
        match asked {
            Some(Ask::Read(word)) => Ok(self.memory.read(word).unwrap_or(0)),
            Some(Ask::Write(word, value)) => {
                self.memory.write(word, value)?;
                Ok(0)
            }
            _ => Ok(0),
        }
    }

    // Makes the deed that the text is at, if it has not stopped.
    #[inline(always)]
    fn make_deed(&mut self) -> Result<Option<Deed>, AllocError>
        requires access { CanAccess self.old (asked_in self.old.course) }
        ensures deed { IfOk result (λ deed. deed ≡ deed_next self.old) }
        ensures node { OnOk result (self.new ≡ acted self.old) }
        ensures setting { self.new.setting ≡ self.old.setting }
    {
        let asked = self.text.asked();
        let value = self.access(asked)?;
        Ok(self.text.go_on(asked, value))
    }

    /// Sends these letters, and makes the act that comes next in the text.
    #[inline(always)]
    pub(crate) fn act(&mut self, letters: Vec<Letter>) -> Result<Effect, AllocError>
        requires access { CanAccess self.old (asked_in self.old.course) }
        ensures effect { IfOk result (λ effect. acts letters.items self.old
            ≡ seen_effect effect self.new) }
        ensures letters { IfOk result (λ effect. effect.letters ≡ letters) }
        ensures setting { self.new.setting ≡ self.old.setting }
    {
        let deed = self.make_deed()?;
        Ok(Effect { deed, letters })
    }
}
