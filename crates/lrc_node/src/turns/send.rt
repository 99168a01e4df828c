// How the messages of a turn get their numbers.

ghost use Rattle.std.specs.Prelude.{◌≡◌, ◌⊎◌, IfErr, IfOk, None, OnOk, Some};
ghost use Rattle.lrc_protocol.specs.Node.{numbered};
ghost use Rattle.lrc_protocol.specs.Turn.{done, turn_of, with_sent, worn};
ghost use Rattle.lrc_node.specs.State.{seen_effect, AreFor};
ghost use Rattle.lrc_node.specs.declared.fault.NodeFault.TheVariants.{NoMemory, Worn};

use crate::fault::NodeFault;
use crate::state::NodeState;
use crate::turn::Effect;
use lrc_envelope::Envelope;
use lrc_log::Turn;
use lrc_mail::{Letter, MailFault};
use lrc_trace::act::Act;

impl NodeState<'_> {
    /// Makes the turn of an effect, and numbers its messages. It fails with `Worn` if a number would be too large.
    #[inline(always)]
    pub(crate) fn send(&mut self, effect: Effect) -> Result<Turn, NodeFault>
        requires { AreFor self.old.setting.nodes effect.letters.items }
        ensures sent { IfOk result (λ turn. turn_of (seen_effect effect self.old)
            ≡ done turn self.new) }
        ensures refused { IfErr result (λ fault. ((fault ≡ Worn)
            × (turn_of (seen_effect effect self.old) ≡ worn)) ⊎ (fault ≡ NoMemory)) }
    {
        let node = self.me;
        let act = effect.deed.map(|deed| Act { node, deed });
        // Most turns send nothing.
        if effect.letters.is_empty() {
            let out = Vec::new(self.alloc);
            return Ok(Turn { act, out });
        }
        let out = self.number(effect.letters)?;
        Ok(Turn { act, out })
    }

    /// Keeps a list of messages that are no longer needed, so that the messages of a later turn can reuse its memory.
    pub(crate) fn keep_list(&mut self, out: Vec<Envelope>)
        ensures { self.new ≡ self.old }
    {
        self.mail.keep_list(out);
    }

    // Numbers the letters, and counts them as sent. `Worn` where a number would be too large.
    #[inline(never)]
    fn number(&mut self, letters: Vec<Letter>) -> Result<Vec<Envelope>, NodeFault>
        requires { AreFor self.old.setting.nodes letters.items }
        ensures numbers { IfOk result (λ out.
            numbered self.old.setting.me self.old.options.first self.old.mail.sent letters.items
            ≡ Some (out.items, self.new.mail.sent)) }
        ensures node { OnOk result (self.new ≡ with_sent self.old self.new.mail.sent) }
        ensures refused { IfErr result (λ fault.
            ((fault ≡ Worn) × (numbered self.old.setting.me self.old.options.first
            self.old.mail.sent letters.items ≡ None)) ⊎ (fault ≡ NoMemory)) }
    {
        match self.mail.number(self.me, self.options.first, letters) {
            Ok(out) => Ok(out),
            Err(MailFault::Worn) => Err(NodeFault::Worn),
            Err(MailFault::NoMemory) => Err(NodeFault::NoMemory),
        }
    }
}
