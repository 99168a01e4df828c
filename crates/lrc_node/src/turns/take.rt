// How a node takes a message.

ghost use Rattle.std.specs.Prelude.{◌≡◌, ◌⊎◌, ◌<◌, true, false, IfErr, IfOk, Err};
ghost use Rattle.lrc_node_laws.specs.Reached.{IsReached};
ghost use Rattle.lrc_protocol.specs.Turn.{done, is_addressed, is_repeat, take_turn, taking, unexpected, worn};
ghost use Rattle.lrc_protocol.specs.Follows.{is_expected};
ghost use Rattle.lrc_protocol.specs.Turn.{turn_or};
ghost use Rattle.lrc_node.specs.Taking.{effect_of};
ghost use Rattle.lrc_node.specs.Node.{is_turn};
ghost use Rattle.lrc_node.specs.Taken.{RefusesTake};
ghost use Rattle.lrc_node.specs.declared.fault.NodeFault.TheVariants.{NoMemory, Unexpected, Worn};

use crate::fault::NodeFault;
use crate::state::NodeState;
use lrc_envelope::Envelope;
use lrc_log::Turn;

impl NodeState<'_> {
    /// Takes a message. A repeat of a message that was taken is an empty turn. It fails with `Unexpected`, and changes
    /// nothing, if the message is for another node, from no node of the run, or not expected; and with `Worn` if a
    /// number would be too large.
    pub(crate) fn take(&mut self, envelope: &Envelope) -> Result<Turn, NodeFault>
        requires { IsReached self.old }
        ensures done { IfOk result (λ turn. take_turn self.old envelope.now ≡ done turn self.new) }
        ensures refused { IfErr result (λ fault. RefusesTake
            (take_turn self.old envelope.now) self.old fault self.new) }
        ensures unexpected { take_turn self.old envelope.now ≡ unexpected
            → result ≡ Err Unexpected }
    {
        let from = envelope.from;
        if !self.is_addressed(envelope) {
            return Err(NodeFault::Unexpected);
        }
        if self.is_repeat(envelope) {
            return Ok(Turn {
                act: None,
                out: Vec::new(self.alloc),
            });
        }
        if !self.expects(from, &envelope.message) {
            return Err(NodeFault::Unexpected);
        }
        self.take_anew(envelope)
    }

    /// Returns whether a message is taken, if numbers that are too large are left aside: it is for this node, from one
    /// of the nodes, and was taken before or is expected.
    pub(crate) fn awaits(&self, envelope: &Envelope) -> bool
        ensures { result ≡ is_turn (take_turn self.now envelope.now) }
    {
        let from = envelope.from;
        let addressed = self.is_addressed(envelope);
        if !addressed {
            return false;
        }
        let repeat = self.is_repeat(envelope);
        if repeat {
            return true;
        }
        self.expects(from, &envelope.message)
    }

    // Whether a message is for this node, and from one of the nodes.
    fn is_addressed(&self, envelope: &Envelope) -> bool
        ensures addressed { result ≡ is_addressed self.now envelope.now }
        ensures from { result ≡ true → envelope.now.from < self.now.setting.nodes }
    {
        envelope.to == self.me && envelope.from < self.nodes
    }

    // Whether a message from one of the nodes was taken here before.
    fn is_repeat(&self, envelope: &Envelope) -> bool
        requires { envelope.now.from < self.now.setting.nodes }
        ensures { result ≡ is_repeat self.now envelope.now }
    {
        self.mail.was_taken(envelope.from, envelope.number)
    }

    // Takes a message that is expected and was not taken before.
    fn take_anew(&mut self, envelope: &Envelope) -> Result<Turn, NodeFault>
        requires reached { IsReached self.old }
        requires from { envelope.now.from < self.old.setting.nodes }
        requires anew { is_repeat self.old envelope.now ≡ false }
        requires expected { is_expected self.old envelope.now.from envelope.now.message ≡ true }
        ensures done { IfOk result (λ turn. turn_or unexpected
            (effect_of (taking self.old envelope.now) envelope.now.from envelope.now.message)
            ≡ done turn self.new) }
        ensures refused { IfErr result (λ fault.
            ((fault ≡ Worn) × (turn_or unexpected
            (effect_of (taking self.old envelope.now) envelope.now.from envelope.now.message)
            ≡ worn)) ⊎ (fault ≡ NoMemory)) }
    {
        self.mail.note_taken(envelope.from, envelope.number)?;
        let effect = self.take_message(envelope.from, &envelope.message)?;
        self.send(effect)
    }
}
