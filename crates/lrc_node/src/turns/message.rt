// Each kind of message: whether a node expects it, and what it does with it.

ghost use Rattle.std.specs.Prelude.{◌≡◌, ◌<◌, IfOk, Some};
ghost use Rattle.lrc_protocol.specs.Follows.{is_expected};
ghost use Rattle.lrc_node.specs.State.{seen_effect, AreFor};
ghost use Rattle.lrc_node.specs.Taking.{CanTake, effect_of};

use crate::state::NodeState;
use crate::turn::Effect;
use lrc_envelope::Message;
use std::alloc::AllocError;

impl NodeState<'_> {
    /// Returns whether the node expects a message from one of the nodes.
    pub(crate) fn expects(&self, from: u8, message: &Message) -> bool
        requires { from < self.now.setting.nodes }
        ensures { result ≡ is_expected self.now from message.now }
    {
        match message {
            Message::LockRequest(m) => self.expects_request(m),
            Message::LockForward(m) => self.expects_forward(from, m),
            Message::LockGrant(m) => self.expects_grant(m),
            Message::Arrive(m) => self.expects_arrival(from, m),
            Message::Depart(m) => self.expects_departure(from, m),
            Message::Clean(m) => self.expects_clean(from, m),
            Message::Discard(m) => self.expects_discard(from, m),
            Message::ChangesRequest(m) => self.expects_changes_request(m),
            Message::ChangesReply(m) => self.expects_changes(from, m),
            Message::PageRequest(m) => self.expects_page_request(from, m),
            Message::PageReply(m) => self.expects_page(from, m),
        }
    }

    /// Does what a node's message asks for. The node must be able to take the message.
    pub(crate) fn take_message(&mut self, from: u8, message: &Message) -> Result<Effect, AllocError>
        requires from { from < self.old.setting.nodes }
        requires can { CanTake self.old from message.now }
        ensures effect { IfOk result (λ effect. effect_of self.old from message.now
            ≡ Some (seen_effect effect self.new)) }
        ensures to { IfOk result (λ effect. AreFor self.new.setting.nodes effect.letters.items) }
    {
        match message {
            Message::LockRequest(m) => self.take_request(from, m),
            Message::LockForward(m) => self.take_forward(m),
            Message::LockGrant(m) => self.take_grant(m),
            Message::Arrive(m) => self.take_arrival(from, m),
            Message::Depart(m) => self.take_departure(m.collect, &m.news),
            Message::Clean(m) => self.take_clean(from, m.episode),
            Message::Discard(_) => self.take_discard(),
            Message::ChangesRequest(m) => self.take_changes_request(from, m),
            Message::ChangesReply(m) => self.take_changes(from, m),
            Message::PageRequest(m) => self.take_page_request(from, m),
            Message::PageReply(m) => self.take_page(m),
        }
    }
}
