// Cleans, and the word to discard: when a node expects them, and what it does with them.

ghost use Rattle.std.specs.Prelude.{◌≡◌, ◌<◌, ◌≤◌, IfOk, IsTrue, Some, false, length, option_map, unwrap_or, ◌&&◌, ◌==◌};
ghost use Rattle.std.specs.Prelude.{option_and_then};
ghost use Rattle.std.specs.List.{range_with_len};
ghost use Rattle.lrc_time.specs.Time.{entry};
ghost use Rattle.lrc_exec.specs.declared.machine.Ask.TheVariants.{Barrier};
ghost use Rattle.lrc_memory.specs.Turns.{NoneIsWritten};
ghost use Rattle.lrc_barrier.specs.Barrier.{is_clean};
ghost use Rattle.lrc_protocol.specs.Barriers.{Collection as CollectionRecord};
ghost use Rattle.lrc_protocol.specs.Node.{collection_of, discard};
ghost use Rattle.lrc_protocol.specs.Follows.{awaits_discard};
ghost use Rattle.lrc_protocol.specs.Turn.{discards_to, clean_by, discard_by};
ghost use Rattle.lrc_control.specs.Barrier.{clean_step};
ghost use Rattle.lrc_node.specs.State.{seen_effect, AreFor};
ghost use Rattle.lrc_control.specs.Text.{asked_in};

use crate::state::NodeState;
use crate::turn::Effect;
use lrc_envelope::{Clean, Discard, Message};
use lrc_mail::Letter;
use lrc_need::Wait;
use std::alloc::{AllocError, Global};

// One word to discard for each node.
fn discards(alloc: Global, nodes: u8, episode: u32) -> Result<Vec<Letter>, AllocError>
    requires { 1 ≤ episode }
    ensures letters { IfOk result (λ letters. letters.items
        ≡ discards_to (range_with_len 0 nodes) episode) }
    ensures to { IfOk result (λ letters. AreFor nodes letters.items) }
{
    let mut letters = Vec::new(alloc);
    for to in 0..nodes {
        let message = Message::Discard(Discard { episode });
        letters.push(Letter { to, message })?;
    }
    Ok(letters)
}

impl NodeState<'_> {
    /// Returns whether a Clean is expected: the manager is here and accepts it.
    pub(crate) fn expects_clean(&self, from: u8, m: &Clean) -> bool
        requires { from < self.now.setting.nodes }
        ensures { result ≡ unwrap_or (option_map is_clean (clean_step self.now.barrier from m.now))
            false }
    {
        self.barrier.accepts_clean(from, m.episode)
    }

    /// Takes a Clean: the copies of its sender are clean. With the last Clean, every node is told to discard.
    pub(crate) fn take_clean(&mut self, from: u8, episode: u32) -> Result<Effect, AllocError>
        requires from { from < self.old.setting.nodes }
        requires accepted { IsTrue (unwrap_or (option_map is_clean
            (clean_step self.old.barrier from episode)) false) }
        requires episode { 1 ≤ episode }
        ensures effect { IfOk result (λ effect. option_and_then (clean_by self.old)
            (clean_step self.old.barrier from episode) ≡ Some (seen_effect effect self.new)) }
        ensures to { IfOk result (λ effect. AreFor self.new.setting.nodes effect.letters.items) }
    {
        let letters = match self.barrier.take_clean(from, episode) {
            Some(episode) => discards(self.alloc, self.nodes, episode)?,
            None => Vec::new(self.alloc),
        };
        Ok(Effect::sending(letters))
    }

    /// Returns whether the message to discard is expected. It must be from node 0, for the collection for which this
    /// node has sent its Clean.
    pub(crate) fn expects_discard(&self, from: u8, m: &Discard) -> bool
        ensures { result ≡ ((from == 0) && awaits_discard self.now.mail.wait
            && (m.now == self.now.barrier.episode)) }
    {
        from == 0 && self.mail.wait().awaits_discard() && m.episode == self.barrier.episode()
    }

    /// Ends the collection: the node drops what the collection covers, and makes the depart.
    pub(crate) fn take_discard(&mut self) -> Result<Effect, AllocError>
        requires next { asked_in self.old.course ≡ Some Barrier }
        requires waits { IsTrue (awaits_discard self.old.mail.wait) }
        requires closed { NoneIsWritten self.old.memory }
        requires time { (collection : CollectionRecord) → self.old.mail.wait ≡ discard collection
            → (length collection.time ≡ self.old.setting.nodes)
            × (entry self.old.memory.store.last self.old.setting.me
            ≤ entry collection.time self.old.setting.me) }
        ensures effect { IfOk result (λ effect. discard_by self.old
            (collection_of self.old.mail.wait) ≡ Some (seen_effect effect self.new)) }
        ensures to { IfOk result (λ effect. AreFor self.new.setting.nodes effect.letters.items) }
    {
        let Wait::Discard(collection) = self.mail.stop_waiting() else {
            unreachable!()
        };
        self.memory.collect(&collection.time);
        self.act(Vec::new(self.alloc))
    }
}
