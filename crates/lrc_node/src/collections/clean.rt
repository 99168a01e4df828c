// How a node brings the pages that it keeps up to date, and tells that its copies are clean.

ghost use Rattle.std.specs.Prelude.{◌≡◌, ◌≢◌, All, AllPairs, IfOk, OnOk, [], fold};
ghost use Rattle.std.specs.List.{list_all};
ghost use Rattle.lrc_memory.specs.View.{SameMemory, with_known};
ghost use Rattle.lrc_protocol.specs.Pages.{is_met, repaired};
ghost use Rattle.lrc_protocol.specs.Barriers.{with_base};
ghost use Rattle.lrc_protocol.specs.Node.{upkeep};
ghost use Rattle.lrc_protocol.specs.Turn.{cleans, keeps_up};
ghost use Rattle.lrc_node.specs.Effects.{CanGoOn};
ghost use Rattle.lrc_node.specs.Keeping.{CanClean, CanKeep, CanMend};
ghost use Rattle.lrc_node.specs.State.{seen_effect, AreFor};

use crate::state::NodeState;
use crate::turn::Effect;
use lrc_envelope::{Clean, Message};
use lrc_mail::Letter;
use lrc_memory::Memory;
use lrc_need::{Collection, Need, Wait};
use std::alloc::AllocError;

// Whether all has come that these pages need.
fn are_met(needs: &[Need]) -> bool
    ensures { result ≡ list_all is_met needs.now }
{
    needs.iter().all(|need| need.is_met())
}

// Repairs these pages, for which all has come. No two are the same.
fn mend_all(memory: &mut Memory, needs: &[Need])
    requires apart { AllPairs (λ a b. a.page ≢ b.page) needs.now }
    requires can { All (CanMend memory.old.size memory.old.memory) needs.now }
    ensures mended { memory.new ≡ with_known memory.old
        (fold repaired memory.old.memory needs.now) }
    ensures same { SameMemory memory.old memory.new }
{
    for need in needs {
        memory.mend(need);
    }
}

// Keeps base copies of these pages.
fn keep_all(memory: &mut Memory, pages: &[u16]) -> Result<(), AllocError>
    requires { All (CanKeep memory.old.memory) pages.now }
    ensures kept { OnOk result (memory.new ≡ with_known memory.old
        (fold with_base memory.old.memory pages.now)) }
    ensures same { SameMemory memory.old memory.new }
{
    for page in pages {
        memory.keep_base(*page)?;
    }
    Ok(())
}

impl NodeState<'_> {
    // Repairs the pages that the node keeps, for which all has come, and keeps base copies. The node tells node 0 that its
    // copies are clean, and waits for the word to discard.
    fn clean(&mut self, collection: Collection, needs: &[Need]) -> Result<Effect, AllocError>
        requires { CanClean self.old collection.kept needs.now }
        ensures effect { IfOk result (λ effect. cleans self.old collection needs.now
            ≡ seen_effect effect self.new) }
        ensures to { IfOk result (λ effect. AreFor self.new.setting.nodes effect.letters.items) }
    {
        mend_all(&mut self.memory, needs);
        keep_all(&mut self.memory, collection.kept.as_slice())?;
        self.mail.wait_for(Wait::Discard(collection));
        let episode = self.barrier.episode();
        let letters = self.letter(0, Message::Clean(Clean { episode }))?;
        Ok(Effect::sending(letters))
    }

    /// Sends the requests for the pages that the node keeps in a collection, and waits. If everything has arrived, its
    /// copies are clean.
    pub(crate) fn keep_up(
        &mut self,
        collection: Collection,
        needs: Vec<Need>,
        letters: Vec<Letter>,
    ) -> Result<Effect, AllocError>
        requires can { CanGoOn self.old (upkeep collection needs.items) }
        requires to { AreFor self.old.setting.nodes letters.items }
        ensures effect { IfOk result (λ effect. keeps_up letters.items self.old collection
            needs.items ≡ seen_effect effect self.new) }
        ensures to { IfOk result (λ effect. AreFor self.new.setting.nodes effect.letters.items) }
    {
        if are_met(&needs) {
            return self.clean(collection, &needs);
        }
        self.mail.wait_for(Wait::Upkeep(collection, needs));
        Ok(Effect::sending(letters))
    }

    /// Continues a collection after something has arrived for the pages that the node keeps.
    pub(crate) fn go_on_keeping(
        &mut self,
        collection: Collection,
        needs: Vec<Need>,
    ) -> Result<Effect, AllocError>
        requires { CanGoOn self.old (upkeep collection needs.items) }
        ensures effect { IfOk result (λ effect. keeps_up [] self.old collection needs.items
            ≡ seen_effect effect self.new) }
        ensures to { IfOk result (λ effect. AreFor self.new.setting.nodes effect.letters.items) }
    {
        let letters = Vec::new(self.alloc);
        self.keep_up(collection, needs, letters)
    }
}
