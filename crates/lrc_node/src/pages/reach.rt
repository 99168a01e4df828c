// Accesses: hits, and misses, at which a node fetches what it lacks.

ghost use Rattle.std.specs.Prelude.{◌≡◌, ◌<◌, All, IfOk, length, true, false};
ghost use Rattle.lrc_memory.specs.Turns.{is_mendable};
ghost use Rattle.lrc_protocol.specs.Pages.{is_met, repaired, copy_at};
ghost use Rattle.lrc_protocol.specs.Node.{nothing, acts, waiting, with_memory};
ghost use Rattle.lrc_protocol.specs.Turn.{fetches, reaches, requests_of};
ghost use Rattle.lrc_node.specs.Effects.{AccessesPage};
ghost use Rattle.lrc_node.specs.State.{seen_effect, AreFor};
ghost use Rattle.lrc_control.specs.Text.{asked_in};

use crate::state::NodeState;
use crate::turn::Effect;
use lrc_mail::{Letter, put_requests};
use lrc_need::{Need, Wait};
use std::alloc::AllocError;

impl NodeState<'_> {
    /// Makes the next access, which is to this page, at once if its copy may be read. On a miss the node asks for what
    /// the page needs, and waits. If nothing has to be asked, it repairs the page and goes on.
    pub(crate) fn reach(&mut self, page: u16) -> Result<Effect, AllocError>
        requires page { page < length self.old.memory.copies }
        requires next { AccessesPage self.old page (asked_in self.old.course) }
        ensures effect { IfOk result (λ effect. reaches self.old page
            ≡ seen_effect effect self.new) }
        ensures to { IfOk result (λ effect. AreFor self.new.setting.nodes effect.letters.items) }
    {
        if self.memory.is_readable(page) {
            return self.act(Vec::new(self.alloc));
        }
        let need = self.memory.need(page)?;
        let letters = self.requests_for(&need)?;
        if need.is_met() {
            self.repair(&need, letters)
        } else {
            Ok(self.await_access(need, letters))
        }
    }

    // The requests for what a page needs, in a list of the node's.
    fn requests_for(&mut self, need: &Need) -> Result<Vec<Letter>, AllocError>
        ensures letters { IfOk result (λ letters. letters.items ≡ requests_of need.now) }
        ensures same { self.new ≡ self.old }
    {
        let mut letters = self.mail.letters();
        put_requests(need, &mut letters)?;
        Ok(letters)
    }

    /// Repairs a page for which everything has arrived, and makes the next access.
    pub(crate) fn repair(&mut self, need: &Need, letters: Vec<Letter>) -> Result<Effect, AllocError>
        requires page { need.now.page < length self.old.memory.copies }
        requires fit { is_mendable self.old.options.size
            (copy_at self.old.memory need.now.page) need.now.base ≡ true }
        requires of_page { All (λ key. key.page ≡ need.now.page) need.now.missing }
        requires next { AccessesPage self.old need.now.page (asked_in self.old.course) }
        ensures effect { IfOk result (λ effect.
            acts letters.items (waiting nothing
            (with_memory self.old (repaired self.old.memory need.now)))
            ≡ seen_effect effect self.new) }
        ensures letters { IfOk result (λ effect. effect.letters ≡ letters) }
        ensures setting { self.new.setting ≡ self.old.setting }
    {
        self.memory.mend(need);
        self.mail.wait_for(Wait::Nothing);
        self.act(letters)
    }

    /// Sends the requests for a page, and waits.
    pub(crate) fn await_access(&mut self, need: Need, letters: Vec<Letter>) -> Effect
        requires { is_met need ≡ false }
        ensures effect { fetches letters.items self.old need ≡ seen_effect result self.new }
        ensures letters { result.letters ≡ letters }
        ensures setting { self.new.setting ≡ self.old.setting }
    {
        self.mail.wait_for(Wait::Access(need));
        Effect::sending(letters)
    }
}
