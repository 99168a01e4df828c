// Changes and base copies that a node awaits: when it expects them, and what it does with them.

ghost use Rattle.std.specs.Prelude.{◌≡◌, ◌≢◌, AllPairs, IfOk, [], nat_lt};
ghost use Rattle.std.specs.List.{list_all};
ghost use Rattle.lrc_need.specs.Wait.{seen_wait};
ghost use Rattle.lrc_memory.specs.Turns.{AreAwaited};
ghost use Rattle.lrc_protocol.specs.Pages.{changes_came, page_came};
ghost use Rattle.lrc_protocol.specs.Node.{access, needs_of};
ghost use Rattle.lrc_protocol.specs.Turn.{fetches, take_changes, take_page, takes_reply, with_needs, expects_changes_reply};
ghost use Rattle.lrc_protocol.specs.Turn.{expects_page_reply};
ghost use Rattle.lrc_node.specs.Effects.{CanGoOn, with_parts};
ghost use Rattle.lrc_node.specs.State.{seen_effect, AreFor};

use crate::state::NodeState;
use crate::turn::Effect;
use lrc_envelope::{ChangesReply, IndexedChanges, PageReply};
use lrc_need::{Need, Wait};
use lrc_page::Changes;
use std::alloc::AllocError;

// Whether the offsets of all changes are below so many words.
fn are_on_page(words: u16, changes: &Changes) -> bool
    ensures { result ≡ list_all (λ change. nat_lt change.offset words) changes.now }
{
    for place in 0..changes.len() {
        if u16::from(changes.at(place).offset) >= words {
            return false;
        }
    }
    true
}

// Whether the offsets of the changes of all parts are below so many words.
fn all_on_page(words: u16, parts: &[IndexedChanges]) -> bool
    ensures { result ≡ list_all (λ part.
        list_all (λ change. nat_lt change.offset words) part.changes) parts.now }
{
    parts.iter().all(|part| are_on_page(words, &part.changes))
}

impl NodeState<'_> {
    /// Makes the awaited access if everything that its page needs has arrived. Otherwise it goes on waiting.
    pub(crate) fn go_on_with(&mut self, need: Need) -> Result<Effect, AllocError>
        requires { CanGoOn self.old (access need) }
        ensures effect { IfOk result (λ effect. fetches [] self.old need
            ≡ seen_effect effect self.new) }
        ensures to { IfOk result (λ effect. AreFor self.new.setting.nodes effect.letters.items) }
    {
        let letters = Vec::new(self.alloc);
        if need.is_met() {
            self.repair(&need, letters)
        } else {
            Ok(self.await_access(need, letters))
        }
    }

    // Goes on with what is awaited of pages, after something came for it.
    fn go_on(&mut self, wait: Wait) -> Result<Effect, AllocError>
        requires { CanGoOn self.old (seen_wait wait) }
        ensures effect { IfOk result (λ effect. takes_reply self.old (seen_wait wait)
            ≡ seen_effect effect self.new) }
        ensures to { IfOk result (λ effect. AreFor self.new.setting.nodes effect.letters.items) }
    {
        match wait {
            Wait::Access(need) => self.go_on_with(need),
            Wait::Upkeep(collection, needs) => self.go_on_keeping(collection, needs),
            wait => {
                self.mail.wait_for(wait);
                let letters = Vec::new(self.alloc);
                Ok(Effect::sending(letters))
            }
        }
    }

    /// Returns whether changes are expected: exactly these changes of the page are awaited from their sender.
    pub(crate) fn expects_changes(&self, from: u8, m: &ChangesReply) -> bool
        ensures { result ≡ expects_changes_reply self.now from m.now }
    {
        let parts = m.parts.as_slice();
        m.page < self.pages()
            && all_on_page(self.options.size.words(), parts)
            && self.mail.wait().awaits_changes(m.page, from, parts)
    }

    /// Takes changes that were asked of a maker.
    pub(crate) fn take_changes(
        &mut self,
        from: u8,
        reply: &ChangesReply,
    ) -> Result<Effect, AllocError>
        requires awaited { AreAwaited self.old.options.size self.old.memory.store from
            reply.now.page reply.now.parts }
        requires ready { CanGoOn (with_parts from reply.now self.old)
            (with_needs (changes_came reply.now.page from) self.old.mail.wait) }
        ensures effect { IfOk result (λ effect. take_changes self.old from reply.now
            ≡ seen_effect effect self.new) }
        ensures to { IfOk result (λ effect. AreFor self.new.setting.nodes effect.letters.items) }
    {
        self.memory.attach(from, reply.page, &reply.parts)?;
        let mut wait = self.mail.stop_waiting();
        wait.take_changes(reply.page, from);
        self.go_on(wait)
    }

    /// Returns whether a base copy is expected: it is awaited from its sender, and has a value for each word of a page.
    pub(crate) fn expects_page(&self, from: u8, m: &PageReply) -> bool
        ensures { result ≡ expects_page_reply self.now from m.now }
    {
        m.page < self.pages()
            && m.copy.words().len() == usize::from(self.options.size.words())
            && self.mail.wait().awaits_page(m.page, from)
    }

    /// Takes a base copy that was asked of its keeper.
    pub(crate) fn take_page(&mut self, reply: &PageReply) -> Result<Effect, AllocError>
        requires apart { AllPairs (λ a b. a.page ≢ b.page) (needs_of self.old.mail.wait) }
        requires ready { CanGoOn self.old (with_needs
            (page_came reply.now.page reply.now.values) self.old.mail.wait) }
        ensures effect { IfOk result (λ effect. take_page self.old reply.now
            ≡ seen_effect effect self.new) }
        ensures to { IfOk result (λ effect. AreFor self.new.setting.nodes effect.letters.items) }
    {
        let copy = Box::new(self.alloc, reply.copy.copy())?;
        let mut wait = self.mail.stop_waiting();
        wait.take_page(reply.page, copy);
        self.go_on(wait)
    }
}
