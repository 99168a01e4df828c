// What others ask of a node: when it expects that, and what it gives them.

ghost use Rattle.std.specs.Prelude.{◌≡◌, ℕ, ◌<◌, ◌∷◌, [], IfOk, OnOk, is_some, length, map, ◌&&◌, Some, IsTrue};
ghost use Rattle.std.specs.List.{list_all};
ghost use Rattle.lrc_store.specs.Store.{notice_at};
ghost use Rattle.lrc_protocol.specs.Barriers.{base_at};
ghost use Rattle.lrc_protocol.specs.Node.{sends};
ghost use Rattle.lrc_protocol.specs.Turn.{changes_reply_to, page_reply_by, expects_changes_request, expects_page_request};
ghost use Rattle.lrc_memory.specs.View.{SameMemory};
ghost use Rattle.lrc_node.specs.Requests.{part_in};
ghost use Rattle.lrc_node.specs.State.{seen_effect, AreFor};

use crate::state::NodeState;
use crate::turn::Effect;
use lrc_envelope::{
    ChangesReply, ChangesRequest, IndexedChanges, Indices, Message, PageReply, PageRequest, Parts,
};
use lrc_memory::Memory;
use smallvec::SmallVec;
use std::alloc::{AllocError, Global};

// Whether each of these intervals of a node is stored and names the page.
fn has_notices(memory: &Memory, node: u8, page: u16, indices: &[u32]) -> bool
    ensures { result ≡ list_all (λ index.
        is_some (notice_at memory.now.memory.store
        (record { node = node; index = index; page = page }))) indices.now }
{
    for index in indices {
        if !memory.has_notice(node, *index, page) {
            return false;
        }
    }
    true
}

// What a node's own intervals changed in a page.
fn parts_of(
    alloc: Global,
    memory: &mut Memory,
    page: u16,
    indices: &Indices,
) -> Result<Parts, AllocError>
    requires { page < length memory.old.memory.copies }
    ensures parts { IfOk result (λ parts. parts ≡ map (part_in memory.old page) indices.now) }
    ensures memory { OnOk result (memory.new ≡ memory.old) }
    ensures same { SameMemory memory.old memory.new }
{
    let mut parts = SmallVec::new(alloc);
    let asked = indices.as_slice();
    for index in asked {
        let changes = memory.changes_of(page, *index)?;
        // For the proof: the changes ascend.
        let _ascending = changes.len();
        parts.push(IndexedChanges {
            index: *index,
            changes,
        })?;
    }
    Ok(Parts::from_short(parts))
}

impl NodeState<'_> {
    /// Returns whether a request for changes is expected: each index is that of a stored interval of this node that
    /// names the page.
    pub(crate) fn expects_changes_request(&self, m: &ChangesRequest) -> bool
        ensures { result ≡ expects_changes_request self.now m.now }
    {
        m.page < self.pages() && has_notices(&self.memory, self.me, m.page, m.indices.as_slice())
    }

    /// Takes a node's request for changes that this node's intervals made, and replies.
    pub(crate) fn take_changes_request(
        &mut self,
        from: u8,
        request: &ChangesRequest,
    ) -> Result<Effect, AllocError>
        requires from { from < self.old.setting.nodes }
        requires page { request.now.page < length self.old.memory.copies }
        ensures effect { IfOk result (λ effect. sends
            (changes_reply_to self.old from request.now.page request.now.indices ∷ [])
            self.old ≡ seen_effect effect self.new) }
        ensures to { IfOk result (λ effect. AreFor self.new.setting.nodes effect.letters.items) }
    {
        let page = request.page;
        let parts = parts_of(self.alloc, &mut self.memory, page, &request.indices)?;
        let reply = Message::ChangesReply(ChangesReply { page, parts });
        let letters = self.letter(from, reply)?;
        Ok(Effect::sending(letters))
    }

    /// Returns whether a request for a base copy is expected: it is from another node, and the base copy is kept here.
    pub(crate) fn expects_page_request(&self, from: u8, m: &PageRequest) -> bool
        ensures { result ≡ (expects_page_request self.now from m.now
            && is_some (base_at self.now.memory m.now)) }
    {
        m.page < self.pages() && from != self.me && self.memory.base(m.page).is_some()
    }

    /// Takes a node's request for the base copy of a page, and replies.
    pub(crate) fn take_page_request(
        &mut self,
        from: u8,
        request: &PageRequest,
    ) -> Result<Effect, AllocError>
        requires from { from < self.old.setting.nodes }
        requires page { request.now < length self.old.memory.copies }
        requires kept { IsTrue (is_some (base_at self.old.memory request.now)) }
        ensures effect { IfOk result (λ effect. page_reply_by self.old from request.now
            (base_at self.old.memory request.now) ≡ Some (seen_effect effect self.new)) }
        ensures to { IfOk result (λ effect. AreFor self.new.setting.nodes effect.letters.items) }
    {
        let page = request.page;
        let Some(base) = self.memory.base(page) else {
            unreachable!()
        };
        let copy = Box::new(self.alloc, base.copy())?;
        let reply = Message::PageReply(PageReply { page, copy });
        let letters = self.letter(from, reply)?;
        Ok(Effect::sending(letters))
    }
}
