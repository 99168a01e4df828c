// How a node begins a collection.

ghost use Rattle.std.specs.Prelude.{◌≡◌, ◌<◌, All, IfOk, filter, length, map, not};
ghost use Rattle.lrc_protocol.specs.Pages.{is_readable, need_of, copy_at};
ghost use Rattle.lrc_protocol.specs.Barriers.{kept_pages, with_keepers};
ghost use Rattle.lrc_protocol.specs.Node.{with_memory as with_node_memory};
ghost use Rattle.lrc_protocol.specs.Turn.{collects, needs_of_kept};
ghost use Rattle.lrc_node.specs.Keeping.{CanCollect};
ghost use Rattle.lrc_node.specs.State.{seen_effect, AreFor};

use crate::state::NodeState;
use crate::turn::Effect;
use lrc_mail::requests;
use lrc_memory::Memory;
use lrc_need::{Collection, Need};
use lrc_page::Pages;
use lrc_time::Time;
use std::alloc::{AllocError, Global};

// What those of these pages need that may not be read.
fn unread_needs(alloc: Global, memory: &Memory, pages: &[u16]) -> Result<Vec<Need>, AllocError>
    requires { All (λ page. page < length memory.now.memory.copies) pages.now }
    ensures { IfOk result (λ needs. needs.items
        ≡ map (need_of (length memory.now.memory.store.last) memory.now.memory)
        (filter (λ page. not (is_readable (copy_at memory.now.memory page))) pages.now)) }
{
    let mut needs = Vec::new(alloc);
    for page in pages {
        if !memory.is_readable(*page) {
            needs.push(memory.need(*page)?)?;
        }
    }
    Ok(needs)
}

impl NodeState<'_> {
    // Pages that were named since the last collection get new keepers.
    fn take_keepers(&mut self)
        ensures { self.new ≡ with_node_memory self.old (with_keepers self.old.memory) }
    {
        self.memory.take_keepers();
    }

    // The pages of which the node has to keep a base copy anew.
    fn kept_pages(&self) -> Result<Pages, AllocError>
        ensures { IfOk result (λ pages. pages ≡ kept_pages self.now.setting.me self.now.memory) }
    {
        self.memory.kept_pages()
    }

    // What those of the pages that the node keeps need that may not be read.
    fn needs_to_keep(&self, kept: &Pages) -> Result<Vec<Need>, AllocError>
        requires { All (λ page. page < length self.now.memory.copies) kept.now }
        ensures { IfOk result (λ needs. needs.items ≡ needs_of_kept self.now kept.now) }
    {
        unread_needs(self.alloc, &self.memory, kept.as_slice())
    }

    /// Begins a collection up to this time.
    pub(crate) fn collects(&mut self, time: &Time) -> Result<Effect, AllocError>
        requires { CanCollect self.old }
        ensures effect { IfOk result (λ effect. collects time.now self.old
            ≡ seen_effect effect self.new) }
        ensures to { IfOk result (λ effect. AreFor self.new.setting.nodes effect.letters.items) }
    {
        self.take_keepers();
        let kept = self.kept_pages()?;
        let needs = self.needs_to_keep(&kept)?;
        let letters = requests(self.alloc, &needs)?;
        let time = time.copy();
        self.keep_up(Collection { time, kept }, needs, letters)
    }
}
