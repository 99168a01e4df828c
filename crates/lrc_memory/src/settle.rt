// Changes made when they are needed.

ghost use Rattle.std.specs.Prelude.{◌≡◌, ◌<◌, All, OnErr, OnOk, Some, None, length, slice_index};
ghost use Rattle.std.specs.Option.{ForSome};
ghost use Rattle.lrc_page.specs.Page.{words_of};
ghost use Rattle.lrc_store.specs.Store.{notice_at};
ghost use Rattle.lrc_table.specs.PageCopy.{pending_changes, settled};
ghost use Rattle.lrc_table.specs.Table.{copy_at, with_copy};
ghost use Rattle.lrc_memory.specs.Notes.{named_of};
ghost use Rattle.lrc_memory.specs.View.{settled_store};

use crate::memory::PageNote;
use lrc_store::{Key, Store};
use lrc_table::PageTable;
use std::alloc::AllocError;

/// Makes the pending changes of a page, if it has any, and stores them with the notice of the node's own interval that
/// named the page last. On error nothing changes.
pub(crate) fn settle_page(
    table: &mut PageTable,
    store: &mut Store,
    me: u8,
    notes: &[PageNote],
    page: u16,
) -> Result<(), AllocError>
    requires page { page < length table.old.copies }
    requires noted { page < length notes.now }
    requires noticed { ForSome (pending_changes (copy_at table.old page))
        (λ changes. notice_at store.old
        (record { node = me; index = slice_index (named_of notes.now) page; page = page })
        ≡ Some (record { page = page; changes = None })) }
    ensures table { OnOk result (table.new ≡ with_copy table.old page
        (settled (copy_at table.old page))) }
    ensures store { OnOk result (store.new
        ≡ settled_store store.old
        (record { node = me; index = slice_index (named_of notes.now) page; page = page })
        (pending_changes (copy_at table.old page))) }
    ensures err_table { OnErr result (table.new ≡ table.old) }
    ensures err_store { OnErr result (store.new ≡ store.old) }
    ensures sized { ForSome (pending_changes (copy_at table.old page))
        (λ changes. All (λ c. c.offset < words_of table.old.size) changes) }
{
    // For the proof: every copy is whole.
    let _whole = table.size();
    if let Some(changes) = table.settle(page)? {
        let index = notes[usize::from(page)].named;
        store.attach(
            Key {
                node: me,
                index,
                page,
            },
            changes,
        );
    }
    Ok(())
}
