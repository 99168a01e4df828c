// What a node waits for.

ghost use Rattle.std.specs.Prelude.{◌≡◌, ◌≢◌, AllPairs, map};
ghost use Rattle.std.specs.List.{list_any, list_all};
ghost use Rattle.std.specs.Option.{option_copied};
ghost use Rattle.lrc_protocol.specs.Pages.{awaits_changes, awaits_page, changes_came, page_came};
ghost use Rattle.lrc_protocol.specs.Node.{is_idle, needs_of, awaits_grant, awaits_departure, collection_of};
ghost use Rattle.lrc_protocol.specs.Follows.{awaits_discard};
ghost use Rattle.lrc_protocol.specs.Turn.{with_needs};

use crate::need::Need;
use lrc_envelope::IndexedChanges;
use lrc_page::{Page, Pages};
use lrc_time::Time;
use std::marker::Model;
use std::slice;

/// A collection under way at a node.
#[derive(Drop)]
pub struct Collection {
    /// The time of the barrier. Intervals up to it are collected.
    pub time: Time,
    /// The pages of which the node keeps a new base copy.
    pub kept: Pages,
}

impl Model for Collection {
    ghost use Rattle.lrc_protocol.specs.Node as mail;
    ghost use Rattle.lrc_protocol.specs.Barriers as barriers;

    ghost Value = { barriers.Collection };

    ghost view = { λ c. record { time = c.time; kept = c.kept } };
}

/// What a node waits for.
#[derive(Drop)]
pub enum Wait {
    Nothing,
    /// The grant of this lock.
    Grant(u8),
    /// The departure from the barrier at which the node has arrived.
    Departure,
    /// What the page of its next access needs.
    Access(Need),
    /// What the pages that the node keeps need, in a collection.
    Upkeep(Collection, Vec<Need>),
    /// The message to discard. The node's copies are clean.
    Discard(Collection),
}

impl Wait {
    ghost use Rattle.lrc_need.specs.Wait.{seen_wait};

    /// Returns whether the node waits for nothing.
    pub fn is_idle(&self) -> bool
        ensures { result ≡ is_idle (seen_wait self.now) }
    {
        matches!(self, Wait::Nothing)
    }

    /// Returns the needs of pages that are not met yet.
    pub fn needs(&self) -> &[Need]
        ensures { result.now ≡ needs_of (seen_wait self.now) }
    {
        match self {
            Wait::Access(need) => slice::from_ref(need),
            Wait::Upkeep(_, needs) => needs.as_slice(),
            Wait::Nothing | Wait::Grant(_) | Wait::Departure | Wait::Discard(_) => &[],
        }
    }

    /// Returns whether this lock's grant is awaited.
    pub fn awaits_grant(&self, lock: u8) -> bool
        ensures { result ≡ awaits_grant lock (seen_wait self.now) }
    {
        matches!(self, Wait::Grant(awaited) if *awaited == lock)
    }

    /// Returns whether the departure is awaited.
    pub fn awaits_departure(&self) -> bool
        ensures { result ≡ awaits_departure (seen_wait self.now) }
    {
        matches!(self, Wait::Departure)
    }

    /// Returns whether the message to discard is awaited.
    pub fn awaits_discard(&self) -> bool
        ensures { result ≡ awaits_discard (seen_wait self.now) }
    {
        matches!(self, Wait::Discard(_))
    }

    /// Returns whether exactly these changes of this page are awaited from this maker.
    pub fn awaits_changes(&self, page: u16, maker: u8, parts: &[IndexedChanges]) -> bool
        ensures { result ≡ list_any (awaits_changes page maker (map (λ part. part.index) parts.now))
            (needs_of (seen_wait self.now)) }
    {
        self.needs()
            .iter()
            .any(|need| need.awaits_changes(page, maker, parts))
    }

    /// Returns whether this page's base copy is awaited from this keeper.
    pub fn awaits_page(&self, page: u16, keeper: u8) -> bool
        ensures { result ≡ list_any (awaits_page page keeper) (needs_of (seen_wait self.now)) }
    {
        self.needs()
            .iter()
            .any(|need| need.awaits_page(page, keeper))
    }

    /// Notes that the changes of this page asked of this maker have arrived.
    pub fn take_changes(&mut self, page: u16, maker: u8)
        ensures { seen_wait self.new ≡ with_needs (changes_came page maker) (seen_wait self.old) }
    {
        match self {
            Wait::Access(need) => need.take_changes(page, maker),
            Wait::Upkeep(_, needs) => take_changes_of_all(needs, page, maker),
            Wait::Nothing | Wait::Grant(_) | Wait::Departure | Wait::Discard(_) => {}
        }
    }

    /// Notes that this page's base copy has arrived. No two needs may be of the same page.
    pub fn take_page(&mut self, page: u16, copy: Box<Page>)
        requires { AllPairs (λ a b. a.page ≢ b.page) (needs_of (seen_wait self.old)) }
        ensures { seen_wait self.new ≡ with_needs (page_came page copy.value) (seen_wait self.old) }
    {
        match self {
            Wait::Access(need) => {
                if need.page() == page {
                    need.take_page(copy);
                }
            }
            Wait::Upkeep(_, needs) => take_page_of_all(needs, page, copy),
            Wait::Nothing | Wait::Grant(_) | Wait::Departure | Wait::Discard(_) => {}
        }
    }
}

// The changes of this page that were asked of this maker have come.
fn take_changes_of_all(needs: &mut [Need], page: u16, maker: u8)
    ensures { needs.new ≡ map (changes_came page maker) needs.old }
{
    for need in needs.iter_mut() {
        need.take_changes(page, maker);
    }
}

// This page's base copy has come. No two needs are of one page.
fn take_page_of_all(needs: &mut [Need], page: u16, copy: Box<Page>)
    requires { AllPairs (λ a b. a.page ≢ b.page) needs.old }
    ensures { needs.new ≡ map (page_came page copy.value) needs.old }
{
    for need in needs.iter_mut() {
        if need.page() == page {
            need.take_page(copy);
            return;
        }
    }
}
