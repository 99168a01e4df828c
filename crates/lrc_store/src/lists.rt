// The lists that run through a store.

ghost use Rattle.std.specs.Prelude.{◌≡◌, ◌<◌, length, slice_get, None, Some, option_and_then};
ghost use Rattle.std.specs.Option.{ForSome, option_copied};
ghost use Rattle.lrc_page.specs.Pages.{IsRising};
ghost use Rattle.lrc_store.specs.Lists.{interval_at, key_at, newest_of, before_of, first_notice_of};
ghost use Rattle.lrc_store.specs.Lists.{next_in_interval_of, first_on_page_of, next_on_page_of, notices_of};
ghost use Rattle.lrc_store.specs.Store.{attached, changes_at, intervals_of, notice_at};

use crate::key::Key;
use crate::link::{IntervalAt, NoticeAt};
use crate::store::Store;
use lrc_page::Changes;

impl Store {
    /// Returns the newest interval of a node, or none if there is none.
    pub fn newest(&self, node: u8) -> Option<IntervalAt>
        ensures newest { result ≡ newest_of self.now node }
        ensures in_use { ForSome result (λ at. at < length (intervals_of self.now)) }
    {
        let place = self.links.by_node.first(u16::from(node))?;
        Some(IntervalAt { place })
    }

    /// Returns the interval of the same node that was added before the given one, or none if there is none.
    pub fn before(&self, at: IntervalAt) -> Option<IntervalAt>
        requires { at < length (intervals_of self.now) }
        ensures before { result ≡ before_of self.now at }
        ensures in_use { ForSome result (λ earlier. earlier < at) }
    {
        let place = self.links.by_node.next(at.place)?;
        Some(IntervalAt { place })
    }

    /// Returns the first notice of an interval in the order of pages, or none if it wrote no page.
    pub fn first_notice(&self, at: IntervalAt) -> Option<NoticeAt>
        requires { at < length (intervals_of self.now) }
        ensures first { result ≡ first_notice_of self.now at }
        ensures in_use { ForSome result (λ notice. notice < length (notices_of self.now)) }
        ensures ascending { ForSome (slice_get (intervals_of self.now) at)
            (λ interval. IsRising interval.pages) }
    {
        if self.arena.interval(at.place as usize).pages.is_empty() {
            return None;
        }
        let place = self.links.by_node.start(at.place);
        Some(NoticeAt { place })
    }

    /// Returns the next notice of the same interval in the order of pages, or none after the last.
    pub fn next_in_interval(&self, at: NoticeAt) -> Option<NoticeAt>
        requires { at < length (notices_of self.now) }
        ensures next { result ≡ next_in_interval_of self.now at }
        ensures in_use { ForSome result (λ notice. notice < length (notices_of self.now)) }
    {
        // For the proof: there are at most `MOST_ENTRIES` notices.
        let _few = self.links.by_page.len();
        let here = self.key(at)?;
        let after = NoticeAt {
            place: at.place + 1,
        };
        let key = self.key(after)?;
        if here.is_of_one_with(key) {
            Some(after)
        } else {
            None
        }
    }

    /// Returns the newest notice of a page, or none if there is none.
    pub fn first_on_page(&self, page: u16) -> Option<NoticeAt>
        ensures first { result ≡ first_on_page_of self.now page }
        ensures in_use { ForSome result (λ at. at < length (notices_of self.now)) }
    {
        let place = self.links.by_page.first(page)?;
        Some(NoticeAt { place })
    }

    /// Returns the notice of the same page that was added before the given one, or none if there is none.
    pub fn next_on_page(&self, at: NoticeAt) -> Option<NoticeAt>
        requires { at < length (notices_of self.now) }
        ensures next { result ≡ next_on_page_of self.now at }
        ensures in_use { ForSome result (λ earlier. earlier < at) }
    {
        let place = self.links.by_page.next(at.place)?;
        Some(NoticeAt { place })
    }

    /// Returns the node and the index of an interval, or none if there is nothing at the link's place.
    pub fn interval(&self, at: IntervalAt) -> Option<(u8, u32)>
        ensures { result ≡ interval_at self.now at }
    {
        let place = at.place as usize;
        if place < self.arena.len() {
            let interval = self.arena.interval(place);
            Some((interval.node(), interval.index()))
        } else {
            None
        }
    }

    /// Returns the key of a notice, or none if there is nothing at the link's place.
    pub fn key(&self, at: NoticeAt) -> Option<Key>
        ensures { result ≡ key_at self.now at }
    {
        let place = at.place as usize;
        if place < self.arena.noted() {
            Some(self.arena.notice(place).1)
        } else {
            None
        }
    }

    /// Returns the changes of a notice, or none if they are not known or there is nothing at the link's place.
    pub fn changes_at(&self, at: NoticeAt) -> Option<&Changes>
        ensures { option_copied result ≡ option_and_then (changes_at self.now)
            (key_at self.now at) }
    {
        let key = self.key(at)?;
        self.changes(key)
    }

    /// Keeps the changes of a notice that has none yet.
    pub fn attach_at(&mut self, at: NoticeAt, changes: Changes)
        requires in_use { at < length (notices_of self.old) }
        requires without { ForSome (key_at self.old at)
            (λ key. notice_at self.old key ≡ Some (record { page = key.page; changes = None })) }
        ensures { ForSome (key_at self.old at) (λ key. self.new ≡ attached self.old key changes) }
    {
        if let Some(key) = self.key(at) {
            self.attach(key, changes);
        }
    }
}
