// What pages need before they can be read.

ghost use Rattle.std.specs.Prelude.{◌≡◌, ◌<◌, ◌≤◌, All, IfOk, length, map};
ghost use Rattle.lrc_page.specs.declared.TheConstants.{MOST_PAGES};
ghost use Rattle.lrc_protocol.specs.Pages.{asked_of, is_met, awaits_changes, awaits_page, changes_came, page_came};

use crate::asked::{Asked, ask, drop_maker, is_any_of};
use crate::base::Base;
use lrc_envelope::IndexedChanges;
use lrc_page::Page;
use lrc_store::Key;
use std::alloc::{AllocError, Global};
use std::marker::Model;

/// What one page needs before it can be read: a base copy if its copy is absent, the changes that have not arrived yet,
/// and the keys of all changes that the node's copy lacks, in the order in which they are applied.
#[derive(Drop)]
pub struct Need {
    page: u16,
    base: Base,
    asked: Vec<Asked>,
    missing: Vec<Key>,
}

impl Model for Need {
    ghost use Rattle.lrc_protocol.specs.Pages as fetch;

    ghost Value = { fetch.Need };

    ghost use Rattle.lrc_need.specs.Seen.{seen_base};
    ghost use Rattle.lrc_need.specs.Need.{IsNeed};

    ghost view = { λ n. record { page = n.page; base = seen_base n.base; asked = n.asked.items; missing = n.missing.items } };

    ghost invariant = { λ n. IsNeed n.page n.asked.items };
}

impl Need {
    ghost use Rattle.lrc_need.specs.Seen.{seen_base};
    ghost use Rattle.lrc_need.specs.Need.{AreAskable};

    /// Creates the need of a page in a run of `nodes` nodes: this base copy, and the changes of the missing keys, in
    /// this order. Of these, the changes of the unknown keys are asked of their makers.
    pub fn new(
        alloc: Global,
        nodes: u8,
        page: u16,
        base: Base,
        missing: Vec<Key>,
        unknown: &[Key],
    ) -> Result<Self, AllocError>
        requires page { page < MOST_PAGES }
        requires askable { AreAskable unknown.now }
        ensures { IfOk result (λ need. need
            ≡ record {
              page = page;
              base = seen_base base;
              asked = asked_of nodes unknown.now;
              missing =
                  missing.items;
            }) }
    {
        let asked = ask(alloc, nodes, unknown)?;
        Ok(Need {
            page,
            base,
            asked,
            missing,
        })
    }

    /// Does the same, but asks the makers for the changes of all missing keys.
    pub fn asking_all(
        alloc: Global,
        nodes: u8,
        page: u16,
        base: Base,
        missing: Vec<Key>,
    ) -> Result<Self, AllocError>
        requires page { page < MOST_PAGES }
        requires askable { AreAskable missing.items }
        ensures { IfOk result (λ need. need
            ≡ record {
              page = page;
              base = seen_base base;
              asked = asked_of nodes missing.items;
              missing =
                  missing.items;
            }) }
    {
        let asked = ask(alloc, nodes, missing.as_slice())?;
        Ok(Need {
            page,
            base,
            asked,
            missing,
        })
    }

    /// Returns the page that needs this.
    pub fn page(&self) -> u16
        ensures page { result ≡ self.now.page }
        ensures in_range { result < MOST_PAGES }
    {
        self.page
    }

    /// Returns the base copy.
    pub fn base(&self) -> &Base
        ensures { seen_base result.now ≡ self.now.base }
    {
        &self.base
    }

    /// Returns the requested changes that have not arrived yet, by maker, makers ascending.
    pub fn asked(&self) -> &[Asked]
        ensures asked { result.now ≡ self.now.asked }
        ensures some { All (λ a. 1 ≤ length a.indices) result.now }
    {
        self.asked.as_slice()
    }

    /// Returns the keys of all changes that the node's copy lacks, in the order in which they are applied.
    pub fn missing(&self) -> &[Key]
        ensures { result.now ≡ self.now.missing }
    {
        self.missing.as_slice()
    }

    /// Returns whether everything that the page needs has arrived.
    pub fn is_met(&self) -> bool
        ensures { result ≡ is_met self.now }
    {
        self.asked.is_empty() && !matches!(self.base, Base::Due(_))
    }

    /// Returns whether exactly these changes of this page are awaited from this maker.
    pub fn awaits_changes(&self, page: u16, maker: u8, parts: &[IndexedChanges]) -> bool
        ensures { result ≡ awaits_changes page maker (map (λ part. part.index) parts.now) self.now }
    {
        self.page == page && is_any_of(&self.asked, maker, parts)
    }

    /// Returns whether this page is awaited from this keeper.
    pub fn awaits_page(&self, page: u16, keeper: u8) -> bool
        ensures { result ≡ awaits_page page keeper self.now }
    {
        self.page == page && matches!(self.base, Base::Due(asked) if asked == keeper)
    }

    /// Notes that the changes of this page asked of this maker have arrived. A need of another page does not change.
    pub fn take_changes(&mut self, page: u16, maker: u8)
        ensures { self.new ≡ changes_came page maker self.old }
    {
        if self.page == page {
            drop_maker(&mut self.asked, maker);
        }
    }

    /// Notes that the page's base copy has arrived.
    pub fn take_page(&mut self, copy: Box<Page>)
        ensures { self.new ≡ page_came self.old.page copy.value self.old }
    {
        self.base = Base::Come(copy);
    }
}
