// Pages, changes, sets of pages and sets of words: worked values and largest sizes.

ghost use Rattle.std.specs.Prelude.{◌≡◌, ◌∷◌, IfOk, []};

use crate::checks::holds;
use lrc_page::{Change, Changes, Mask, Page, Pages, Size, offset_of, page_of, pages_of};
use std::alloc::{AllocError, Global};

/// A page of 64 words with 3 at offset 2 and 1 at offset 63.
fn written_twice() -> Page {
    let mut page = Page::zero(Size::Words64);
    if page.size() == Size::Words64 {
        page.set(2, 3);
        page.set(63, 1);
    }
    page
}

/// The change at a place, or one of zero at offset 0 past the end.
fn change_at(changes: &Changes, place: usize) -> Change {
    if place < changes.len() {
        changes.at(place)
    } else {
        Change {
            offset: 0,
            value: 0,
        }
    }
}

fn change(offset: u8, value: u64) -> Change {
    Change { offset, value }
}

/// Whether so many changes turn one page into another, of which these are the first and, at a place, the last.
fn are_between(
    alloc: Global,
    twin: &Page,
    page: &Page,
    count: usize,
    first: Change,
    last: Change,
) -> Result<bool, AllocError> {
    if twin.size() != page.size() {
        return Ok(false);
    }
    let changes = Changes::between(alloc, twin, page)?;
    let second = changes.duplicate()?;
    let ends = (
        change_at(&changes, 0),
        change_at(&changes, count.saturating_sub(1)),
    );
    Ok(changes.len() == count && ends == (first, last) && second == changes)
}

/// The changes of `written_twice`, by hand.
fn two_changes(alloc: Global) -> Result<Changes, AllocError>
    ensures { IfOk result (λ changes. changes
        ≡ record { offset = 2; value = 3 } ∷ record { offset = 63; value = 1 } ∷ []) }
{
    let mut changes = Changes::empty(alloc);
    changes.push(2, 3)?;
    changes.push(63, 1)?;
    Ok(changes)
}

/// Whether the changes of one page into another are these.
fn are_the_changes(
    alloc: Global,
    twin: &Page,
    page: &Page,
    wanted: &Changes,
) -> Result<bool, AllocError> {
    if twin.size() != page.size() {
        return Ok(false);
    }
    let changes = Changes::between(alloc, twin, page)?;
    Ok(*wanted == changes)
}

/// Whether the changes of one page into its equal are none.
fn are_none(alloc: Global, page: &Page) -> Result<bool, AllocError> {
    let none = Changes::between(alloc, page, &page.copy())?;
    Ok(none.is_empty())
}

fn are_worked_changes(alloc: Global) -> Result<bool, AllocError> {
    let zeros = Page::zero(Size::Words64);
    let page = written_twice();
    let pushed = two_changes(alloc)?;
    Ok(
        are_between(alloc, &zeros, &page, 2, change(2, 3), change(63, 1))?
            && are_the_changes(alloc, &zeros, &page, &pushed)?
            && are_none(alloc, &page)?,
    )
}

fn are_applied(alloc: Global) -> Result<bool, AllocError> {
    let mut twin = Page::zero(Size::Words64);
    two_changes(alloc)?.apply(&mut twin);
    Ok(twin == written_twice() && twin != Page::zero(Size::Words256))
}

/// A page of 256 words with 1 at every one.
fn full() -> Page {
    Page::with_words(Size::Words256, [1; 256].as_slice())
}

fn are_all_words(alloc: Global) -> Result<bool, AllocError> {
    let zeros = Page::zero(Size::Words256);
    are_between(alloc, &zeros, &full(), 256, change(0, 1), change(255, 1))
}

/// All 256 changes, by hand.
fn pushed(alloc: Global) -> Result<Changes, AllocError> {
    let mut changes = Changes::empty(alloc);
    for offset in 0..=255 {
        let count = changes.len();
        if count == 0 || changes.at(count - 1).offset < offset {
            changes.push(offset, 1)?;
        }
    }
    Ok(changes)
}

fn are_all_pushed(alloc: Global) -> Result<bool, AllocError> {
    let by_hand = pushed(alloc)?;
    let zeros = Page::zero(Size::Words256);
    are_the_changes(alloc, &zeros, &full(), &by_hand)
}

#[test]
fn places_words(rt: HostRuntime) {
    let small = (
        page_of(65_535, Size::Words64),
        offset_of(65_535, Size::Words64),
        pages_of(65_536, Size::Words64),
    );
    let large = (
        page_of(65_535, Size::Words256),
        offset_of(65_535, Size::Words256),
        pages_of(65_536, Size::Words256),
    );
    let rounded = (
        pages_of(64, Size::Words64),
        pages_of(65, Size::Words64),
        pages_of(257, Size::Words256),
    );
    let words = (Size::Words64.words(), Size::Words256.words());
    assert!(rt;
        small == (1023, 63, 1024)
            && large == (255, 255, 256)
            && rounded == (1, 2, 2)
            && words == (64, 256)
    );
}

#[test]
fn holds_sets_of_words(rt: HostRuntime) {
    let ends = Mask::none().with(0).with(255);
    let middle = Mask::none().with(64).with(191);
    let seen = [
        ends.has(0),
        ends.has(63),
        ends.has(64),
        ends.has(255),
        middle.has(64),
        middle.has(191),
        middle.has(0),
    ];
    let meeting = [
        ends.meets(&middle),
        ends.meets(&Mask::none()),
        ends.meets(&middle.with(255)),
    ];
    assert!(rt;
        seen == [true, false, false, true, true, true, false] && meeting == [false, false, true]
    );
}

/// Pages 0, 7 and 1023.
fn three_pages(alloc: Global) -> Result<Pages, AllocError> {
    let mut pages = Pages::empty(alloc);
    pages.push(0)?;
    pages.push(7)?;
    pages.push(1023)?;
    Ok(pages)
}

/// Whether these are three pages, of which a duplicate is equal, and none once they are cleared.
fn are_three(pages: &mut Pages) -> Result<bool, AllocError> {
    let three = pages.as_slice() == [0, 7, 1023].as_slice();
    let second = pages.duplicate()?;
    let same = second == *pages;
    pages.clear();
    Ok(three && same && pages.is_empty() && *pages != second)
}

fn is_a_set(alloc: Global) -> Result<bool, AllocError> {
    let mut pages = three_pages(alloc)?;
    are_three(&mut pages)
}

/// All pages, put in from the last to the first.
fn every_page(alloc: Global) -> Result<Pages, AllocError> {
    let mut pages = Pages::empty(alloc);
    for back in 0..1024 {
        put(&mut pages, 1023 - back)?;
    }
    Ok(pages)
}

/// Puts a page in, where it is below the first.
fn put(pages: &mut Pages, page: u16) -> Result<(), AllocError> {
    if page < 1024 && !pages.as_slice().contains(&page) {
        pages.insert(page)?;
    }
    Ok(())
}

/// All pages, from the first to the last.
fn every_page_in_order(alloc: Global) -> Result<Pages, AllocError> {
    let mut pages = Pages::empty(alloc);
    for page in 0..1024u16 {
        if pages.as_slice().last().is_none_or(|last| *last < page) {
            pages.push(page)?;
        }
    }
    Ok(pages)
}

/// Whether these pages are equal to all, pushed in order, and to a duplicate of those.
fn are_pushed(alloc: Global, pages: &Pages) -> Result<bool, AllocError> {
    let pushed = every_page_in_order(alloc)?;
    let second = pushed.duplicate()?;
    Ok(pushed == *pages && second == *pages)
}

fn are_at_their_places(alloc: Global) -> Result<bool, AllocError> {
    let pages = every_page(alloc)?;
    Ok(pages.as_slice().iter().copied().eq(0..1024u16) && are_pushed(alloc, &pages)?)
}

#[test]
fn changes_and_sets_are_as_worked(rt: HostRuntime) {
    let alloc = rt.alloc();
    holds(
        &rt,
        "finds the worked changes",
        are_worked_changes(alloc) == Ok(true),
    );
    holds(
        &rt,
        "applies the worked changes",
        are_applied(alloc) == Ok(true),
    );
    holds(
        &rt,
        "changes every word of the larger page",
        are_all_words(alloc) == Ok(true),
    );
    holds(
        &rt,
        "pushes every word of the larger page",
        are_all_pushed(alloc) == Ok(true),
    );
    holds(&rt, "holds sets of pages", is_a_set(alloc) == Ok(true));
    holds(
        &rt,
        "puts pages at their places",
        are_at_their_places(alloc) == Ok(true),
    );
}
