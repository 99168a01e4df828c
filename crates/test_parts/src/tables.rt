// The page table of a node: worked values, each state and call, and largest sizes.

ghost use Rattle.std.specs.Prelude.{◌≡◌, ◌<◌, ◌∷◌, IfOk, OnOk, length, []};
ghost use Rattle.lrc_page.specs.Place.{page_of};
ghost use Rattle.lrc_table.specs.Table.{copy_at, fresh_table, with_copy, with_each};
ghost use Rattle.lrc_table.specs.PageCopy.{closed, settled};

use crate::checks::holds;
use lrc_page::{Changes, Page, Size};
use lrc_table::{PageTable, State};
use std::alloc::{AllocError, Global};

/// How many changes there are, and the offset and the value of the last; zeros where there is none.
fn summary(changes: Option<Changes>) -> Option<(usize, u8, u64)> {
    let Some(changes) = changes else {
        return None;
    };
    let count = changes.len();
    if count == 0 {
        return Some((0, 0, 0));
    }
    let last = changes.at(count - 1);
    Some((count, last.offset, last.value))
}

/// Whether a close names these pages.
fn closes(table: &mut PageTable, wanted: &[u16]) -> Result<bool, AllocError>
    ensures { OnOk result (table.new ≡ with_each table.old closed) }
{
    let pages = table.close()?;
    Ok(pages.as_slice() == wanted)
}

/// Whether a page that is settled has so many changes, of which the last has this offset and value, or none that are known.
fn settles(
    table: &mut PageTable,
    page: u16,
    wanted: Option<(usize, u8, u64)>,
) -> Result<bool, AllocError>
    requires { page < length table.old.copies }
    ensures { OnOk result (table.new ≡ with_copy table.old page
        (settled (copy_at table.old page))) }
{
    let changes = table.settle(page)?;
    Ok(summary(changes) == wanted)
}

/// One change: 7 at offset 0.
fn seven(alloc: Global) -> Result<Changes, AllocError>
    ensures { IfOk result (λ changes. changes ≡ record { offset = 0; value = 7 } ∷ []) }
{
    let mut changes = Changes::empty(alloc);
    changes.push(0, 7)?;
    Ok(changes)
}

/// Whether a page is valid again once it is repaired by this one change, and has its value.
fn is_repaired(alloc: Global, table: &mut PageTable) -> Result<bool, AllocError>
    requires size { table.old.size ≡ Size.Words64 }
    requires pages { length table.old.copies ≡ 2 }
    requires invalid { (copy_at table.old 1).state ≡ State.Invalid }
{
    let missing = vec![in alloc; seven(alloc)?]?;
    table.repair(1, missing.as_slice());
    let states = [table.state(1), table.state(0)];
    Ok(table.read(64) == Some(7) && states == [State::Valid, State::Valid])
}

fn worked_table(alloc: Global, table: &mut PageTable) -> Result<bool, AllocError>
    requires { table.old ≡ fresh_table 65 Size.Words64 }
{
    let written = table.write(64, 5)?;
    let first = [table.state(1), table.state(0)];
    let closed = closes(table, &[1])?;
    let settled = settles(table, 1, Some((1, 0, 5)))?;
    let second = table.state(1);
    table.invalidate(1);
    let refused = table.write(64, 6)?;
    let third = (table.read(64), table.state(1));
    let repaired = is_repaired(alloc, table)?;
    Ok(
        (written, closed, settled, refused, repaired) == (true, true, true, false, true)
            && first == [State::Written, State::Valid]
            && second == State::Valid
            && third == (None, State::Invalid),
    )
}

fn is_worked(alloc: Global) -> Result<bool, AllocError> {
    let mut table = PageTable::new(alloc, 65, Size::Words64)?;
    worked_table(alloc, &mut table)
}

fn settled_pages(table: &mut PageTable) -> Result<bool, AllocError>
    requires { table.old ≡ fresh_table 65 Size.Words64 }
{
    table.write(64, 5)?;
    let closed = closes(table, &[1])?;
    let seen = (table.pending(1), table.read(64));
    let first = settles(table, 1, Some((1, 0, 5)))?;
    let again = settles(table, 1, None)?;
    table.write(64, 6)?;
    table.write(64, 5)?;
    let closed_again = closes(table, &[1])?;
    let silent = settles(table, 1, Some((0, 0, 0)))?;
    Ok([closed, first, again, closed_again, silent] == [true; 5] && seen == (true, Some(5)))
}

fn are_settled(alloc: Global) -> Result<bool, AllocError> {
    let mut table = PageTable::new(alloc, 65, Size::Words64)?;
    settled_pages(&mut table)
}

fn earlier_pages(table: &mut PageTable) -> Result<bool, AllocError>
    requires { table.old ≡ fresh_table 257 Size.Words256 }
{
    table.write(0, 1)?;
    let first = closes(table, &[0])?;
    table.write(256, 2)?;
    let pending = [table.pending(0), table.pending(1)];
    let second = closes(table, &[1])?;
    let settled = [
        settles(table, 0, Some((1, 0, 1)))?,
        settles(table, 1, Some((1, 0, 2)))?,
    ];
    table.write(255, 3)?;
    let third = closes(table, &[0])?;
    table.drop_twins();
    let dropped = settles(table, 0, None)?;
    Ok(
        [first, second, third, dropped] == [true; 4]
            && pending == [true, false]
            && settled == [true, true]
            && table.read(255) == Some(3),
    )
}

fn are_earlier_kept(alloc: Global) -> Result<bool, AllocError> {
    let mut table = PageTable::new(alloc, 257, Size::Words256)?;
    earlier_pages(&mut table)
}

fn base_copies(table: &mut PageTable) -> Result<bool, AllocError>
    requires { table.old ≡ fresh_table 1 Size.Words64 }
{
    table.write(0, 1)?;
    let closed = closes(table, &[0])?;
    table.keep_base(0)?;
    let pending = table.pending(0);
    table.drop_twins();
    table.write(0, 2)?;
    let kept = table.base(0).and_then(|page| page.words().first().copied());
    let read = table.read(0);
    table.drop_base(0);
    Ok(closed && pending && (kept, read) == (Some(1), Some(2)) && table.base(0).is_none())
}

fn are_bases_kept(alloc: Global) -> Result<bool, AllocError> {
    let mut table = PageTable::new(alloc, 1, Size::Words64)?;
    base_copies(&mut table)
}

/// A page of 64 words with 9 at offset 1.
fn nine() -> Page
    ensures { length result ≡ 64 }
{
    let mut words = [0; 64];
    words[1] = 9;
    Page::with_words(Size::Words64, words.as_slice())
}

/// Installs page 1.
fn install(table: &mut PageTable)
    requires size { table.old.size ≡ Size.Words64 }
    requires pages { length table.old.copies ≡ 2 }
    requires absent { (copy_at table.old 1).state ≡ State.Absent }
    ensures size { table.new.size ≡ Size.Words64 }
    ensures pages { length table.new.copies ≡ 2 }
    ensures invalid { (copy_at table.new 1).state ≡ State.Invalid }
{
    table.install(1, nine());
}

/// Whether page 1 is valid and has both words once it is patched by one change and repaired by none.
fn is_patched(alloc: Global, table: &mut PageTable) -> Result<bool, AllocError>
    requires size { table.old.size ≡ Size.Words64 }
    requires pages { length table.old.copies ≡ 2 }
    requires invalid { (copy_at table.old 1).state ≡ State.Invalid }
{
    let missing = seven(alloc)?;
    table.patch(1, &missing);
    let none: [Changes; 0] = [];
    table.repair(1, none.as_slice());
    let words = [table.read(64), table.read(65)];
    Ok(table.state(1) == State::Valid && words == [Some(7), Some(9)])
}

fn absent_page(alloc: Global, table: &mut PageTable) -> Result<bool, AllocError>
    requires { table.old ≡ fresh_table 65 Size.Words64 }
{
    table.invalidate(1);
    table.invalidate(1);
    table.drop_invalid();
    let first = (table.state(1), table.state(0), table.read(64));
    let refused = table.write(64, 1)?;
    table.invalidate(1);
    let second = table.state(1);
    install(table);
    let third = (table.state(1), table.read(65));
    let patched = is_patched(alloc, table)?;
    Ok(
        (refused, patched) == (false, true)
            && first == (State::Absent, State::Valid, None)
            && second == State::Absent
            && third == (State::Invalid, None),
    )
}

fn is_fetched(alloc: Global) -> Result<bool, AllocError> {
    let mut table = PageTable::new(alloc, 65, Size::Words64)?;
    absent_page(alloc, &mut table)
}

/// Writes its number and one more to a word, where its page is not pending.
fn put(table: &mut PageTable, word: u32) -> Result<(), AllocError>
    requires in_range { word < 65536 }
    requires on_a_page { page_of word table.old.size < length table.old.copies }
    ensures size { table.new.size ≡ table.old.size }
    ensures pages { length table.new.copies ≡ length table.old.copies }
{
    let page = lrc_page::page_of(word, table.size());
    if !table.pending(page) {
        table.write(word, u64::from(word) + 1)?;
    }
    Ok(())
}

/// Whether a write to every word of 1,024 pages of 64 words has a close name as many pages, and the last so many changes.
fn pages_of_64_fill(table: &mut PageTable) -> Result<bool, AllocError>
    requires { table.old ≡ fresh_table 65536 Size.Words64 }
{
    for word in 0..65_536 {
        put(table, word)?;
    }
    let closed = table.close()?.len();
    Ok(closed == 1024 && settles(table, 1023, Some((64, 63, 65_536)))?)
}

/// The same of 256 pages of 256 words.
fn pages_of_256_fill(table: &mut PageTable) -> Result<bool, AllocError>
    requires { table.old ≡ fresh_table 65536 Size.Words256 }
{
    for word in 0..65_536 {
        put(table, word)?;
    }
    let closed = table.close()?.len();
    Ok(closed == 256 && settles(table, 255, Some((256, 255, 65_536)))?)
}

fn small_fill(alloc: Global) -> Result<bool, AllocError> {
    let mut table = PageTable::new(alloc, 65_536, Size::Words64)?;
    pages_of_64_fill(&mut table)
}

fn large_fill(alloc: Global) -> Result<bool, AllocError> {
    let mut table = PageTable::new(alloc, 65_536, Size::Words256)?;
    pages_of_256_fill(&mut table)
}

#[test]
fn tables_are_as_worked(rt: HostRuntime) {
    let alloc = rt.alloc();
    holds(&rt, "keeps the worked table", is_worked(alloc) == Ok(true));
    holds(
        &rt,
        "settles the worked pages",
        are_settled(alloc) == Ok(true),
    );
    holds(
        &rt,
        "keeps earlier pending pages",
        are_earlier_kept(alloc) == Ok(true),
    );
    holds(&rt, "keeps base copies", are_bases_kept(alloc) == Ok(true));
    holds(&rt, "fetches an absent page", is_fetched(alloc) == Ok(true));
}

#[test]
fn holds_the_most_words(rt: HostRuntime) {
    holds(&rt, "of 64", small_fill(rt.alloc()) == Ok(true));
    holds(&rt, "of 256", large_fill(rt.alloc()) == Ok(true));
}
