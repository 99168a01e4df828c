// Which node keeps each page at a collection.

ghost use Rattle.std.specs.Prelude.{◌≡◌, ◌≤◌, ◌==◌, ℕ, IfOk, OnOk, length};
ghost use Rattle.lrc_time.specs.Time.{entry};
ghost use Rattle.lrc_exact.specs.Rule.{names_between};
ghost use Rattle.lrc_exact_copies.specs.Made.{has, in_row, row_of};
ghost use Rattle.lrc_exact_judge.specs.Keepers.{AddsKeeper, AreKeepers};

use lrc_exact_copies::made::Made;
use lrc_time::Time;
use std::alloc::{AllocError, Global};
use std::collections::BTreeMap;

/// For each page that is named by an interval above the first time, up to the last, the lowest node that has one.
pub fn keepers_of(
    alloc: Global,
    made: &[Vec<Made>],
    dropped: &Time,
    all: &Time,
) -> Result<BTreeMap<u32, u8>, AllocError>
    requires long { length dropped.now ≡ length all.now }
    requires rows { length made.now ≡ length all.now }
    requires there { (node : ℕ) → entry all.now node ≤ length (row_of made.now node) }
    ensures { IfOk result (λ keepers. AreKeepers (length all.now) made.now dropped.now all.now keepers) }
{
    let mut keepers = BTreeMap::new(alloc);
    for node in 0..all.nodes() {
        let row = made[usize::from(node)].as_slice();
        add_row(&mut keepers, row, node, dropped.at(node), all.at(node))?;
    }
    Ok(keepers)
}

// The node keeps the pages that its intervals above the first index, up to the last, name, and that no other keeps.
fn add_row(
    keepers: &mut BTreeMap<u32, u8>,
    row: &[Made],
    node: u8,
    first: u32,
    last: u32,
) -> Result<(), AllocError>
    requires { last ≤ length row.now }
    ensures { OnOk result (AddsKeeper node (λ page. names_between (in_row row.now) page first last)
        keepers.old keepers.new) }
{
    for index in first..last {
        add_pages(keepers, &row[index as usize].pages, node)?;
    }
    Ok(())
}

fn add_pages(keepers: &mut BTreeMap<u32, u8>, pages: &[u32], node: u8) -> Result<(), AllocError>
    ensures { OnOk result (AddsKeeper node (has pages.now) keepers.old keepers.new) }
{
    for page in pages {
        add_page(keepers, *page, node)?;
    }
    Ok(())
}

fn add_page(keepers: &mut BTreeMap<u32, u8>, page: u32, node: u8) -> Result<(), AllocError>
    ensures { OnOk result (AddsKeeper node (λ p. p == page) keepers.old keepers.new) }
{
    if keepers.get(&page).is_none() {
        keepers.insert(page, node)?;
    }
    Ok(())
}
