// Tables of the best starts of chains.
ghost use Rattle.std.specs.Prelude.{◌≡◌, ℕ, ◌<◌, ◌≤◌, OnOk, length};
ghost use Rattle.lrc_chains.specs.Table.{start_at, start_in, IsGained, IsGainedIn};

use crate::starts::{Start, better};
use std::alloc::{AllocError, Global};

/// Returns the start at this index of a row; past its end there is none.
pub fn start_at(row: &[Option<Start>], index: usize) -> Option<Start>
    ensures { result ≡ start_at row.now index }
{
    match row.get(index) {
        Some(start) => *start,
        None => None,
    }
}

/// Sets the start at this index of a row to the better of that and this one. It fails if memory runs out.
pub fn gain(
    row: &mut Vec<Option<Start>>,
    index: usize,
    start: Option<Start>,
) -> Result<(), AllocError>
    ensures { OnOk result (IsGained row.old.items row.new.items index start) }
{
    let best = better(start, start_at(row.as_slice(), index));
    while row.len() <= index {
        row.push(None)?;
    }
    row[index] = best;
    Ok(())
}

/// Returns the start at this index of a row of a table; where there is no such row, there is none.
pub fn start_in(rows: &[Vec<Option<Start>>], row: usize, index: usize) -> Option<Start>
    ensures { result ≡ start_in rows.now row index }
{
    match rows.get(row) {
        Some(row) => start_at(row.as_slice(), index),
        None => None,
    }
}

// Makes the row, where there is none.
fn reach(alloc: Global, rows: &mut Vec<Vec<Option<Start>>>, row: usize) -> Result<(), AllocError>
    ensures { OnOk result ((row < length rows.new.items)
        × ((other index : ℕ) → start_in rows.new.items other index
        ≡ start_in rows.old.items other index)) }
{
    while rows.len() <= row {
        rows.push(Vec::new(alloc))?;
    }
    Ok(())
}

/// Sets the start at this index of a row of a table to the better of that and this one. It fails if memory runs out.
pub fn gain_in(
    rows: &mut Vec<Vec<Option<Start>>>,
    row: usize,
    index: usize,
    start: Option<Start>,
) -> Result<(), AllocError>
    ensures { OnOk result (IsGainedIn rows.old.items rows.new.items row index start) }
{
    let alloc = *rows.allocator();
    reach(alloc, rows, row)?;
    gain(&mut rows[row], index, start)?;
    Ok(())
}
