// Locks that are held, or are not, wherever a statement is reached.

ghost use Rattle.std.specs.Prelude.{◌≡◌, ◌<◌, ◌++◌, ◌∷◌, [], ◌&&◌, IfOk, OnOk, false, length, map, option_map, position, slice_index_or, true, if◌then◌else◌};
ghost use Rattle.std.specs.List.{range_with_len};
ghost use Rattle.lrc_text.specs.Each.{each};
ghost use Rattle.lrc_program.specs.Statements.{block_of, statement_of};
ghost use Rattle.lrc_lint_warned.specs.declared.found.Kind.TheVariants.{HeldAtBarrier};
ghost use Rattle.lrc_lint_warned.specs.declared.held.Side.TheVariants.{Acquired};
ghost use Rattle.lrc_lint_warned.specs.Found.{found_at, statement_seen};
ghost use Rattle.lrc_lint_warned.specs.Held.{Path, acquire_by, at_start, barrier_by, found_if, held_already, held_already_at, held_at_barrier, is_under};
ghost use Rattle.lrc_lint_warned.specs.Held.{not_held, not_held_at, paths, paths_within, release_by, takes, undoes, with_path};
ghost use Rattle.lrc_lint_warned.specs.Inside.{statements_in, within};
ghost use Rattle.lrc_lint_warned.specs.Undone.{AreMarked};

use crate::blocks::is_barrier;
use crate::found::{Found, Kind, StatementAt, push_found};
use crate::locks::{acquires, may_acquire, may_release, releases};
use crate::undone::{Undone, mark_at, undone_in};
use lrc_program::Statement;
use std::alloc::{AllocError, Global};

/// What a statement is under: an acquire or a release.
#[derive(Clone, Copy)]
pub enum Side {
    Acquired,
    Released,
}

/// Adds the acquires of a lock under an acquire of the same lock.
pub fn held_already(
    out: &mut Vec<Found>,
    alloc: Global,
    statements: &[StatementAt<'_>],
    block: &[Statement],
    locks: u8,
) -> Result<(), AllocError>
    ensures { OnOk result (out.new.items
        ≡ out.old.items ++ held_already locks (map statement_seen statements.now)
        (paths [] (block_of block.now))) }
{
    for lock in 0..locks {
        held_already_of(out, alloc, statements, block, lock)?;
    }
    Ok(())
}

fn held_already_of(
    out: &mut Vec<Found>,
    alloc: Global,
    statements: &[StatementAt<'_>],
    block: &[Statement],
    lock: u8,
) -> Result<(), AllocError>
    ensures { OnOk result (out.new.items
        ≡ out.old.items ++ with_path (held_already_at lock) (map statement_seen statements.now)
        (paths [] (block_of block.now))) }
{
    let under = all_under(alloc, block, Side::Acquired, lock)?;
    put_acquires(out, statements, &under, lock)
}

fn put_acquires(
    out: &mut Vec<Found>,
    statements: &[StatementAt<'_>],
    under: &[bool],
    lock: u8,
) -> Result<(), AllocError>
    ensures { OnOk result (out.new.items
        ≡ out.old.items ++ each (acquire_by lock under.now) (map statement_seen statements.now)) }
{
    for (i, s) in statements.iter().enumerate() {
        put_acquire(out, i, s.at, s.statement, under, lock)?;
    }
    Ok(())
}

fn put_acquire(
    out: &mut Vec<Found>,
    i: usize,
    at: u32,
    statement: &Statement,
    under: &[bool],
    lock: u8,
) -> Result<(), AllocError>
    ensures { OnOk result (out.new.items ≡ out.old.items
        ++ acquire_by lock under.now i (record { at = at; statement = statement_of statement.now })) }
{
    let holds = acquires(statement, lock) && table_at(under, i, false);
    push_if(out, holds, at, Kind::HeldAlready(lock))
}

/// Adds the releases of a lock under a release of the same lock.
pub fn not_held(
    out: &mut Vec<Found>,
    alloc: Global,
    statements: &[StatementAt<'_>],
    block: &[Statement],
    locks: u8,
) -> Result<(), AllocError>
    ensures { OnOk result (out.new.items
        ≡ out.old.items ++ not_held locks (map statement_seen statements.now)
        (paths [] (block_of block.now))) }
{
    for lock in 0..locks {
        not_held_of(out, alloc, statements, block, lock)?;
    }
    Ok(())
}

fn not_held_of(
    out: &mut Vec<Found>,
    alloc: Global,
    statements: &[StatementAt<'_>],
    block: &[Statement],
    lock: u8,
) -> Result<(), AllocError>
    ensures { OnOk result (out.new.items
        ≡ out.old.items ++ with_path (not_held_at lock) (map statement_seen statements.now)
        (paths [] (block_of block.now))) }
{
    let under = all_under(alloc, block, Side::Released, lock)?;
    put_releases(out, statements, &under, lock)
}

fn put_releases(
    out: &mut Vec<Found>,
    statements: &[StatementAt<'_>],
    under: &[bool],
    lock: u8,
) -> Result<(), AllocError>
    ensures { OnOk result (out.new.items
        ≡ out.old.items ++ each (release_by lock under.now) (map statement_seen statements.now)) }
{
    for (i, s) in statements.iter().enumerate() {
        put_release(out, i, s.at, s.statement, under, lock)?;
    }
    Ok(())
}

fn put_release(
    out: &mut Vec<Found>,
    i: usize,
    at: u32,
    statement: &Statement,
    under: &[bool],
    lock: u8,
) -> Result<(), AllocError>
    ensures { OnOk result (out.new.items ≡ out.old.items
        ++ release_by lock under.now i (record { at = at; statement = statement_of statement.now })) }
{
    let holds = releases(statement, lock) && table_at(under, i, true);
    push_if(out, holds, at, Kind::NotHeld(lock))
}

/// Adds the barriers under an acquire of a lock, with the least such lock.
pub fn held_at_barrier(
    out: &mut Vec<Found>,
    alloc: Global,
    statements: &[StatementAt<'_>],
    block: &[Statement],
    locks: u8,
) -> Result<(), AllocError>
    ensures { OnOk result (out.new.items
        ≡ out.old.items ++ held_at_barrier locks (map statement_seen statements.now)
        (paths [] (block_of block.now))) }
{
    let tables = all_tables(alloc, block, locks)?;
    put_barriers(out, statements, &tables)
}

fn all_tables(alloc: Global, block: &[Statement], locks: u8) -> Result<Vec<Vec<bool>>, AllocError>
    ensures { IfOk result (λ tables. map (λ t. t.items) tables.items
        ≡ map (λ lock. map (is_under Acquired lock) (paths [] (block_of block.now)))
        (range_with_len 0 locks)) }
{
    let mut tables = Vec::new(alloc);
    for lock in 0..locks {
        let under = all_under(alloc, block, Side::Acquired, lock)?;
        tables.push(under)?;
    }
    Ok(tables)
}

fn put_barriers(
    out: &mut Vec<Found>,
    statements: &[StatementAt<'_>],
    tables: &[Vec<bool>],
) -> Result<(), AllocError>
    requires { length tables.now < 256 }
    ensures { OnOk result (out.new.items
        ≡ out.old.items ++ each (barrier_by (map (λ t. t.items) tables.now))
        (map statement_seen statements.now)) }
{
    for (i, s) in statements.iter().enumerate() {
        put_barrier(out, i, s.at, s.statement, tables)?;
    }
    Ok(())
}

fn put_barrier(
    out: &mut Vec<Found>,
    i: usize,
    at: u32,
    statement: &Statement,
    tables: &[Vec<bool>],
) -> Result<(), AllocError>
    requires { length tables.now < 256 }
    ensures { OnOk result (out.new.items ≡ out.old.items
        ++ barrier_by (map (λ t. t.items) tables.now) i
        (record { at = at; statement = statement_of statement.now })) }
{
    if !is_barrier(statement) {
        return Ok(());
    }
    push_found(out, at as usize, barrier_kind(first_held(tables, i)))
}

fn barrier_kind(lock: Option<u8>) -> Option<Kind>
    ensures { result ≡ option_map HeldAtBarrier lock }
{
    match lock {
        Some(lock) => Some(Kind::HeldAtBarrier(lock)),
        None => None,
    }
}

// The first of these tables that has `true` at this place.
fn first_held(tables: &[Vec<bool>], i: usize) -> Option<u8>
    requires { length tables.now < 256 }
    ensures { result ≡ position (λ under. slice_index_or under i false)
        (map (λ t. t.items) tables.now) }
{
    for lock in 0..tables.len() {
        if table_at(&tables[lock], i, false) {
            return Some(lock as u8);
        }
    }
    None
}

// Adds a warning, where this holds.
fn push_if(out: &mut Vec<Found>, holds: bool, at: u32, kind: Kind) -> Result<(), AllocError>
    ensures { OnOk result (out.new.items ≡ out.old.items ++ found_if holds at kind) }
{
    if holds {
        out.push(Found {
            at: at as usize,
            kind,
        })?;
    }
    Ok(())
}

fn table_at(under: &[bool], i: usize, past: bool) -> bool
    ensures { result ≡ slice_index_or under.now i past }
{
    if i < under.len() { under[i] } else { past }
}

// Whether each statement of a program stands under an acquire, or a release, of this lock, in the order of the text.
fn all_under(
    alloc: Global,
    block: &[Statement],
    side: Side,
    lock: u8,
) -> Result<Vec<bool>, AllocError>
    ensures { IfOk result (λ under. under.items
        ≡ map (is_under side lock) (paths [] (block_of block.now))) }
{
    let marks = undone_in(alloc, block, side, lock)?;
    let mut out = Vec::new(alloc);
    put_block(&mut out, block, side, lock, &marks, at_start(side))?;
    Ok(out)
}

// The beginning of the text counts as a release of every lock.
fn at_start(side: Side) -> bool
    ensures { result ≡ at_start side }
{
    match side {
        Side::Acquired => false,
        Side::Released => true,
    }
}

#[cycle(under)]
fn put_block(
    out: &mut Vec<bool>,
    block: &[Statement],
    side: Side,
    lock: u8,
    marks: &[Undone],
    start: bool,
) -> Result<(), AllocError>
    ensures { (path : Path) → start ≡ is_under side lock path →
        AreMarked side lock marks.now (length out.old.items) (statements_in (block_of block.now)) →
        OnOk result (out.new.items
        ≡ out.old.items ++ map (is_under side lock) (paths path (block_of block.now))) }
{
    let mut under = start;
    for s in block {
        let mark = mark_at(marks, out.len());
        put_paths_of(out, s, side, lock, marks, under)?;
        under = behind(s, side, lock, mark.whole, under);
    }
    Ok(())
}

#[cycle(under)]
fn put_paths_of(
    out: &mut Vec<bool>,
    statement: &Statement,
    side: Side,
    lock: u8,
    marks: &[Undone],
    under: bool,
) -> Result<(), AllocError>
    ensures { (path : Path) → under ≡ is_under side lock path →
        AreMarked side lock marks.now (length out.old.items)
        (statement_of statement.now ∷ within (statement_of statement.now)) →
        OnOk result (out.new.items
        ≡ out.old.items ++ map (is_under side lock)
        (path ∷ paths_within path (statement_of statement.now))) }
{
    let inner = unless_undone(mark_at(marks, out.len()).first, under);
    out.push(under)?;
    match statement {
        Statement::If(_, first, second) => {
            put_block(out, first, side, lock, marks, under)?;
            put_block(out, second, side, lock, marks, inner)
        }
        Statement::While(_, inside) => put_block(out, inside, side, lock, marks, inner),
        _ => Ok(()),
    }
}

// Whether what stands behind a statement stands under an acquire, or a release, where the statement does or does not.
fn behind(statement: &Statement, side: Side, lock: u8, undone: bool, under: bool) -> bool
    ensures { result ≡ (if takes side lock (statement_of statement.now) then true else
        (if undone then false else under)) }
{
    if takes(statement, side, lock) {
        true
    } else {
        unless_undone(undone, under)
    }
}

// The same of what stands beside a block, or in it.
fn unless_undone(undone: bool, under: bool) -> bool
    ensures { result ≡ (if undone then false else under) }
{
    !undone && under
}

fn takes(statement: &Statement, side: Side, lock: u8) -> bool
    ensures { result ≡ takes side lock (statement_of statement.now) }
{
    match side {
        Side::Acquired => acquires(statement, lock),
        Side::Released => releases(statement, lock),
    }
}

/// Returns whether a statement undoes an acquire, or a release, of this lock.
pub(crate) fn undoes(statement: &Statement, side: Side, lock: u8) -> bool
    ensures { result ≡ undoes side lock (statement_of statement.now) }
{
    match side {
        Side::Acquired => may_release(statement, lock),
        Side::Released => may_acquire(statement, lock),
    }
}
