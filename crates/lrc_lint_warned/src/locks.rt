// Locks that are acquired and never released.

ghost use Rattle.std.specs.Prelude.{◌≡◌, ◌++◌, OnOk, find, map, option_map};
ghost use Rattle.std.specs.List.{list_any};
ghost use Rattle.lrc_program.specs.Statements.{statement_of};
ghost use Rattle.lrc_lint_warned.specs.Found.{statement_seen};
ghost use Rattle.lrc_lint_warned.specs.Locks.{acquires, may_acquire, may_release, never_released, never_released_of, releases};
ghost use Rattle.lrc_lint_warned.specs.Words.{may_be};

use crate::constant::{constant_of, is_constant};
use crate::found::{Found, Kind, StatementAt};
use crate::names::push_where;
use lrc_program::Statement;
use std::alloc::AllocError;

/// Adds the locks that an acquire names as a constant while all releases are of other constants, each at its first
/// acquire.
pub fn never_released(
    out: &mut Vec<Found>,
    statements: &[StatementAt<'_>],
    locks: u8,
) -> Result<(), AllocError>
    ensures { OnOk result (out.new.items
        ≡ out.old.items ++ never_released locks (map statement_seen statements.now)) }
{
    for lock in 0..locks {
        never_released_of(out, statements, lock)?;
    }
    Ok(())
}

fn never_released_of(
    out: &mut Vec<Found>,
    statements: &[StatementAt<'_>],
    lock: u8,
) -> Result<(), AllocError>
    ensures { OnOk result (out.new.items
        ≡ out.old.items ++ never_released_of (map statement_seen statements.now) lock) }
{
    if some_release(statements, lock) {
        return Ok(());
    }
    push_where(
        out,
        first_acquire(statements, lock),
        Kind::NeverReleased(lock),
    )
}

fn some_release(statements: &[StatementAt<'_>], lock: u8) -> bool
    ensures { result ≡ list_any (λ s. may_release lock s.statement)
        (map statement_seen statements.now) }
{
    statements.iter().any(|s| may_release(s.statement, lock))
}

fn first_acquire(statements: &[StatementAt<'_>], lock: u8) -> Option<u32>
    ensures { result ≡ option_map (λ s. s.at)
        (find (λ s. acquires lock s.statement) (map statement_seen statements.now)) }
{
    for s in statements {
        if acquires(s.statement, lock) {
            return Some(s.at);
        }
    }
    None
}

/// Returns whether a statement acquires this lock as a constant.
pub(crate) fn acquires(statement: &Statement, lock: u8) -> bool
    ensures { result ≡ acquires lock (statement_of statement.now) }
{
    match statement {
        Statement::Acquire(e) => is_constant(e, u64::from(lock)),
        _ => false,
    }
}

/// Returns whether a statement releases this lock as a constant.
pub(crate) fn releases(statement: &Statement, lock: u8) -> bool
    ensures { result ≡ releases lock (statement_of statement.now) }
{
    match statement {
        Statement::Release(e) => is_constant(e, u64::from(lock)),
        _ => false,
    }
}

/// Returns whether a statement acquires this lock, or acquires by an expression that is no constant.
pub(crate) fn may_acquire(statement: &Statement, lock: u8) -> bool
    ensures { result ≡ may_acquire lock (statement_of statement.now) }
{
    match statement {
        Statement::Acquire(e) => may_be(constant_of(e), u64::from(lock)),
        _ => false,
    }
}

/// Returns whether a statement releases this lock, or releases by an expression that is no constant.
pub(crate) fn may_release(statement: &Statement, lock: u8) -> bool
    ensures { result ≡ may_release lock (statement_of statement.now) }
{
    match statement {
        Statement::Release(e) => may_be(constant_of(e), u64::from(lock)),
        _ => false,
    }
}

/// Returns whether a value is `number`, or is not known.
pub(crate) fn may_be(value: Option<u64>, number: u64) -> bool
    ensures { result ≡ may_be value number }
{
    match value {
        Some(found) => found == number,
        None => true,
    }
}
