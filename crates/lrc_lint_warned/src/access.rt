// Words and locks that there are not.

ghost use Rattle.std.specs.Prelude.{◌≡◌, ◌++◌, OnOk, map};
ghost use Rattle.lrc_program.specs.Statements.{statement_of};
ghost use Rattle.lrc_lint_warned.specs.Access.{lock_beyond, no_such_lock, no_such_lock_at, no_such_word, no_such_word_at, word_beyond};
ghost use Rattle.lrc_lint_warned.specs.Found.{statement_seen};

use crate::constant::constant_of;
use crate::found::{Found, Kind, StatementAt, push_found};
use lrc_program::Statement;
use std::alloc::AllocError;

/// Adds the shared accesses whose constant is not below the number of words.
pub fn no_such_word(
    out: &mut Vec<Found>,
    statements: &[StatementAt<'_>],
    words: u32,
) -> Result<(), AllocError>
    ensures { OnOk result (out.new.items
        ≡ out.old.items ++ no_such_word words (map statement_seen statements.now)) }
{
    for s in statements {
        no_such_word_at(out, s.at, s.statement, words)?;
    }
    Ok(())
}

fn no_such_word_at(
    out: &mut Vec<Found>,
    at: u32,
    statement: &Statement,
    words: u32,
) -> Result<(), AllocError>
    ensures { OnOk result (out.new.items
        ≡ out.old.items ++ no_such_word_at words at (statement_of statement.now)) }
{
    match statement {
        Statement::Read(_, word) => {
            push_found(out, at as usize + 3, word_beyond(constant_of(word), words))
        }
        Statement::Write(word, _) => {
            push_found(out, at as usize + 1, word_beyond(constant_of(word), words))
        }
        _ => Ok(()),
    }
}

fn word_beyond(word: Option<u64>, words: u32) -> Option<Kind>
    ensures { result ≡ word_beyond words word }
{
    match word {
        Some(word) => {
            if word < u64::from(words) {
                None
            } else {
                Some(Kind::NoSuchWord(word))
            }
        }
        None => None,
    }
}

/// Adds the acquires and releases whose constant is not below the number of locks.
pub fn no_such_lock(
    out: &mut Vec<Found>,
    statements: &[StatementAt<'_>],
    locks: u8,
) -> Result<(), AllocError>
    ensures { OnOk result (out.new.items
        ≡ out.old.items ++ no_such_lock locks (map statement_seen statements.now)) }
{
    for s in statements {
        no_such_lock_at(out, s.at, s.statement, locks)?;
    }
    Ok(())
}

fn no_such_lock_at(
    out: &mut Vec<Found>,
    at: u32,
    statement: &Statement,
    locks: u8,
) -> Result<(), AllocError>
    ensures { OnOk result (out.new.items
        ≡ out.old.items ++ no_such_lock_at locks at (statement_of statement.now)) }
{
    match statement {
        Statement::Acquire(lock) | Statement::Release(lock) => {
            push_found(out, at as usize + 1, lock_beyond(constant_of(lock), locks))
        }
        _ => Ok(()),
    }
}

fn lock_beyond(lock: Option<u64>, locks: u8) -> Option<Kind>
    ensures { result ≡ lock_beyond locks lock }
{
    match lock {
        Some(lock) => {
            if lock < u64::from(locks) {
                None
            } else {
                Some(Kind::NoSuchLock(lock))
            }
        }
        None => None,
    }
}
