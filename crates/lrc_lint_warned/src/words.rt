// Words that are read and never written.

ghost use Rattle.std.specs.Prelude.{◌≡◌, ◌<◌, ◌+◌, ◌^◌, ◌++◌, ◌||◌, ℕ, OnOk, false, length, map, slice_index_or};
ghost use Rattle.std.specs.List.{list_any};
ghost use Rattle.lrc_program.specs.Statements.{statement_of};
ghost use Rattle.lrc_lint_warned.specs.Constant.{is_value};
ghost use Rattle.lrc_lint_warned.specs.Found.{statement_seen};
ghost use Rattle.lrc_lint_warned.specs.Words.{may_write, never_written, unknown_at, word_read, word_written, writes_some};

use crate::constant::constant_of;
use crate::found::{Found, Kind, StatementAt};
use lrc_program::Statement;
use std::alloc::{AllocError, Global};

/// Adds the words that a shared read names as a constant while all shared writes are of other constants, each at the
/// first such constant.
pub fn never_written(
    out: &mut Vec<Found>,
    alloc: Global,
    statements: &[StatementAt<'_>],
    words: u32,
) -> Result<(), AllocError>
    ensures { OnOk result (out.new.items
        ≡ out.old.items ++ never_written words (map statement_seen statements.now)) }
{
    if some_writes_some(statements) {
        return Ok(());
    }
    let mut known = vec![in alloc; false; words as usize]?;
    never_written_by(out, &mut known, statements)
}

// The same by a table of words that has no marks yet.
fn never_written_by(
    out: &mut Vec<Found>,
    known: &mut [bool],
    statements: &[StatementAt<'_>],
) -> Result<(), AllocError>
    requires few { length known.old < 2 ^ 32 }
    requires unmarked { (k : ℕ) → k < length known.old → slice_index_or known.old k false ≡ false }
    requires constants { list_any (λ s. writes_some s.statement) (map statement_seen statements.now)
        ≡ false }
    ensures { OnOk result (out.new.items
        ≡ out.old.items ++ never_written (length known.old) (map statement_seen statements.now)) }
{
    mark_writes(known, statements);
    push_unknown_reads(out, known, statements)
}

// Whether there is a shared write of what is no constant.
fn some_writes_some(statements: &[StatementAt<'_>]) -> bool
    ensures { result ≡ list_any (λ s. writes_some s.statement) (map statement_seen statements.now) }
{
    statements.iter().any(|s| writes_some(s.statement))
}

fn writes_some(statement: &Statement) -> bool
    ensures { result ≡ writes_some (statement_of statement.now) }
{
    match statement {
        Statement::Write(word, _) => constant_of(word).is_none(),
        _ => false,
    }
}

// The constant that a shared write is of.
fn word_written(statement: &Statement) -> Option<u64>
    ensures { result ≡ word_written (statement_of statement.now) }
{
    match statement {
        Statement::Write(word, _) => constant_of(word),
        _ => None,
    }
}

// The constant that a shared read is of.
fn word_read(statement: &Statement) -> Option<u64>
    ensures { result ≡ word_read (statement_of statement.now) }
{
    match statement {
        Statement::Read(_, word) => constant_of(word),
        _ => None,
    }
}

// Marks the words that are written as constants.
fn mark_writes(known: &mut [bool], statements: &[StatementAt<'_>])
    ensures { (k : ℕ) → k < length known.old → slice_index_or known.new k false
        ≡ (slice_index_or known.old k false || list_any (λ s. is_value (word_written s.statement) k)
        (map statement_seen statements.now)) }
{
    for s in statements {
        mark(known, word_written(s.statement));
    }
}

// Marks a word, if there is one and the table has it.
fn mark(known: &mut [bool], word: Option<u64>)
    ensures { (k : ℕ) → k < length known.old
        → slice_index_or known.new k false ≡ (slice_index_or known.old k false || is_value word k) }
{
    if let Some(word) = word {
        if word < known.len() as u64 {
            known[word as usize] = true;
        }
    }
}

// Adds the first reads of words that are not known from the writes.
fn push_unknown_reads(
    out: &mut Vec<Found>,
    known: &mut [bool],
    statements: &[StatementAt<'_>],
) -> Result<(), AllocError>
    requires few { length known.old < 2 ^ 32 }
    requires written { (k : ℕ) → k < length known.old →
        slice_index_or known.old k false
        ≡ list_any (λ s. may_write k s.statement) (map statement_seen statements.now) }
    ensures { OnOk result (out.new.items
        ≡ out.old.items ++ never_written (length known.old) (map statement_seen statements.now)) }
{
    for s in statements {
        let word = word_read(s.statement);
        push_unknown(out, known, s.at, word)?;
        mark(known, word);
    }
    Ok(())
}

fn push_unknown(
    out: &mut Vec<Found>,
    known: &[bool],
    at: u32,
    word: Option<u64>,
) -> Result<(), AllocError>
    requires { length known.now < 2 ^ 32 }
    ensures { OnOk result (out.new.items ≡ out.old.items ++ unknown_at known.now (at + 3) word) }
{
    if let Some(word) = word {
        if word < known.len() as u64 && !known[word as usize] {
            out.push(Found {
                at: at as usize + 3,
                kind: Kind::NeverWritten(word as u32),
            })?;
        }
    }
    Ok(())
}
