// What undoes an acquire, or a release, inside each statement.

ghost use Rattle.std.specs.Prelude.{◌≡◌, ◌<◌, ◌||◌, ◌++◌, ◌∷◌, IfOk, OnOk, length, map, slice_index_or, slice_set};
ghost use Rattle.std.specs.List.{list_any};
ghost use Rattle.lrc_program.specs.Statements.{block_of, statement_of};
ghost use Rattle.lrc_lint_warned.specs.Held.{undoes};
ghost use Rattle.lrc_lint_warned.specs.Inside.{statements_in, within};
ghost use Rattle.lrc_lint_warned.specs.Undone.{nothing_undone, undone_by};

use crate::held::{Side, undoes};
use lrc_program::Statement;
use std::alloc::{AllocError, Global};

/// What an acquire, or a release, of a lock is undone by: something in a whole statement, something in its first block.
#[derive(Clone, Copy)]
pub struct Undone {
    pub whole: bool,
    pub first: bool,
}

/// Returns what is undone by each statement of a block, in the order of the text. It fails if memory runs out.
pub(crate) fn undone_in(
    alloc: Global,
    block: &[Statement],
    side: Side,
    lock: u8,
) -> Result<Vec<Undone>, AllocError>
    ensures { IfOk result (λ marks. marks.items
        ≡ map (undone_by side lock) (statements_in (block_of block.now))) }
{
    let mut marks = Vec::new(alloc);
    put_undone(&mut marks, block, side, lock)?;
    Ok(marks)
}

/// Returns the mark at a place.
pub(crate) fn mark_at(marks: &[Undone], at: usize) -> Undone
    ensures { result ≡ slice_index_or marks.now at nothing_undone }
{
    if at < marks.len() {
        marks[at]
    } else {
        Undone {
            whole: false,
            first: false,
        }
    }
}

fn set_mark(marks: &mut Vec<Undone>, at: usize, mark: Undone)
    requires { at < length marks.old.items }
    ensures { marks.new.items ≡ slice_set marks.old.items at mark }
{
    marks[at] = mark;
}

fn either(one: bool, other: bool) -> bool
    ensures { result ≡ (one || other) }
{
    one || other
}

// Adds what is undone by the statements of a block, and tells whether one of them undoes something.
#[cycle(undone)]
fn put_undone(
    out: &mut Vec<Undone>,
    block: &[Statement],
    side: Side,
    lock: u8,
) -> Result<bool, AllocError>
    ensures marks { OnOk result (out.new.items
        ≡ out.old.items ++ map (undone_by side lock) (statements_in (block_of block.now))) }
    ensures some { IfOk result (λ some. some
        ≡ list_any (undoes side lock) (statements_in (block_of block.now))) }
{
    let mut some = false;
    for s in block {
        let one = put_undone_of(out, s, side, lock)?;
        some = either(some, one);
    }
    Ok(some)
}

// Adds what is undone by a statement and by those of its blocks. The mark of a statement with blocks is made once these have theirs.
#[cycle(undone)]
fn put_undone_of(
    out: &mut Vec<Undone>,
    statement: &Statement,
    side: Side,
    lock: u8,
) -> Result<bool, AllocError>
    ensures marks { OnOk result (out.new.items ≡ out.old.items
        ++ map (undone_by side lock)
        (statement_of statement.now ∷ within (statement_of statement.now))) }
    ensures some { IfOk result (λ some. some ≡ list_any (undoes side lock)
        (statement_of statement.now ∷ within (statement_of statement.now))) }
{
    let at = out.len();
    let own = undoes(statement, side, lock);
    out.push(Undone {
        whole: own,
        first: false,
    })?;
    match statement {
        Statement::If(_, first, second) => {
            let one = put_undone(out, first, side, lock)?;
            let other = put_undone(out, second, side, lock)?;
            let whole = either(one, other);
            set_mark(out, at, Undone { whole, first: one });
            Ok(whole)
        }
        Statement::While(_, inside) => {
            let one = put_undone(out, inside, side, lock)?;
            set_mark(
                out,
                at,
                Undone {
                    whole: one,
                    first: one,
                },
            );
            Ok(one)
        }
        _ => Ok(own),
    }
}
