// Choices and loops: barriers that not every node may reach, and conditions that nothing changes.

ghost use Rattle.std.specs.Prelude.{◌≡◌, ◌++◌, ◌&&◌, ◌||◌, ℕ, false, IfOk, OnOk, count_by, map, slice_index_or};
ghost use Rattle.std.specs.List.{list_all, list_any};
ghost use Rattle.lrc_program.specs.Statements.{block_of, expression_of, if_else, statement_of, while_do};
ghost use Rattle.lrc_lint_warned.specs.Blocks.{barriers_in, has_me, has_set, is_acquire, is_barrier, is_marked, is_me, is_still_by, learns_kind, learns_nothing};
ghost use Rattle.lrc_lint_warned.specs.Blocks.{learning_nothing, rounds_kind, some_learns, some_marked, uncertain_rounds, unchanged_conditions};
ghost use Rattle.lrc_lint_warned.specs.Blocks.{unchanged_kind, uneven_barriers, uneven_kind};
ghost use Rattle.lrc_lint_warned.specs.Constant.{is_value};
ghost use Rattle.lrc_lint_warned.specs.Names.{is_name, sets};
ghost use Rattle.lrc_lint_warned.specs.Operations.{kind_if};
ghost use Rattle.lrc_lint_warned.specs.Found.{statement_seen};

use crate::constant::constant_of;
use crate::found::{Found, Kind, StatementAt, push_found};
use crate::inside::{nodes_in, statements_in};
use crate::names::{name_of, set_by};
use crate::operations::kind_if;
use lrc_program::{Expression, Statement};
use std::alloc::{AllocError, Global};

/// Adds the choices on `me` whose blocks do not have equally many barriers.
pub fn uneven_barriers(
    out: &mut Vec<Found>,
    alloc: Global,
    statements: &[StatementAt<'_>],
) -> Result<(), AllocError>
    ensures { OnOk result (out.new.items
        ≡ out.old.items ++ uneven_barriers (map statement_seen statements.now)) }
{
    for s in statements {
        let kind = uneven_kind(alloc, s.statement)?;
        push_found(out, s.at as usize, kind)?;
    }
    Ok(())
}

fn uneven_kind(alloc: Global, statement: &Statement) -> Result<Option<Kind>, AllocError>
    ensures { IfOk result (λ kind. kind ≡ uneven_kind (statement_of statement.now)) }
{
    match statement {
        Statement::If(condition, first, second) => uneven_of(alloc, condition, first, second),
        _ => Ok(None),
    }
}

fn uneven_of(
    alloc: Global,
    condition: &Expression,
    first: &[Statement],
    second: &[Statement],
) -> Result<Option<Kind>, AllocError>
    ensures { IfOk result (λ kind. kind
        ≡ uneven_kind (if_else (expression_of condition.now) (block_of first.now)
        (block_of second.now))) }
{
    let on_me = has_me(alloc, condition)?;
    let one = barriers_in(alloc, first)?;
    let other = barriers_in(alloc, second)?;
    Ok(kind_if_both(on_me, one != other, Kind::UnevenBarriers))
}

/// Adds the loops on `me` with a barrier in them.
pub fn uncertain_rounds(
    out: &mut Vec<Found>,
    alloc: Global,
    statements: &[StatementAt<'_>],
) -> Result<(), AllocError>
    ensures { OnOk result (out.new.items
        ≡ out.old.items ++ uncertain_rounds (map statement_seen statements.now)) }
{
    for s in statements {
        let kind = rounds_kind(alloc, s.statement)?;
        push_found(out, s.at as usize, kind)?;
    }
    Ok(())
}

fn rounds_kind(alloc: Global, statement: &Statement) -> Result<Option<Kind>, AllocError>
    ensures { IfOk result (λ kind. kind ≡ rounds_kind (statement_of statement.now)) }
{
    match statement {
        Statement::While(condition, inside) => rounds_of(alloc, condition, inside),
        _ => Ok(None),
    }
}

fn rounds_of(
    alloc: Global,
    condition: &Expression,
    block: &[Statement],
) -> Result<Option<Kind>, AllocError>
    ensures { IfOk result (λ kind. kind
        ≡ rounds_kind (while_do (expression_of condition.now) (block_of block.now))) }
{
    let on_me = has_me(alloc, condition)?;
    let inside = statements_in(alloc, block)?;
    Ok(kind_if_both(on_me, some_barrier(&inside), Kind::UncertainRounds))
}

/// Adds the loops in which nothing changes the condition.
pub fn unchanged_conditions(
    out: &mut Vec<Found>,
    alloc: Global,
    statements: &[StatementAt<'_>],
) -> Result<(), AllocError>
    ensures { OnOk result (out.new.items
        ≡ out.old.items ++ unchanged_conditions (map statement_seen statements.now)) }
{
    for s in statements {
        let kind = unchanged_kind(alloc, s.statement)?;
        push_found(out, s.at as usize, kind)?;
    }
    Ok(())
}

fn unchanged_kind(alloc: Global, statement: &Statement) -> Result<Option<Kind>, AllocError>
    ensures { IfOk result (λ kind. kind ≡ unchanged_kind (statement_of statement.now)) }
{
    match statement {
        Statement::While(condition, inside) => unchanged_of(alloc, condition, inside),
        _ => Ok(None),
    }
}

fn unchanged_of(
    alloc: Global,
    condition: &Expression,
    block: &[Statement],
) -> Result<Option<Kind>, AllocError>
    ensures { IfOk result (λ kind. kind
        ≡ unchanged_kind (while_do (expression_of condition.now) (block_of block.now))) }
{
    let inside = statements_in(alloc, block)?;
    let changes = has_set(alloc, &inside, condition)?;
    let varies = constant_of(condition).is_none();
    Ok(kind_if_both(varies, !changes, Kind::UnchangedCondition))
}

/// Adds the loops that wait for a shared word without an acquire or a barrier.
pub fn learning_nothing(
    out: &mut Vec<Found>,
    alloc: Global,
    statements: &[StatementAt<'_>],
) -> Result<(), AllocError>
    ensures { OnOk result (out.new.items
        ≡ out.old.items ++ learning_nothing (map statement_seen statements.now)) }
{
    for s in statements {
        let kind = learns_kind(alloc, s.statement)?;
        push_found(out, s.at as usize, kind)?;
    }
    Ok(())
}

fn learns_kind(alloc: Global, statement: &Statement) -> Result<Option<Kind>, AllocError>
    ensures { IfOk result (λ kind. kind ≡ learns_kind (statement_of statement.now)) }
{
    match statement {
        Statement::While(condition, inside) => learns_of(alloc, condition, inside),
        _ => Ok(None),
    }
}

fn learns_of(
    alloc: Global,
    condition: &Expression,
    block: &[Statement],
) -> Result<Option<Kind>, AllocError>
    ensures { IfOk result (λ kind. kind
        ≡ learns_kind (while_do (expression_of condition.now) (block_of block.now))) }
{
    let inside = statements_in(alloc, block)?;
    let learns = learns_nothing(alloc, condition, &inside)?;
    Ok(kind_if(learns, Kind::LearnsNothing))
}

// A kind of warning, where both hold.
fn kind_if_both(one: bool, other: bool, kind: Kind) -> Option<Kind>
    ensures { result ≡ kind_if (one && other) kind }
{
    kind_if(one && other, kind)
}

fn learns_nothing(
    alloc: Global,
    condition: &Expression,
    statements: &[&Statement],
) -> Result<bool, AllocError>
    ensures { IfOk result (λ holds. holds
        ≡ learns_nothing (expression_of condition.now)
        (map (λ s. statement_of s.now) statements.now)) }
{
    if some_learns(statements) {
        return Ok(false);
    }
    let set = names_set(statements);
    let nodes = nodes_in(alloc, condition)?;
    if !some_marked(&set, &nodes) {
        return Ok(false);
    }
    let of_condition = names_read(&nodes);
    all_still(alloc, &set, &of_condition, statements)
}

// Whether all these statements are still.
fn all_still(
    alloc: Global,
    set: &[bool; 256],
    of_condition: &[bool; 256],
    statements: &[&Statement],
) -> Result<bool, AllocError>
    ensures { IfOk result (λ holds. holds
        ≡ list_all (is_still_by set.now of_condition.now)
        (map (λ s. statement_of s.now) statements.now)) }
{
    for s in statements {
        if !is_still(alloc, set, of_condition, s)? {
            return Ok(false);
        }
    }
    Ok(true)
}

// Whether a statement sets no name of a loop's condition, but by a shared read of a word without a name that is set in the loop.
fn is_still(
    alloc: Global,
    set: &[bool; 256],
    of_condition: &[bool; 256],
    statement: &Statement,
) -> Result<bool, AllocError>
    ensures { IfOk result (λ holds. holds
        ≡ is_still_by set.now of_condition.now (statement_of statement.now)) }
{
    match statement {
        Statement::Assign(k, _) => Ok(!of_condition[*k as usize]),
        Statement::Read(k, word) => {
            let names = nodes_in(alloc, word)?;
            let moves = some_marked(set, &names);
            Ok(!of_condition[*k as usize] || !moves)
        }
        _ => Ok(true),
    }
}

// Which names these statements set.
fn names_set(statements: &[&Statement]) -> [bool; 256]
    ensures { (k : ℕ) → slice_index_or result k false
        ≡ list_any (sets k) (map (λ s. statement_of s.now) statements.now) }
{
    let mut marked = [false; 256];
    for s in statements {
        mark(&mut marked, set_by(s));
    }
    marked
}

// Which names these parts of an expression read.
fn names_read(nodes: &[&Expression]) -> [bool; 256]
    ensures { (k : ℕ) → slice_index_or result k false
        ≡ list_any (is_name k) (map (λ n. expression_of n.now) nodes.now) }
{
    let mut marked = [false; 256];
    for n in nodes {
        mark(&mut marked, name_of(n));
    }
    marked
}

// Marks a name, if there is one.
fn mark(marked: &mut [bool; 256], name: Option<u8>)
    ensures { (k : ℕ) → slice_index_or marked.new k false
        ≡ (slice_index_or marked.old k false || is_value name k) }
{
    if let Some(k) = name {
        marked[k as usize] = true;
    }
}

// Whether one of these parts of an expression reads a marked name.
fn some_marked(marked: &[bool; 256], nodes: &[&Expression]) -> bool
    ensures { result ≡ some_marked marked.now (map (λ n. expression_of n.now) nodes.now) }
{
    nodes.iter().any(|n| is_marked(marked, name_of(n)))
}

fn is_marked(marked: &[bool; 256], name: Option<u8>) -> bool
    ensures { result ≡ is_marked marked.now name }
{
    match name {
        Some(k) => marked[k as usize],
        None => false,
    }
}

// Whether an expression has a name that one of these statements sets.
fn has_set(
    alloc: Global,
    statements: &[&Statement],
    expression: &Expression,
) -> Result<bool, AllocError>
    ensures { IfOk result (λ holds. holds
        ≡ has_set (map (λ s. statement_of s.now) statements.now) (expression_of expression.now)) }
{
    let nodes = nodes_in(alloc, expression)?;
    let set = names_set(statements);
    Ok(some_marked(&set, &nodes))
}

fn has_me(alloc: Global, expression: &Expression) -> Result<bool, AllocError>
    ensures { IfOk result (λ holds. holds ≡ has_me (expression_of expression.now)) }
{
    let nodes = nodes_in(alloc, expression)?;
    Ok(some_me(&nodes))
}

fn some_me(nodes: &[&Expression]) -> bool
    ensures { result ≡ list_any is_me (map (λ n. expression_of n.now) nodes.now) }
{
    nodes.iter().any(|n| is_me(n))
}

fn is_me(node: &Expression) -> bool
    ensures { result ≡ is_me (expression_of node.now) }
{
    matches!(node, Expression::Me)
}

// How many barriers are written in a block.
fn barriers_in(alloc: Global, block: &[Statement]) -> Result<usize, AllocError>
    ensures { IfOk result (λ count. count ≡ barriers_in (block_of block.now)) }
{
    let all = statements_in(alloc, block)?;
    Ok(count_barriers(&all))
}

fn count_barriers(statements: &[&Statement]) -> usize
    ensures { result ≡ count_by is_barrier (map (λ s. statement_of s.now) statements.now) }
{
    statements.iter().filter(|s| is_barrier(s)).count()
}

fn some_barrier(statements: &[&Statement]) -> bool
    ensures { result ≡ list_any is_barrier (map (λ s. statement_of s.now) statements.now) }
{
    statements.iter().any(|s| is_barrier(s))
}

fn some_learns(statements: &[&Statement]) -> bool
    ensures { result ≡ some_learns (map (λ s. statement_of s.now) statements.now) }
{
    statements.iter().any(|s| is_acquire(s) || is_barrier(s))
}

/// Returns whether a statement is a barrier.
pub(crate) fn is_barrier(statement: &Statement) -> bool
    ensures { result ≡ is_barrier (statement_of statement.now) }
{
    matches!(statement, Statement::Barrier)
}

fn is_acquire(statement: &Statement) -> bool
    ensures { result ≡ is_acquire (statement_of statement.now) }
{
    matches!(statement, Statement::Acquire(_))
}
