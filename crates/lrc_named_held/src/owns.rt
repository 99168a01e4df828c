// The translation's own names in the statements of a core.

ghost use Rattle.std.specs.Prelude.{◌≡◌, ◌++◌, IfOk, OnOk, map};
ghost use Rattle.lrc_named_core.specs.Shape.{private_of, tree_of};
ghost use Rattle.lrc_named_core.specs.View.{block_of, expression_of, statement_of};
ghost use Rattle.lrc_named_held.specs.Owns.{owns_among, owns_in, owns_inside, owns_of, owns_of_name};

use lrc_named_core::tree::{Expression, Private, Statement, Tree};
use std::alloc::{AllocError, Global};

/// A name of the translation's own in a statement of a core.
#[derive(Clone, Copy)]
pub struct Own {
    /// Its number.
    pub number: u32,
    /// With which token of the named program's text the expression begins that it holds.
    pub first: u32,
    /// With which token it ends.
    pub last: u32,
}

fn push_name(owns: &mut Vec<Own>, name: Private<'_>) -> Result<(), AllocError>
    ensures { OnOk result (owns.new.items ≡ owns.old.items ++ owns_of_name (private_of name.entry)) }
{
    match name {
        Private::Named(_) => Ok(()),
        Private::Own(number, first, last) => {
            owns.push(Own {
                number,
                first,
                last,
            })?;
            Ok(())
        }
    }
}

fn push_tree(owns: &mut Vec<Own>, tree: &Tree<'_>) -> Result<(), AllocError>
    ensures { OnOk result (owns.new.items ≡ owns.old.items ++ owns_in (tree_of tree.now)) }
{
    match tree {
        Tree::Number(_) => Ok(()),
        Tree::Me => Ok(()),
        Tree::Nodes => Ok(()),
        Tree::Private(name) => push_name(owns, *name),
        Tree::Binary(left, _, right) => {
            push_tree(owns, left)?;
            push_tree(owns, right)
        }
    }
}

fn push_expression(owns: &mut Vec<Own>, e: &Expression<'_>) -> Result<(), AllocError>
    ensures { OnOk result (owns.new.items ≡ owns.old.items ++ owns_in (expression_of e.now)) }
{
    push_tree(owns, &e.tree)
}

// Adds those of a statement, those of its blocks aside.
fn push_statement(owns: &mut Vec<Own>, statement: &Statement<'_>) -> Result<(), AllocError>
    ensures { OnOk result (owns.new.items ≡ owns.old.items ++ owns_of (statement_of statement.now)) }
{
    match statement {
        Statement::Assign(_, name, value) => {
            push_name(owns, *name)?;
            push_expression(owns, value)
        }
        Statement::Read(_, name, word) => {
            push_name(owns, *name)?;
            push_expression(owns, word)
        }
        Statement::Write(_, word, value) => {
            push_expression(owns, word)?;
            push_expression(owns, value)
        }
        Statement::Acquire(_, lock) => push_expression(owns, lock),
        Statement::Release(_, lock) => push_expression(owns, lock),
        Statement::Barrier(_) => Ok(()),
        Statement::Print(_, value) => push_expression(owns, value),
        Statement::If(_, condition, _, _) => push_expression(owns, condition),
        Statement::While(_, condition, _) => push_expression(owns, condition),
    }
}

// Those of a statement, those of its blocks aside.
fn owns_of(alloc: Global, statement: &Statement<'_>) -> Result<Vec<Own>, AllocError>
    ensures { IfOk result (λ owns. owns.items ≡ owns_of (statement_of statement.now)) }
{
    let mut owns = Vec::new(alloc);
    push_statement(&mut owns, statement)?;
    Ok(owns)
}

// Adds those of statements, each before those of its blocks.
#[cycle(owns)]
fn push_among(
    all: &mut Vec<Vec<Own>>,
    alloc: Global,
    statements: &[Statement<'_>],
) -> Result<(), AllocError>
    ensures { OnOk result (map (λ one. one.items) all.new.items
        ≡ map (λ one. one.items) all.old.items ++ owns_among (block_of statements.now)) }
{
    for statement in statements {
        let own = owns_of(alloc, statement)?;
        all.push(own)?;
        push_inside(all, alloc, statement)?;
    }
    Ok(())
}

// Adds those of the statements of its blocks.
#[cycle(owns)]
fn push_inside(
    all: &mut Vec<Vec<Own>>,
    alloc: Global,
    statement: &Statement<'_>,
) -> Result<(), AllocError>
    ensures { OnOk result (map (λ one. one.items) all.new.items
        ≡ map (λ one. one.items) all.old.items ++ owns_inside (statement_of statement.now)) }
{
    match statement {
        Statement::If(_, _, then, otherwise) => {
            push_among(all, alloc, then)?;
            push_among(all, alloc, otherwise)
        }
        Statement::While(_, _, inside) => push_among(all, alloc, inside),
        Statement::Assign(..) | Statement::Read(..) | Statement::Write(..) => Ok(()),
        Statement::Acquire(..) | Statement::Release(..) => Ok(()),
        Statement::Barrier(_) | Statement::Print(..) => Ok(()),
    }
}

/// Returns the translation's own names in each of the statements, in the order of the core's text: a statement stands
/// before those of its blocks. It fails only if memory runs out.
pub fn owns_among(alloc: Global, statements: &[Statement<'_>]) -> Result<Vec<Vec<Own>>, AllocError>
    ensures { IfOk result (λ all. map (λ one. one.items) all.items
        ≡ owns_among (block_of statements.now)) }
{
    let mut all = Vec::new(alloc);
    push_among(&mut all, alloc, statements)?;
    Ok(all)
}
