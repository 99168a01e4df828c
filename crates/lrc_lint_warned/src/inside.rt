// What stands in expressions and statements, in the order of the text.

ghost use Rattle.std.specs.Prelude.{◌≡◌, ◌++◌, ◌∷◌, IfOk, OnOk, map};
ghost use Rattle.lrc_program.specs.Statements.{block_of, expression_of, statement_of};
ghost use Rattle.lrc_lint_warned.specs.Inside.{nodes_in, nodes_of, statements_in, within};

use lrc_program::{Expression, Statement};
use std::alloc::{AllocError, Global};

/// Returns the parts of an expression, in the order of their tokens. It fails if memory runs out.
pub fn nodes_in<'p>(
    alloc: Global,
    expression: &'p Expression,
) -> Result<Vec<&'p Expression>, AllocError>
    ensures { IfOk result (λ nodes. map (λ n. expression_of n.now) nodes.items
        ≡ nodes_in (expression_of expression.entry.now)) }
{
    let mut nodes = Vec::new(alloc);
    put_nodes(&mut nodes, expression)?;
    Ok(nodes)
}

fn put_nodes<'p>(
    out: &mut Vec<&'p Expression>,
    expression: &'p Expression,
) -> Result<(), AllocError>
    ensures { OnOk result (map (λ n. expression_of n.now) out.new.items
        ≡ map (λ n. expression_of n.now) out.old.items
        ++ nodes_in (expression_of expression.entry.now)) }
{
    match expression {
        Expression::Binary(left, _, right) => {
            put_nodes(out, left)?;
            out.push(expression)?;
            put_nodes(out, right)
        }
        _ => {
            out.push(expression)?;
            Ok(())
        }
    }
}

/// Adds the parts of a statement's expressions.
pub fn put_nodes_of<'p>(
    out: &mut Vec<&'p Expression>,
    statement: &'p Statement,
) -> Result<(), AllocError>
    ensures { OnOk result (map (λ n. expression_of n.now) out.new.items
        ≡ map (λ n. expression_of n.now) out.old.items
        ++ nodes_of (statement_of statement.entry.now)) }
{
    match statement {
        Statement::Assign(_, one)
        | Statement::Read(_, one)
        | Statement::Acquire(one)
        | Statement::Release(one)
        | Statement::Print(one)
        | Statement::If(one, _, _)
        | Statement::While(one, _) => put_nodes(out, one),
        Statement::Write(word, value) => {
            put_nodes(out, word)?;
            put_nodes(out, value)
        }
        Statement::Barrier => Ok(()),
    }
}

/// Returns the statements of a block, with those of their blocks, in the order of the text. It fails if memory runs
/// out.
pub fn statements_in<'p>(
    alloc: Global,
    block: &'p [Statement],
) -> Result<Vec<&'p Statement>, AllocError>
    ensures { IfOk result (λ all. map (λ s. statement_of s.now) all.items
        ≡ statements_in (block_of block.entry.now)) }
{
    let mut all = Vec::new(alloc);
    put_block(&mut all, block)?;
    Ok(all)
}

#[cycle(inside)]
fn put_block<'p>(out: &mut Vec<&'p Statement>, block: &'p [Statement]) -> Result<(), AllocError>
    ensures { OnOk result (map (λ s. statement_of s.now) out.new.items
        ≡ map (λ s. statement_of s.now) out.old.items ++ statements_in (block_of block.entry.now)) }
{
    for statement in block {
        put_statement(out, statement)?;
    }
    Ok(())
}

/// Adds a statement, and the statements of its blocks.
#[cycle(inside)]
pub fn put_statement<'p>(
    out: &mut Vec<&'p Statement>,
    statement: &'p Statement,
) -> Result<(), AllocError>
    ensures { OnOk result (map (λ s. statement_of s.now) out.new.items
        ≡ map (λ s. statement_of s.now) out.old.items
        ++ (statement_of statement.entry.now ∷ within (statement_of statement.entry.now))) }
{
    out.push(statement)?;
    match statement {
        Statement::If(_, then, otherwise) => {
            put_block(out, then)?;
            put_block(out, otherwise)
        }
        Statement::While(_, inside) => put_block(out, inside),
        _ => Ok(()),
    }
}
