// The parts of statements in which names stand.

ghost use Rattle.std.specs.Prelude.{◌≡◌, ◌++◌, OnOk, [], ◌∷◌, map};
ghost use Rattle.lrc_named_tree.specs.Tree.{no_arm};
ghost use Rattle.lrc_named_tree.specs.View.{block_of, expressions_of, statement_of};
ghost use Rattle.lrc_named_statement_faults.specs.Parts.{arms_of, part_seen, parts_of, parts_of_arms, parts_of_block, parts_of_values, with_arm};

use lrc_named_tree::tree::{Arm, Expression, Name, Place, Statement};
use std::alloc::AllocError;

/// A part of a statement in which names stand.
#[derive(Clone, Copy)]
pub enum Part<'s, 'p> {
    /// A place that is set.
    Target(&'s Place<'p>),
    /// A lock behind `acquire`, `release` or `with`.
    Lock(&'s Place<'p>),
    /// A name behind `for`.
    Counter(Name<'p>),
    Value(&'s Expression<'p>),
}

// Adds a part.
fn push<'s, 'p>(parts: &mut Vec<Part<'s, 'p>>, part: Part<'s, 'p>) -> Result<(), AllocError>
    ensures { OnOk result (map part_seen parts.new.items
        ≡ map part_seen parts.old.items ++ part_seen part.entry ∷ []) }
{
    parts.push(part)?;
    Ok(())
}

// Adds expressions.
fn push_values<'s, 'p>(
    parts: &mut Vec<Part<'s, 'p>>,
    values: &'s [Expression<'p>],
) -> Result<(), AllocError>
    ensures { OnOk result (map part_seen parts.new.items
        ≡ map part_seen parts.old.items ++ parts_of_values (expressions_of values.now)) }
{
    for value in values {
        push(parts, Part::Value(value))?;
    }
    Ok(())
}

/// Adds the parts of statements, in the order of the text. It fails only if memory runs out.
#[cycle(parts)]
pub fn push_parts<'s, 'p>(
    parts: &mut Vec<Part<'s, 'p>>,
    statements: &'s [Statement<'p>],
) -> Result<(), AllocError>
    ensures { OnOk result (map part_seen parts.new.items
        ≡ map part_seen parts.old.items ++ parts_of_block (block_of statements.now)) }
{
    for statement in statements {
        push_statement(parts, statement)?;
    }
    Ok(())
}

// Adds the parts of each `else if`.
#[cycle(parts)]
fn push_arms<'s, 'p>(parts: &mut Vec<Part<'s, 'p>>, arms: &'s [Arm<'p>]) -> Result<(), AllocError>
    ensures { OnOk result (map part_seen parts.new.items
        ≡ map part_seen parts.old.items ++ parts_of_arms (arms_of arms.now)) }
{
    for arm in arms {
        push_arm(parts, arm)?;
    }
    Ok(())
}

// Adds the parts of an `else if`.
#[cycle(parts)]
fn push_arm<'s, 'p>(parts: &mut Vec<Part<'s, 'p>>, arm: &'s Arm<'p>) -> Result<(), AllocError>
    ensures { OnOk result (map part_seen parts.new.items
        ≡ map part_seen parts.old.items ++ parts_of_arms (with_arm arm.now no_arm)) }
{
    let Arm {
        at: _,
        condition,
        block,
    } = arm;
    push(parts, Part::Value(condition))?;
    push_parts(parts, block)
}

// Adds the parts of a statement.
#[cycle(parts)]
fn push_statement<'s, 'p>(
    parts: &mut Vec<Part<'s, 'p>>,
    statement: &'s Statement<'p>,
) -> Result<(), AllocError>
    ensures { OnOk result (map part_seen parts.new.items
        ≡ map part_seen parts.old.items ++ parts_of (statement_of statement.now)) }
{
    match statement {
        Statement::Assign(place, _, value) => {
            push(parts, Part::Target(place))?;
            push(parts, Part::Value(value))
        }
        Statement::Acquire(_, place) => push(parts, Part::Lock(place)),
        Statement::Release(_, place) => push(parts, Part::Lock(place)),
        Statement::With(_, place, inside, _) => {
            push(parts, Part::Lock(place))?;
            push_parts(parts, inside)
        }
        Statement::Barrier(_) => Ok(()),
        Statement::Print(_, values) => push_values(parts, values),
        Statement::Assert(_, condition) => push(parts, Part::Value(condition)),
        Statement::If(_, condition, then, others, otherwise) => {
            push(parts, Part::Value(condition))?;
            push_parts(parts, then)?;
            push_arms(parts, others)?;
            push_parts(parts, otherwise)
        }
        Statement::While(_, condition, inside) => {
            push(parts, Part::Value(condition))?;
            push_parts(parts, inside)
        }
        Statement::For(_, name, first, end, inside) => {
            push(parts, Part::Counter(*name))?;
            push(parts, Part::Value(first))?;
            push(parts, Part::Value(end))?;
            push_parts(parts, inside)
        }
    }
}
