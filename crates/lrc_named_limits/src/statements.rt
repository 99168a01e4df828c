// What of a core is over a limit.

ghost use Rattle.std.specs.Prelude.{◌≡◌, ◌⊎◌, true, IfOk};
ghost use Rattle.lrc_named_core.specs.Tree.{Expression as TheExpression};
ghost use Rattle.lrc_named_core.specs.View.{block_of, expression_of, private_of, statement_of};
ghost use Rattle.lrc_named_limits.specs.Limits.{IsBeyond, IsBlockOver, IsFirstOf, IsNameOver, IsOver, IsOverIn, IsOverInBlock};
ghost use Rattle.lrc_named_limits.specs.Measure.{IsMeasure};

use crate::excess::{Excess, Limit, earlier};
use crate::measure::{Measure, measure_of, operators_of};
use lrc_named_core::tree::{Expression, Private, Statement};
use lrc_named_translation::own::following;
use std::alloc::AllocError;

// Whether there is no room for a name of the translation's own of this number beside so many private names.
fn is_beyond(privates: u32, number: u32) -> bool
    ensures so { result ≡ true → IsBeyond privates number }
    ensures only { IsBeyond privates number → result ≡ true }
{
    number >= 1 && u64::from(number) + u64::from(privates) > 32
}

// Of an expression of which so much is counted, in the core of the statement that begins with this token.
fn of_measure(privates: u32, depth: u32, at: u32, measure: Measure) -> Option<Excess>
    ensures { (e : TheExpression) → IsMeasure e measure
        → IsFirstOf (λ x. (x.at ≡ at) × IsOver privates depth e x.limit) result }
{
    if measure.operators > 256 {
        Some(Excess {
            at,
            limit: Limit::Operators,
        })
    } else if u64::from(depth) + u64::from(measure.depth) > 32 {
        Some(Excess {
            at,
            limit: Limit::Open,
        })
    } else if is_beyond(privates, measure.own) {
        Some(Excess {
            at,
            limit: Limit::Names,
        })
    } else {
        None
    }
}

// Of an expression, likewise.
fn of_expression(privates: u32, depth: u32, at: u32, expression: &Expression<'_>) -> Option<Excess>
    ensures { IsFirstOf (λ x. (x.at ≡ at) × IsOver privates depth (expression_of expression.now) x.limit) result }
{
    let operators = operators_of(expression);
    if operators > 256 {
        Some(Excess {
            at,
            limit: Limit::Operators,
        })
    } else {
        let counted = measure_of(expression);
        of_measure(privates, depth, at, counted)
    }
}

// Of a name that a statement sets.
fn of_name(privates: u32, at: u32, name: Private<'_>) -> Option<Excess>
    ensures { IsFirstOf (λ x. (x.at ≡ at) × IsNameOver privates (private_of name.entry) x.limit) result }
{
    let number = match name {
        Private::Named(_) => 0,
        Private::Own(number, _, _) => number,
    };
    if is_beyond(privates, number) {
        Some(Excess {
            at,
            limit: Limit::Names,
        })
    } else {
        None
    }
}

// Of the `{` behind a condition.
fn of_block(depth: u32, at: u32) -> Option<Excess>
    ensures { IsFirstOf (λ x. (x.at ≡ at) × IsBlockOver depth x.limit) result }
{
    if depth >= 32 {
        Some(Excess {
            at,
            limit: Limit::Open,
        })
    } else {
        None
    }
}

// Of a statement that sets a name to a value, or to what a word holds.
fn of_set(
    privates: u32,
    depth: u32,
    at: u32,
    name: Private<'_>,
    value: &Expression<'_>,
) -> Option<Excess>
    ensures { IsFirstOf (λ x. (x.at ≡ at) × (IsNameOver privates (private_of name.entry) x.limit
        ⊎ IsOver privates depth (expression_of value.now) x.limit)) result }
{
    let own = of_name(privates, at, name);
    let inside = of_expression(privates, depth, at, value);
    earlier(own, inside)
}

// Of a statement that writes a word.
fn of_write(
    privates: u32,
    depth: u32,
    at: u32,
    word: &Expression<'_>,
    value: &Expression<'_>,
) -> Option<Excess>
    ensures { IsFirstOf (λ x. (x.at ≡ at) × (IsOver privates depth (expression_of word.now) x.limit
        ⊎ IsOver privates depth (expression_of value.now) x.limit)) result }
{
    let one = of_expression(privates, depth, at, word);
    let other = of_expression(privates, depth, at, value);
    earlier(one, other)
}

// Of a condition and the `{` behind it.
fn of_head(privates: u32, depth: u32, at: u32, condition: &Expression<'_>) -> Option<Excess>
    ensures { IsFirstOf (λ x. (x.at ≡ at) × (IsOver privates depth (expression_of condition.now) x.limit
        ⊎ IsBlockOver depth x.limit)) result }
{
    let inside = of_expression(privates, depth, at, condition);
    let behind = of_block(depth, at);
    earlier(inside, behind)
}

// Of statements.
#[cycle(statements)]
fn of_statements(
    privates: u32,
    depth: u32,
    statements: &[Statement<'_>],
) -> Result<Option<Excess>, AllocError>
    ensures { IfOk result (λ found. IsFirstOf
        (λ x. IsOverInBlock privates depth (block_of statements.now) x) found) }
{
    let mut first = None;
    for i in (0..statements.len()).rev() {
        let one = of_statement(privates, depth, &statements[i])?;
        first = earlier(one, first);
    }
    Ok(first)
}

// Of a statement, and of those in its blocks.
#[cycle(statements)]
fn of_statement(
    privates: u32,
    depth: u32,
    statement: &Statement<'_>,
) -> Result<Option<Excess>, AllocError>
    ensures { IfOk result (λ found. IsFirstOf
        (λ x. IsOverIn privates depth (statement_of statement.now) x) found) }
{
    match statement {
        Statement::Assign(origin, name, value) => {
            Ok(of_set(privates, depth, origin.statement, *name, value))
        }
        Statement::Read(origin, name, word) => {
            Ok(of_set(privates, depth, origin.statement, *name, word))
        }
        Statement::Write(origin, word, value) => {
            Ok(of_write(privates, depth, origin.statement, word, value))
        }
        Statement::Acquire(origin, lock) => {
            Ok(of_expression(privates, depth, origin.statement, lock))
        }
        Statement::Release(origin, lock) => {
            Ok(of_expression(privates, depth, origin.statement, lock))
        }
        Statement::Barrier(_) => Ok(None),
        Statement::Print(origin, value) => {
            Ok(of_expression(privates, depth, origin.statement, value))
        }
        Statement::If(origin, condition, then, otherwise) => {
            let own = of_head(privates, depth, origin.statement, condition);
            let deeper = following(depth)?;
            let one = of_statements(privates, deeper, then)?;
            let other = of_statements(privates, deeper, otherwise)?;
            Ok(earlier(own, earlier(one, other)))
        }
        Statement::While(origin, condition, inside) => {
            let own = of_head(privates, depth, origin.statement, condition);
            let deeper = following(depth)?;
            let one = of_statements(privates, deeper, inside)?;
            Ok(earlier(own, one))
        }
    }
}

/// Returns the first statement of a program whose core is over a limit, and the limit, where so many different private
/// names stand in the program. It fails only if memory runs out.
pub fn first_excess(privates: u32, core: &[Statement<'_>]) -> Result<Option<Excess>, AllocError>
    ensures { IfOk result (λ found. IsFirstOf
        (λ x. IsOverInBlock privates 0 (block_of core.now) x) found) }
{
    of_statements(privates, 0, core)
}
