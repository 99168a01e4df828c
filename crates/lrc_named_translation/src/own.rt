// Parts of cores.

ghost use Rattle.std.specs.Prelude.{◌≡◌, ◌+◌, IfOk};
ghost use Rattle.lrc_named_core.specs.Tree.{has_division, has_name};
ghost use Rattle.lrc_named_core.specs.View.{block_of, expression_of};
ghost use Rattle.lrc_named_translation.specs.Made.{is_plain, truth};

use lrc_named_core::binary;
use lrc_named_core::tree::{Expression, Statement};
use lrc_program::Operator;
use std::alloc::{AllocError, Global};

/// Returns the number of the next name of the translation's own. It fails if memory runs out, as it does long before the
/// numbers do.
pub fn following(taken: u32) -> Result<u32, AllocError>
    ensures { IfOk result (λ next. next ≡ taken + 1) }
{
    match taken.checked_add(1) {
        Some(next) => Ok(next),
        None => Err(AllocError),
    }
}

/// Returns whether an expression has a division or a remainder.
pub fn has_division(expression: &Expression<'_>) -> bool
    ensures { result ≡ has_division (expression_of expression.now) }
{
    expression.divides
}

/// Returns whether nothing comes before an expression, and it does not divide.
#[tactic(auto, using(crate::proofs::Blocks::not_plain))]
pub fn is_plain(before: &[Statement<'_>], expression: &Expression<'_>) -> bool
    ensures { result ≡ is_plain (block_of before.now) (expression_of expression.now) }
{
    match before {
        [] => !has_division(expression),
        [_, ..] => false,
    }
}

/// Returns whether an expression has a private name, also one of the translation's own.
pub fn has_name(expression: &Expression<'_>) -> bool
    ensures { result ≡ has_name (expression_of expression.now) }
{
    expression.names
}

/// Returns the expression that is 1 where the value of this one is not 0, and else 0. It fails only if memory runs out.
pub fn truth<'p>(alloc: Global, value: Expression<'p>) -> Result<Expression<'p>, AllocError>
    ensures { IfOk result (λ e. expression_of e ≡ truth (expression_of value.entry)) }
{
    binary(alloc, value, Operator::NotEqual, Expression::number(0))
}
