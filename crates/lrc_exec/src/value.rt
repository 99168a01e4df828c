// The values of expressions.

ghost use Rattle.std.specs.Prelude.{◌≡◌, ◌≤◌, IfSome, Some, ok_or};
ghost use Rattle.lrc_program.specs.Sizes.{names_in_expression};
ghost use Rattle.lrc_program.specs.Statements.{expression_of};
ghost use Rattle.lrc_exec.specs.Meaning.{operated, combined, value_of};

use lrc_program::{Expression, Operator};
use lrc_trace::act::Cause;

/// Returns what an operator gives, modulo 2^64, or none if it divides by zero.
pub fn apply(operator: Operator, x: u64, y: u64) -> Option<u64>
    ensures { result ≡ operated operator x y }
{
    match operator {
        Operator::Add => Some(x.wrapping_add(y)),
        Operator::Subtract => Some(x.wrapping_sub(y)),
        Operator::Multiply => Some(x.wrapping_mul(y)),
        Operator::Divide => x.checked_div(y),
        Operator::Remainder => x.checked_rem(y),
        Operator::Equal => Some(u64::from(x == y)),
        Operator::NotEqual => Some(u64::from(x != y)),
        Operator::Less => Some(u64::from(x < y)),
        Operator::LessOrEqual => Some(u64::from(x <= y)),
        Operator::Greater => Some(u64::from(x > y)),
        Operator::GreaterOrEqual => Some(u64::from(x >= y)),
    }
}

/// Returns the value of an expression on node `me` of `nodes`, given the values of the 32 private names. It fails only
/// if it divides by zero.
pub fn evaluate(
    expression: &Expression,
    privates: &[u64; 32],
    me: u8,
    nodes: u8,
) -> Result<u64, Cause>
    requires { names_in_expression (expression_of expression.now) ≤ 32 }
    ensures { result ≡ ok_or (value_of me nodes privates.now expression.now) Cause.DivisionByZero }
{
    compute(expression, privates, me, nodes).ok_or(Cause::DivisionByZero)
}

/// Returns the same value, or none if it divides by zero. An expression without an operator is read inline, at the
/// place of the call.
#[cycle(value)]
#[inline(always)]
pub(crate) fn compute(
    expression: &Expression,
    privates: &[u64; 32],
    me: u8,
    nodes: u8,
) -> Option<u64>
    requires { names_in_expression (expression_of expression.now) ≤ 32 }
    ensures { result ≡ value_of me nodes privates.now expression.now }
{
    match expression {
        Expression::Number(n) => Some(*n),
        Expression::Private(name) => Some(privates[*name as usize]),
        Expression::Me => Some(u64::from(me)),
        Expression::Nodes => Some(u64::from(nodes)),
        Expression::Binary(left, operator, right) => {
            combine(left, *operator, right, privates, me, nodes)
        }
    }
}

// What an operator gives of the values of its sides. Most sides have no operator, and then nothing more is called.
#[cycle(value)]
#[inline(never)]
fn combine(
    left: &Expression,
    operator: Operator,
    right: &Expression,
    privates: &[u64; 32],
    me: u8,
    nodes: u8,
) -> Option<u64>
    requires left { names_in_expression (expression_of left.now) ≤ 32 }
    requires right { names_in_expression (expression_of right.now) ≤ 32 }
    ensures { result ≡ combined operator (value_of me nodes privates.now left.now)
        (value_of me nodes privates.now right.now) }
{
    let Some(x) = leaf_value(left, privates, me, nodes) else {
        return combine_deep(left, operator, right, privates, me, nodes);
    };
    let Some(y) = leaf_value(right, privates, me, nodes) else {
        return combine_deep(left, operator, right, privates, me, nodes);
    };
    apply(operator, x, y)
}

// The same, the left side evaluated first.
#[cycle(value)]
#[inline(never)]
fn combine_deep(
    left: &Expression,
    operator: Operator,
    right: &Expression,
    privates: &[u64; 32],
    me: u8,
    nodes: u8,
) -> Option<u64>
    requires left { names_in_expression (expression_of left.now) ≤ 32 }
    requires right { names_in_expression (expression_of right.now) ≤ 32 }
    ensures { result ≡ combined operator (value_of me nodes privates.now left.now)
        (value_of me nodes privates.now right.now) }
{
    let x = compute(left, privates, me, nodes)?;
    let y = compute(right, privates, me, nodes)?;
    apply(operator, x, y)
}

// The value of an expression without an operator; none of any other.
#[inline(always)]
fn leaf_value(expression: &Expression, privates: &[u64; 32], me: u8, nodes: u8) -> Option<u64>
    requires { names_in_expression (expression_of expression.now) ≤ 32 }
    ensures { IfSome result (λ value. value_of me nodes privates.now expression.now ≡ Some value) }
{
    match expression {
        Expression::Number(n) => Some(*n),
        Expression::Private(name) => Some(privates[*name as usize]),
        Expression::Me => Some(u64::from(me)),
        Expression::Nodes => Some(u64::from(nodes)),
        Expression::Binary(..) => None,
    }
}
