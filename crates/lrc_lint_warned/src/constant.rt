// The values of constants.

ghost use Rattle.std.specs.Prelude.{◌≡◌};
ghost use Rattle.lrc_program.specs.Statements.{expression_of};
ghost use Rattle.lrc_lint_warned.specs.Constant.{constant_of, is_closed, is_constant};

use lrc_exec::value::evaluate;
use lrc_program::Expression;

/// Returns the value of a constant expression, or none if the expression is not constant. A constant expression has no
/// name, no `me` and no `nodes`, and does not divide by zero.
pub fn constant_of(expression: &Expression) -> Option<u64>
    ensures { result ≡ constant_of (expression_of expression.now) }
{
    if is_closed(expression) {
        evaluate(expression, &[0; 32], 0, 0).ok()
    } else {
        None
    }
}

// Whether an expression has no name, no `me` and no `nodes`. Then its value is the same on every node.
fn is_closed(expression: &Expression) -> bool
    ensures { result ≡ is_closed (expression_of expression.now) }
{
    match expression {
        Expression::Number(_) => true,
        Expression::Binary(left, _, right) => is_closed(left) && is_closed(right),
        _ => false,
    }
}

/// Returns whether an expression is this constant.
pub fn is_constant(expression: &Expression, value: u64) -> bool
    ensures { result ≡ is_constant (expression_of expression.now) value }
{
    match constant_of(expression) {
        Some(found) => found == value,
        None => false,
    }
}
