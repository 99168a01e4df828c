// Ranges of the values of expressions.

ghost use Rattle.std.specs.Prelude.{◌≡◌, ◌≤◌, ℕ, List, Some};
ghost use Rattle.lrc_program.specs.Sizes.{names_in_expression};
ghost use Rattle.lrc_program.specs.Statements.{expression_of};
ghost use Rattle.lrc_exec.specs.Meaning.{value_of};
ghost use Rattle.lrc_ranges.specs.Ranges.{AreIn, IsIn};

use crate::operate::applied;
use crate::range::Range;
use lrc_program::Expression;

/// Returns a range that has each value that the expression can have on node `me` of `nodes`, if the 32 private names
/// have values in these ranges.
pub fn range_of(expression: &Expression, names: &[Range; 32], me: u8, nodes: u8) -> Range
    requires { names_in_expression (expression_of expression.now) ≤ 32 }
    ensures { (privates : List ℕ) (value : ℕ) → AreIn names.now privates
        → value_of me nodes privates expression.now ≡ Some value → IsIn result value }
{
    match expression {
        Expression::Number(n) => Range::only(*n),
        Expression::Private(name) => names[*name as usize],
        Expression::Me => Range::only(u64::from(me)),
        Expression::Nodes => Range::only(u64::from(nodes)),
        Expression::Binary(left, operator, right) => {
            let x = range_of(left, names, me, nodes);
            let y = range_of(right, names, me, nodes);
            applied(*operator, x, y)
        }
    }
}
