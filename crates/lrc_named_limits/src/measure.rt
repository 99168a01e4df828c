// What is counted of expressions of the core.

ghost use Rattle.std.specs.Prelude.{◌≡◌, ◌≤◌, None, min};
ghost use Rattle.lrc_lang.specs.Grammar.{joins};
ghost use Rattle.lrc_named_core.specs.Tree.{Expression as TheExpression, binary as the_binary, private as the_private};
ghost use Rattle.lrc_named_core.specs.Shape.{tree_of};
ghost use Rattle.lrc_named_core.specs.View.{expression_of, private_of};
ghost use Rattle.lrc_named_text.specs.Expressions.{left_room, right_room};
ghost use Rattle.lrc_named_limits.specs.Limits.{operators, surrounded};
ghost use Rattle.lrc_named_limits.specs.Measure.{IsMeasure, needs_parentheses};

use lrc_named_core::tree::{Expression, Private, Tree};
use lrc_program::Operator;

/// What is counted of an expression of the core.
#[derive(Clone, Copy)]
pub struct Measure {
    /// How many operators it has; 257 stands for any more.
    pub operators: u32,
    /// How many `(` are open at most in its text, without parentheses around it; 33 stands for any more.
    pub depth: u32,
    /// The operator that joins its sides, if it has sides.
    pub top: Option<Operator>,
    /// The greatest number of a name of the translation's own; 0 where there is none.
    pub own: u32,
}

// Whether an expression with this operator needs parentheses to the left of an operator.
fn groups_left(operator: Operator, top: Option<Operator>) -> bool
    ensures { result ≡ needs_parentheses (left_room (joins operator)) top }
{
    match top {
        None => false,
        Some(inside) => match operator {
            Operator::Multiply | Operator::Divide | Operator::Remainder => !matches!(
                inside,
                Operator::Multiply | Operator::Divide | Operator::Remainder
            ),
            _ => !matches!(
                inside,
                Operator::Multiply
                    | Operator::Divide
                    | Operator::Remainder
                    | Operator::Add
                    | Operator::Subtract
            ),
        },
    }
}

// Whether it needs them to the right of an operator.
fn groups_right(operator: Operator, top: Option<Operator>) -> bool
    ensures { result ≡ needs_parentheses (right_room (joins operator)) top }
{
    match top {
        None => false,
        Some(inside) => match operator {
            Operator::Multiply | Operator::Divide | Operator::Remainder => true,
            Operator::Add | Operator::Subtract => !matches!(
                inside,
                Operator::Multiply | Operator::Divide | Operator::Remainder
            ),
            _ => !matches!(
                inside,
                Operator::Multiply
                    | Operator::Divide
                    | Operator::Remainder
                    | Operator::Add
                    | Operator::Subtract
            ),
        },
    }
}

// One more, where there are parentheses around.
fn around(grouped: bool, depth: u32) -> u32
    requires { depth ≤ 33 }
    ensures { result ≡ surrounded grouped depth }
{
    if grouped { depth + 1 } else { depth }
}

impl Measure {
    /// Returns the measure of a number, of `me` and of `nodes`.
    pub fn nothing() -> Measure
        ensures { result ≡ record { operators = 0; depth = 0; top = None; own = 0 } }
    {
        Measure {
            operators: 0,
            depth: 0,
            top: None,
            own: 0,
        }
    }

    /// Returns the measure of a private name.
    pub fn private(name: Private<'_>) -> Measure
        ensures { IsMeasure (the_private (private_of name.entry)) result }
    {
        let own = match name {
            Private::Named(_) => 0,
            Private::Own(number, _, _) => number,
        };
        Measure {
            operators: 0,
            depth: 0,
            top: None,
            own,
        }
    }

    /// Returns the measure of an operator and its sides.
    pub fn binary(left: Measure, operator: Operator, right: Measure) -> Measure
        requires left { left.depth ≤ 33 }
        requires right { right.depth ≤ 33 }
        ensures { (l r : TheExpression) → IsMeasure l left → IsMeasure r right
            → IsMeasure (the_binary l operator r) result }
    {
        let one = around(groups_left(operator, left.top), left.depth);
        let other = around(groups_right(operator, right.top), right.depth);
        Measure {
            operators: left
                .operators
                .saturating_add(right.operators)
                .saturating_add(1)
                .min(257),
            depth: one.max(other).min(33),
            top: Some(operator),
            own: left.own.max(right.own),
        }
    }
}

// What is counted of an expression that is built so.
fn measure_of_tree(tree: &Tree<'_>) -> Measure
    ensures { IsMeasure (tree_of tree.now) result }
{
    match tree {
        Tree::Number(_) | Tree::Me | Tree::Nodes => Measure::nothing(),
        Tree::Private(name) => Measure::private(*name),
        Tree::Binary(left, operator, right) => {
            let one = measure_of_tree(left);
            let other = measure_of_tree(right);
            Measure::binary(one, *operator, other)
        }
    }
}

/// Returns what is counted of an expression.
pub fn measure_of(expression: &Expression<'_>) -> Measure
    ensures { IsMeasure (expression_of expression.now) result }
{
    measure_of_tree(&expression.tree)
}

// How many operators an expression has that is built so, of which no more are looked at than there is room for.
fn operators_of_tree(tree: &Tree<'_>, room: u32) -> u32
    ensures { result ≡ min (operators (tree_of tree.now)) room }
{
    match tree {
        Tree::Number(_) | Tree::Private(_) | Tree::Me | Tree::Nodes => 0,
        Tree::Binary(left, _, right) => {
            if room == 0 {
                0
            } else {
                let one = operators_of_tree(left, room - 1);
                let other = operators_of_tree(right, room - 1 - one);
                one + other + 1
            }
        }
    }
}

/// Returns how many operators an expression has; 257 stands for any more, and no more of them are looked at.
pub fn operators_of(expression: &Expression<'_>) -> u32
    ensures { result ≡ min (operators (expression_of expression.now)) 257 }
{
    operators_of_tree(&expression.tree, 257)
}
