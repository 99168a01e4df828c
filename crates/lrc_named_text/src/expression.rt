// The text of expressions.

ghost use Rattle.std.specs.Prelude.{◌≡◌, ◌++◌, OnOk, codes};
ghost use Rattle.lrc_lang.specs.Grammar.{joins};
ghost use Rattle.lrc_named_core.specs.Shape.{private_of, tree_of};
ghost use Rattle.lrc_named_core.specs.View.{expression_of};
ghost use Rattle.lrc_named_text.specs.Expressions.{expression_text, is_grouped, left_room, operator_text, private_text, right_room};

use lrc_named_core::tree::{Expression, Private, Tree};
use lrc_program::Operator;
use lrc_text::push_number;
use std::alloc::AllocError;

/// What may stand in a place of an expression without parentheses around it.
#[derive(Clone, Copy)]
pub enum Room {
    Factor,
    Term,
    Sum,
    /// A whole expression.
    Whole,
}

// How an operator is written.
fn spelling(operator: Operator) -> &'static [u8]
    ensures { result.now ≡ operator_text operator }
{
    match operator {
        Operator::Add => b"+",
        Operator::Subtract => b"-",
        Operator::Multiply => b"*",
        Operator::Divide => b"/",
        Operator::Remainder => b"%",
        Operator::Equal => b"==",
        Operator::NotEqual => b"!=",
        Operator::Less => b"<",
        Operator::LessOrEqual => b"<=",
        Operator::Greater => b">",
        Operator::GreaterOrEqual => b">=",
    }
}

// For what there is room to the left of an operator.
fn left_room(operator: Operator) -> Room
    ensures { result ≡ left_room (joins operator) }
{
    match operator {
        Operator::Multiply | Operator::Divide | Operator::Remainder => Room::Term,
        _ => Room::Sum,
    }
}

// For what there is room to the right of an operator.
fn right_room(operator: Operator) -> Room
    ensures { result ≡ right_room (joins operator) }
{
    match operator {
        Operator::Multiply | Operator::Divide | Operator::Remainder => Room::Factor,
        Operator::Add | Operator::Subtract => Room::Term,
        _ => Room::Sum,
    }
}

// Whether an operator and its sides need parentheses where there is room for this.
fn is_grouped(room: Room, operator: Operator) -> bool
    ensures { result ≡ is_grouped room (joins operator) }
{
    match room {
        Room::Factor => true,
        Room::Term => !matches!(
            operator,
            Operator::Multiply | Operator::Divide | Operator::Remainder
        ),
        Room::Sum => !matches!(
            operator,
            Operator::Multiply
                | Operator::Divide
                | Operator::Remainder
                | Operator::Add
                | Operator::Subtract
        ),
        Room::Whole => false,
    }
}

/// Adds a private name to a text.
pub fn push_private(text: &mut Vec<u8>, name: Private<'_>) -> Result<(), AllocError>
    ensures { OnOk result (text.new.items
        ≡ text.old.items ++ private_text (private_of name.entry)) }
{
    match name {
        Private::Named(bytes) => text.extend_from_slice(bytes),
        Private::Own(number, _, _) => push_number(text, b"_", u64::from(number)),
    }
}

/// Adds an expression to a text, where there is room for this without parentheses. It fails only if memory runs out.
pub fn push_expression(
    text: &mut Vec<u8>,
    room: Room,
    expression: &Expression<'_>,
) -> Result<(), AllocError>
    ensures { OnOk result (text.new.items
        ≡ text.old.items ++ expression_text room (expression_of expression.now)) }
{
    push_tree(text, room, &expression.tree)
}

// Adds an expression that is built so.
#[cycle(expression)]
fn push_tree(text: &mut Vec<u8>, room: Room, tree: &Tree<'_>) -> Result<(), AllocError>
    ensures { OnOk result (text.new.items
        ≡ text.old.items ++ expression_text room (tree_of tree.now)) }
{
    match tree {
        Tree::Number(n) => push_number(text, b"", *n),
        Tree::Private(name) => push_private(text, *name),
        Tree::Me => text.extend_from_slice(b"me"),
        Tree::Nodes => text.extend_from_slice(b"nodes"),
        Tree::Binary(left, operator, right) => {
            if is_grouped(room, *operator) {
                text.extend_from_slice(b"(")?;
                push_sides(text, left, *operator, right)?;
                text.extend_from_slice(b")")
            } else {
                push_sides(text, left, *operator, right)
            }
        }
    }
}

// Adds an operator and its sides to a text.
#[cycle(expression)]
fn push_sides(
    text: &mut Vec<u8>,
    left: &Tree<'_>,
    operator: Operator,
    right: &Tree<'_>,
) -> Result<(), AllocError>
    ensures { OnOk result (text.new.items ≡ text.old.items
        ++ (expression_text (left_room (joins operator)) (tree_of left.now)
        ++ codes " " ++ operator_text operator ++ codes " "
        ++ expression_text (right_room (joins operator)) (tree_of right.now))) }
{
    push_tree(text, left_room(operator), left)?;
    text.extend_from_slice(b" ")?;
    text.extend_from_slice(spelling(operator))?;
    text.extend_from_slice(b" ")?;
    push_tree(text, right_room(operator), right)
}
