// What is left of the ranges of names where a condition holds, and where it fails.

ghost use Rattle.std.specs.Prelude.{◌≡◌, ◌≢◌, ◌<◌, ◌≤◌, ◌↔◌, ℕ, List, Some, IfSome, IsTrue, slice_index};
ghost use Rattle.lrc_program.specs.declared.Operator.TheVariants.{Multiply};
ghost use Rattle.lrc_program.specs.Sizes.{names_in_expression};
ghost use Rattle.lrc_program.specs.Statements.{expression_of};
ghost use Rattle.lrc_exec.specs.Meaning.{operated, value_of};
ghost use Rattle.lrc_ranges.specs.Ranges.{AreIn, IsIn, IsMet};
ghost use Rattle.lrc_ranges.specs.Relations.{Relates};

use crate::evaluate::range_of;
use crate::range::Range;
use lrc_program::{Expression, Operator};

/// What two values that are compared are to one another.
#[derive(Clone, Copy, PartialEq, Eq)]
pub enum Relation {
    Equal,
    NotEqual,
    Less,
    LessOrEqual,
    Greater,
    GreaterOrEqual,
}

/// Narrows the ranges of the 32 private names of node `me` of `nodes` to where the condition holds, or to where it
/// fails: values with which it does stay in their ranges.
#[cycle(narrow)]
pub fn narrow(condition: &Expression, holds: bool, names: &mut [Range; 32], me: u8, nodes: u8)
    requires { names_in_expression (expression_of condition.now) ≤ 32 }
    ensures { (privates : List ℕ) (value : ℕ) → AreIn names.old privates
        → value_of me nodes privates condition.now ≡ Some value → IsMet holds value
        → AreIn names.new privates }
{
    match condition {
        Expression::Private(name) => set_met(*name, holds, names),
        Expression::Binary(left, operator, right) => {
            narrow_sides(left, *operator, right, holds, names, me, nodes);
        }
        _ => {}
    }
}

// The same of what an operator gives.
#[cycle(narrow)]
fn narrow_sides(
    left: &Expression,
    operator: Operator,
    right: &Expression,
    holds: bool,
    names: &mut [Range; 32],
    me: u8,
    nodes: u8,
)
    requires left { names_in_expression (expression_of left.now) ≤ 32 }
    requires right { names_in_expression (expression_of right.now) ≤ 32 }
    ensures { (privates : List ℕ) (a b value : ℕ) → AreIn names.old privates
        → value_of me nodes privates left.now ≡ Some a
        → value_of me nodes privates right.now ≡ Some b → operated operator a b ≡ Some value
        → IsMet holds value → AreIn names.new privates }
{
    if let Some(relation) = relation_of(operator, holds) {
        narrow_compared(left, relation, right, names, me, nodes);
    } else if holds && is_product(operator) {
        narrow(left, true, names, me, nodes);
        narrow(right, true, names, me, nodes);
    }
}

// The same of two sides that are so to one another.
#[cycle(narrow)]
fn narrow_compared(
    left: &Expression,
    relation: Relation,
    right: &Expression,
    names: &mut [Range; 32],
    me: u8,
    nodes: u8,
)
    requires left { names_in_expression (expression_of left.now) ≤ 32 }
    requires right { names_in_expression (expression_of right.now) ≤ 32 }
    ensures { (privates : List ℕ) (a b : ℕ) → AreIn names.old privates
        → value_of me nodes privates left.now ≡ Some a
        → value_of me nodes privates right.now ≡ Some b → Relates relation a b
        → AreIn names.new privates }
{
    let x = range_of(left, names, me, nodes);
    let y = range_of(right, names, me, nodes);
    set_name(left, bounded(relation, x, y), names, me, nodes);
    set_name(right, bounded(turned(relation), y, x), names, me, nodes);
    if let Some(holds) = means(relation, y) {
        narrow(left, holds, names, me, nodes);
    }
}

// Narrows the range of a name that is a condition.
fn set_met(name: u8, holds: bool, names: &mut [Range; 32])
    requires { name < 32 }
    ensures { (privates : List ℕ) → AreIn names.old privates
        → IsMet holds (slice_index privates name) → AreIn names.new privates }
{
    let place = name as usize;
    names[place] = met(names[place], holds);
}

// The values of a range with which a condition of that value holds, or fails.
fn met(range: Range, holds: bool) -> Range
    ensures { (value : ℕ) → IsIn range value → IsMet holds value → IsIn result value }
{
    if holds {
        Range {
            least: range.least.max(1),
            greatest: range.greatest,
        }
    } else {
        Range {
            least: range.least,
            greatest: 0,
        }
    }
}

// Whether an operator multiplies.
fn is_product(operator: Operator) -> bool
    ensures { IsTrue result ↔ (operator ≡ Multiply) }
{
    matches!(operator, Operator::Multiply)
}

// What a comparison says of its sides, where it holds or fails; none of other operators.
fn relation_of(operator: Operator, holds: bool) -> Option<Relation>
    ensures { IfSome result (λ relation. (a b value : ℕ) → operated operator a b ≡ Some value
        → IsMet holds value → Relates relation a b) }
{
    let relation = match operator {
        Operator::Equal => Relation::Equal,
        Operator::NotEqual => Relation::NotEqual,
        Operator::Less => Relation::Less,
        Operator::LessOrEqual => Relation::LessOrEqual,
        Operator::Greater => Relation::Greater,
        Operator::GreaterOrEqual => Relation::GreaterOrEqual,
        _ => return None,
    };
    Some(if holds { relation } else { opposite(relation) })
}

// What two values are to one another where this does not hold of them.
fn opposite(relation: Relation) -> Relation
    ensures { (a b : ℕ) → ¬ Relates relation a b → Relates result a b }
{
    match relation {
        Relation::Equal => Relation::NotEqual,
        Relation::NotEqual => Relation::Equal,
        Relation::Less => Relation::GreaterOrEqual,
        Relation::LessOrEqual => Relation::Greater,
        Relation::Greater => Relation::LessOrEqual,
        Relation::GreaterOrEqual => Relation::Less,
    }
}

// The same of the two values in the other order.
fn turned(relation: Relation) -> Relation
    ensures { (a b : ℕ) → Relates relation a b → Relates result b a }
{
    match relation {
        Relation::Equal => Relation::Equal,
        Relation::NotEqual => Relation::NotEqual,
        Relation::Less => Relation::Greater,
        Relation::LessOrEqual => Relation::GreaterOrEqual,
        Relation::Greater => Relation::Less,
        Relation::GreaterOrEqual => Relation::LessOrEqual,
    }
}

// The values of the one range that are so to some value of the other.
fn bounded(relation: Relation, side: Range, other: Range) -> Range
    ensures { (a b : ℕ) → IsIn side a → IsIn other b → Relates relation a b → IsIn result a }
{
    match relation {
        Relation::Equal => Range {
            least: side.least.max(other.least),
            greatest: side.greatest.min(other.greatest),
        },
        Relation::NotEqual => without(side, other),
        Relation::Less => below(side, other),
        Relation::LessOrEqual => Range {
            least: side.least,
            greatest: side.greatest.min(other.greatest),
        },
        Relation::Greater => Range {
            least: side.least.max(other.least.saturating_add(1)),
            greatest: side.greatest,
        },
        Relation::GreaterOrEqual => Range {
            least: side.least.max(other.least),
            greatest: side.greatest,
        },
    }
}

// The values of the one range that are less than some value of the other.
fn below(side: Range, other: Range) -> Range
    ensures { (a b : ℕ) → IsIn side a → IsIn other b → a < b → IsIn result a }
{
    if !other.is_bounded() {
        return side;
    }
    Range {
        least: side.least,
        greatest: side.greatest.min(other.greatest.saturating_sub(1)),
    }
}

// The values of the one range without the only value of the other, if that has one value and it is at the edge.
fn without(side: Range, other: Range) -> Range
    ensures { (a b : ℕ) → IsIn side a → IsIn other b → a ≢ b → IsIn result a }
{
    if !other.is_bounded() || other.least != other.greatest {
        return side;
    }
    if side.least == other.least {
        return Range {
            least: side.least.saturating_add(1),
            greatest: side.greatest,
        };
    }
    if side.greatest == other.greatest {
        return Range {
            least: side.least,
            greatest: side.greatest.saturating_sub(1),
        };
    }
    side
}

// Whether the one value, which is so to a value of the other range, is known to be a condition that holds or fails.
fn means(relation: Relation, other: Range) -> Option<bool>
    ensures { IfSome result (λ holds. (a b : ℕ) → IsIn other b → Relates relation a b
        → IsMet holds a) }
{
    if other.greatest != 0 {
        return None;
    }
    match relation {
        Relation::Equal => Some(false),
        Relation::NotEqual => Some(true),
        _ => None,
    }
}

// Sets the range of a name, if the expression is one that has values in this range.
fn set_name(expression: &Expression, range: Range, names: &mut [Range; 32], me: u8, nodes: u8)
    requires { names_in_expression (expression_of expression.now) ≤ 32 }
    ensures { (privates : List ℕ) (value : ℕ) → AreIn names.old privates
        → value_of me nodes privates expression.now ≡ Some value → IsIn range value
        → AreIn names.new privates }
{
    let _node = (me, nodes);
    if let Expression::Private(name) = expression {
        names[*name as usize] = range;
    }
}
