// What is known of an expression, by what is known of its parts.

ghost use Rattle.std.specs.Prelude.{◌≡◌};
ghost use Rattle.lrc_named_constants.specs.Combine.{joined, truth_of, unless_varies, both_of, either_of};

use crate::constancy::Constancy;
use lrc_exec::value::apply;
use lrc_program::Operator;

/// Returns what is known of an operator and its sides.
pub fn join(operator: Operator, left: Constancy, right: Constancy) -> Constancy
    ensures { result ≡ joined operator left right }
{
    match (left, right) {
        (Constancy::Varies, _) | (_, Constancy::Varies) => Constancy::Varies,
        (Constancy::Value(x), Constancy::Value(y)) => match apply(operator, x, y) {
            Some(value) => Constancy::Value(value),
            None => Constancy::Undefined,
        },
        _ => Constancy::Undefined,
    }
}

// What is known of whether it holds.
fn truth(right: Constancy) -> Constancy
    ensures { result ≡ truth_of right }
{
    join(Operator::NotEqual, right, Constancy::Value(0))
}

// What is known, unless the other one varies.
fn keep(right: Constancy, known: Constancy) -> Constancy
    ensures { result ≡ unless_varies right known }
{
    match right {
        Constancy::Varies => Constancy::Varies,
        _ => known,
    }
}

/// Returns what is known of `left and right`.
pub fn both(left: Constancy, right: Constancy) -> Constancy
    ensures { result ≡ both_of left right }
{
    match left {
        Constancy::Varies => Constancy::Varies,
        Constancy::Undefined => keep(right, Constancy::Undefined),
        Constancy::Value(0) => keep(right, Constancy::Value(0)),
        Constancy::Value(_) => truth(right),
    }
}

/// Returns what is known of `left or right`.
pub fn either(left: Constancy, right: Constancy) -> Constancy
    ensures { result ≡ either_of left right }
{
    match left {
        Constancy::Varies => Constancy::Varies,
        Constancy::Undefined => keep(right, Constancy::Undefined),
        Constancy::Value(0) => truth(right),
        Constancy::Value(_) => keep(right, Constancy::Value(1)),
    }
}
