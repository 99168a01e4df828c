// Divisions by the constant 0, and comparisons that say whether a value is below 0.

ghost use Rattle.std.specs.Prelude.{◌≡◌, ◌++◌, OnOk, map};
ghost use Rattle.lrc_program.specs.Statements.{expression_of};
ghost use Rattle.lrc_lint_warned.specs.Found.{node_seen};
ghost use Rattle.lrc_lint_warned.specs.Operations.{below_zero, below_zero_kind, division_by_zero, division_kind, kind_if};

use crate::constant::is_constant;
use crate::found::{Found, Kind, NodeAt, push_found};
use lrc_program::{Expression, Operator};
use std::alloc::AllocError;

/// Adds the divisions whose right operand is the constant 0.
pub fn division_by_zero(out: &mut Vec<Found>, nodes: &[NodeAt<'_>]) -> Result<(), AllocError>
    ensures { OnOk result (out.new.items
        ≡ out.old.items ++ division_by_zero (map node_seen nodes.now)) }
{
    for n in nodes {
        push_found(out, n.at as usize, division_kind(n.node))?;
    }
    Ok(())
}

fn division_kind(node: &Expression) -> Option<Kind>
    ensures { result ≡ division_kind (expression_of node.now) }
{
    match node {
        Expression::Binary(_, Operator::Divide | Operator::Remainder, right) => {
            kind_if(is_constant(right, 0), Kind::DivisionByZero)
        }
        _ => None,
    }
}

/// Adds the comparisons with the constant 0 that say whether a value is below 0.
pub fn below_zero(out: &mut Vec<Found>, nodes: &[NodeAt<'_>]) -> Result<(), AllocError>
    ensures { OnOk result (out.new.items ≡ out.old.items ++ below_zero (map node_seen nodes.now)) }
{
    for n in nodes {
        push_found(out, n.at as usize, below_zero_kind(n.node))?;
    }
    Ok(())
}

fn below_zero_kind(node: &Expression) -> Option<Kind>
    ensures { result ≡ below_zero_kind (expression_of node.now) }
{
    match node {
        Expression::Binary(_, Operator::Less, right) => {
            kind_if(is_constant(right, 0), Kind::BelowZero(false))
        }
        Expression::Binary(left, Operator::Greater, _) => {
            kind_if(is_constant(left, 0), Kind::BelowZero(false))
        }
        Expression::Binary(_, Operator::GreaterOrEqual, right) => {
            kind_if(is_constant(right, 0), Kind::BelowZero(true))
        }
        Expression::Binary(left, Operator::LessOrEqual, _) => {
            kind_if(is_constant(left, 0), Kind::BelowZero(true))
        }
        _ => None,
    }
}

/// Returns the kind of warning if this holds, or none.
pub(crate) fn kind_if(holds: bool, kind: Kind) -> Option<Kind>
    ensures { result ≡ kind_if holds kind }
{
    if holds { Some(kind) } else { None }
}
