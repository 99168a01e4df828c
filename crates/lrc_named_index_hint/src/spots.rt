// The indices that begin at a token.

ghost use Rattle.std.specs.Prelude.{◌≡◌, ◌++◌, IfOk, OnOk, map};
ghost use Rattle.lrc_named_tree.specs.View.{expression_of, expressions_of, named_of};
ghost use Rattle.lrc_named_statement_faults.specs.Parts.{part_seen};
ghost use Rattle.lrc_named_index_hint.specs.Spots.{spot_at, spot_seen, spots_among, spots_in, spots_in_all, spots_in_part, spots_in_parts};

use lrc_named_statement_faults::parts::Part;
use lrc_named_tree::tree::{Expression, Name};
use std::alloc::{AllocError, Global};

/// An index: of which name, how many indices of that name stand before it, and the index.
#[derive(Clone, Copy)]
pub(crate) struct Spot<'s, 'p> {
    pub(crate) name: Name<'p>,
    pub(crate) number: usize,
    pub(crate) index: &'s Expression<'p>,
}

/// Returns the indices in an expression that begin at a token. It fails only if memory runs out.
pub(crate) fn spots_in<'s, 'p>(
    alloc: Global,
    at: u64,
    expression: &'s Expression<'p>,
) -> Result<Vec<Spot<'s, 'p>>, AllocError>
    ensures { IfOk result (λ spots. map spot_seen spots.items
        ≡ spots_in at (expression_of expression.entry.now)) }
{
    let mut spots = Vec::new(alloc);
    push_in(&mut spots, at, expression)?;
    Ok(spots)
}

/// Returns the indices in parts of statements that begin at a token. It fails only if memory runs out.
pub(crate) fn spots_in_parts<'s, 'p>(
    alloc: Global,
    at: u64,
    parts: &[Part<'s, 'p>],
) -> Result<Vec<Spot<'s, 'p>>, AllocError>
    ensures { IfOk result (λ spots. map spot_seen spots.items
        ≡ spots_in_parts at (map part_seen parts.now)) }
{
    let mut spots = Vec::new(alloc);
    for part in parts {
        push_part(&mut spots, at, *part)?;
    }
    Ok(spots)
}

fn push_part<'s, 'p>(
    spots: &mut Vec<Spot<'s, 'p>>,
    at: u64,
    part: Part<'s, 'p>,
) -> Result<(), AllocError>
    ensures { OnOk result (map spot_seen spots.new.items
        ≡ map spot_seen spots.old.items ++ spots_in_part at (part_seen part.entry)) }
{
    match part {
        Part::Target(place) => {
            push_among(spots, at, place.name, &place.indices)?;
            push_all(spots, at, &place.indices)
        }
        Part::Lock(place) => {
            push_among(spots, at, place.name, &place.indices)?;
            push_all(spots, at, &place.indices)
        }
        Part::Counter(_) => Ok(()),
        Part::Value(value) => push_in(spots, at, value),
    }
}

#[cycle(spots)]
fn push_in<'s, 'p>(
    spots: &mut Vec<Spot<'s, 'p>>,
    at: u64,
    expression: &'s Expression<'p>,
) -> Result<(), AllocError>
    ensures { OnOk result (map spot_seen spots.new.items
        ≡ map spot_seen spots.old.items ++ spots_in at (expression_of expression.now)) }
{
    match expression {
        Expression::Number(_, _) => Ok(()),
        Expression::Me(_) => Ok(()),
        Expression::Nodes(_) => Ok(()),
        Expression::Element(name, indices, _) => {
            push_among(spots, at, *name, indices)?;
            push_all(spots, at, indices)
        }
        Expression::Call(_, arguments, _) => push_all(spots, at, arguments),
        Expression::Group(_, inside, _) => push_in(spots, at, inside),
        Expression::Not(_, operand) => push_in(spots, at, operand),
        Expression::Binary(left, _, right) => {
            push_in(spots, at, left)?;
            push_in(spots, at, right)
        }
        Expression::And(left, right) => {
            push_in(spots, at, left)?;
            push_in(spots, at, right)
        }
        Expression::Or(left, right) => {
            push_in(spots, at, left)?;
            push_in(spots, at, right)
        }
    }
}

#[cycle(spots)]
fn push_all<'s, 'p>(
    spots: &mut Vec<Spot<'s, 'p>>,
    at: u64,
    expressions: &'s [Expression<'p>],
) -> Result<(), AllocError>
    ensures { OnOk result (map spot_seen spots.new.items
        ≡ map spot_seen spots.old.items ++ spots_in_all at (expressions_of expressions.now)) }
{
    for expression in expressions {
        push_in(spots, at, expression)?;
    }
    Ok(())
}

// Adds those of the indices of a name that begin at the token, and none of those inside them.
fn push_among<'s, 'p>(
    spots: &mut Vec<Spot<'s, 'p>>,
    at: u64,
    name: Name<'p>,
    indices: &'s [Expression<'p>],
) -> Result<(), AllocError>
    ensures { OnOk result (map spot_seen spots.new.items ≡ map spot_seen spots.old.items
        ++ spots_among at (named_of name.entry) 0 (expressions_of indices.now)) }
{
    for number in 0..indices.len() {
        let index = &indices[number];
        push_one(
            spots,
            at,
            Spot {
                name,
                number,
                index,
            },
        )?;
    }
    Ok(())
}

// Adds an index, if it begins at the token.
fn push_one<'s, 'p>(
    spots: &mut Vec<Spot<'s, 'p>>,
    at: u64,
    spot: Spot<'s, 'p>,
) -> Result<(), AllocError>
    ensures { OnOk result (map spot_seen spots.new.items ≡ map spot_seen spots.old.items
        ++ spot_at at (spot_seen spot.entry)) }
{
    if u64::from(spot.index.first()) == at {
        spots.push(spot)?;
    }
    Ok(())
}
