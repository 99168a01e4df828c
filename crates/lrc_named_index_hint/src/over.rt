// Indices whose values are not below their sizes.

ghost use Rattle.std.specs.Prelude.{◌≡◌, ◌≤◌, IfOk, map, slice_get};
ghost use Rattle.lrc_named_tree.specs.View.{expression_of};
ghost use Rattle.lrc_named_names.specs.View.{declared_of};
ghost use Rattle.lrc_named_constants.specs.Well.{IsSound};
ghost use Rattle.lrc_named_expression_faults.specs.Expressions.{IsInExpression};
ghost use Rattle.lrc_named_expression_faults.specs.Extent.{AreExtents};
ghost use Rattle.lrc_named_expression_faults.specs.Fault.{IsNone};
ghost use Rattle.lrc_named_expression_faults.specs.View.{scope_of, sense_seen};
ghost use Rattle.lrc_named_index_hint.specs.Over.{IsFound, IsIndexOver, IsOneOver, IsOver, sizes_of};
ghost use Rattle.lrc_named_index_hint.specs.Spots.{spot_seen};

use crate::spots::Spot;
use lrc_named_expression_faults::scope::{Scope, Sense};
use lrc_named_names::names::Meaning;
use lrc_named_tree::tree::Expression;
use std::alloc::AllocError;

/// The value of an index, and the size that it is not below.
#[derive(Clone, Copy)]
pub(crate) struct Beyond {
    pub(crate) value: u64,
    pub(crate) size: u32,
}

/// Returns the value and the size of the first of these indices whose value is not below its size, if there is one. It
/// fails only if memory runs out.
pub(crate) fn one_over<'p>(
    scope: &Scope<'_, '_, 'p>,
    spots: &[Spot<'_, 'p>],
) -> Result<Option<Beyond>, AllocError>
    requires table { IsSound (declared_of scope.now.names.now) }
    requires extents { AreExtents (declared_of scope.now.names.now) scope.now.extents.now }
    ensures { IfOk result (λ found. IsFound
        (λ value size. IsOneOver (scope_of scope.now) (map spot_seen spots.now) value size) found) }
{
    for spot in spots {
        let found = over(scope, *spot)?;
        if let Some(beyond) = found {
            return Ok(Some(beyond));
        }
    }
    Ok(None)
}

fn over<'p>(scope: &Scope<'_, '_, 'p>, spot: Spot<'_, 'p>) -> Result<Option<Beyond>, AllocError>
    requires table { IsSound (declared_of scope.now.names.now) }
    requires extents { AreExtents (declared_of scope.now.names.now) scope.now.extents.now }
    ensures { IfOk result (λ found. IsFound
        (λ value size. IsOver (scope_of scope.now) (spot_seen spot.entry) value size) found) }
{
    let sizes = sizes_of(scope.sense(spot.name.bytes));
    match size_at(sizes, spot.number) {
        Some(size) => index_over(scope, spot.index, size),
        None => Ok(None),
    }
}

// The sizes of a shared item or of a lock; nothing else has any.
fn sizes_of<'t>(sense: Sense<'t, '_, '_>) -> &'t [u32]
    ensures { result.now ≡ sizes_of (sense_seen sense.entry) }
{
    match sense {
        Sense::Declared(meaning) => match meaning {
            Meaning::Shared(item) => &item.sizes,
            Meaning::Lock(item) => &item.sizes,
            Meaning::Constant(_) | Meaning::Function(_, _) => &[],
        },
        Sense::Parameter | Sense::Private | Sense::Unknown => &[],
    }
}

fn size_at(sizes: &[u32], number: usize) -> Option<u32>
    ensures { result ≡ slice_get sizes.now number }
{
    sizes.get(number).copied()
}

fn index_over<'p>(
    scope: &Scope<'_, '_, 'p>,
    index: &Expression<'p>,
    size: u32,
) -> Result<Option<Beyond>, AllocError>
    requires table { IsSound (declared_of scope.now.names.now) }
    requires extents { AreExtents (declared_of scope.now.names.now) scope.now.extents.now }
    ensures { IfOk result (λ found. IsFound (λ value own. (own ≡ size)
        × IsIndexOver (scope_of scope.now) (expression_of index.now) value own) found) }
{
    match scope.expression(index)? {
        Some(_) => Ok(None),
        None => clean_over(scope, index, size),
    }
}

// The same, of an index without a fault inside.
fn clean_over<'p>(
    scope: &Scope<'_, '_, 'p>,
    index: &Expression<'p>,
    size: u32,
) -> Result<Option<Beyond>, AllocError>
    requires table { IsSound (declared_of scope.now.names.now) }
    requires clean { IsNone (λ f. IsInExpression (scope_of scope.now) (expression_of index.now) f) }
    ensures { IfOk result (λ found. IsFound (λ value own. (own ≡ size)
        × IsIndexOver (scope_of scope.now) (expression_of index.now) value own) found) }
{
    match scope.value(index)? {
        Some(value) => Ok(over_if(value, size)),
        None => Ok(None),
    }
}

fn over_if(value: u64, size: u32) -> Option<Beyond>
    ensures { IsFound (λ v own. (v ≡ value) × (own ≡ size) × (size ≤ value)) result }
{
    if value < u64::from(size) {
        None
    } else {
        Some(Beyond { value, size })
    }
}
