// The faults of names, constants, sizes and bodies.

ghost use Rattle.std.specs.Prelude.{◌≡◌, ◌||◌, ◌⊎◌, ◌∷◌, IfOk, Some, true, is_some, [], map, take};
ghost use Rattle.std.specs.Str.{bytes_eq};
ghost use Rattle.lrc_named_tree.specs.Ends.{first_of};
ghost use Rattle.lrc_named_tree.specs.View.{expression_of, named_of};
ghost use Rattle.lrc_named_names.specs.Names.{meaning_of};
ghost use Rattle.lrc_named_names.specs.View.{declared_of};
ghost use Rattle.lrc_named_constants.specs.Well.{IsSound, bytes_of, is_among};
ghost use Rattle.lrc_named_expression_faults.specs.declared.fault.FaultKind.TheVariants.{DeclaredTwice, OverLimit};
ghost use Rattle.lrc_named_expression_faults.specs.declared.fault.Limit.TheVariants.{Size};
ghost use Rattle.lrc_named_expression_faults.specs.Extent.{AreExtents};
ghost use Rattle.lrc_named_expression_faults.specs.Fault.{IsFirstOf, earlier, fault_at};
ghost use Rattle.lrc_named_expression_faults.specs.View.{scope_of};
ghost use Rattle.lrc_named_statement_faults.specs.Statements.{IsReserved};
ghost use Rattle.lrc_named_faults.specs.Declarations.{IsClean, IsInParameters};
ghost use Rattle.lrc_named_faults.specs.Values.{IsBodyFound, IsConstantFound, IsSizeFound};

use lrc_named_expression_faults::extent::Extent;
use lrc_named_expression_faults::fault::{Fault, FaultKind, Limit, earlier};
use lrc_named_expression_faults::scope::Scope;
use lrc_named_expression_faults::spelled::Spelled;
use lrc_named_names::names::Names;
use lrc_named_statement_faults::reserved;
use lrc_named_tree::tree::{Expression, Name};
use std::alloc::AllocError;

// Whether a name is declared.
fn is_declared(names: &Names<'_, '_>, name: &[u8]) -> bool
    ensures { result ≡ is_some (meaning_of (declared_of names.now) name.now) }
{
    names.meaning(names.place(name)).is_some()
}

// Whether a name stood before, here or where something is declared.
fn stood_before(names: &Names<'_, '_>, stood: bool, name: &[u8]) -> bool
    ensures { result ≡ (stood || is_some (meaning_of (declared_of names.now) name.now)) }
{
    stood || is_declared(names, name)
}

// Whether two names are spelled alike.
fn is_spelled(one: &[u8], name: &[u8]) -> bool
    ensures { result ≡ bytes_eq one.now name.now }
{
    one == name
}

/// Returns the first fault of a name that is declared, which may have stood before in the same declaration.
pub fn in_name(names: &Names<'_, '_>, stood: bool, name: Name<'_>) -> Option<Fault>
    ensures { IsFirstOf (λ f. (((stood || is_some (meaning_of (declared_of names.now) name.entry.bytes.now)) ≡ true)
        × (f ≡ fault_at name.entry.at DeclaredTwice)) ⊎ IsReserved (named_of name.entry) f) result }
{
    let before = stood_before(names, stood, name.bytes);
    let twice = Fault::at_token(name.at, FaultKind::DeclaredTwice);
    let own = twice.only_if(before);
    earlier(own, reserved(name))
}

// Whether a name is that of a function, or of one of its first so many parameters.
fn stands(function: Name<'_>, parameters: &Spelled<'_, '_>, count: usize, name: &[u8]) -> bool
    ensures { result ≡ is_among ((named_of function.entry).bytes
        ∷ bytes_of (map named_of (take count parameters.now.names.now))) name.now }
{
    is_spelled(function.bytes, name) || parameters.has_before(count, name)
}

/// Returns the first fault of the parameters of a function, if they have one.
pub fn in_parameters(
    names: &Names<'_, '_>,
    function: Name<'_>,
    parameters: &Spelled<'_, '_>,
) -> Option<Fault>
    ensures { IsFirstOf (λ f. IsInParameters (declared_of names.now) ((named_of function.entry).bytes ∷ [])
        (map named_of parameters.now.names.now) f) result }
{
    let mut first = None;
    for i in (0..parameters.names.len()).rev() {
        let name = parameters.names[i];
        let stood = stands(function, parameters, i, name.bytes);
        let one = in_name(names, stood, name);
        first = earlier(one, first);
    }
    first
}

/// What was found: a value, or the first fault.
#[derive(Drop)]
pub enum Found<T> {
    Good(T),
    Bad(Fault),
}

/// Returns the fault that is told where this one has been found, and maybe another one before.
pub fn told(own: Option<Fault>, fault: Fault) -> Fault
    ensures { Some result ≡ earlier own (Some fault) }
{
    earlier(own, Some(fault)).unwrap_or(fault)
}

/// Returns the value of a constant, or its first fault. It fails only if memory runs out.
pub fn constant_value<'p>(
    scope: &Scope<'_, '_, 'p>,
    expression: &Expression<'p>,
) -> Result<Found<u64>, AllocError>
    requires table { IsSound (declared_of scope.now.names.now) }
    requires extents { AreExtents (declared_of scope.now.names.now) scope.now.extents.now }
    ensures { IfOk result (λ found. IsConstantFound (scope_of scope.now) (expression_of expression.now) found) }
{
    let inside = scope.expression(expression)?;
    match inside {
        Some(fault) => Ok(Found::Bad(fault)),
        None => constant_without(scope, expression),
    }
}

// The value of a constant without a fault inside, or that it has none.
fn constant_without<'p>(
    scope: &Scope<'_, '_, 'p>,
    expression: &Expression<'p>,
) -> Result<Found<u64>, AllocError>
    requires table { IsSound (declared_of scope.now.names.now) }
    requires clean { IsClean (scope_of scope.now) (expression_of expression.now) }
    ensures { IfOk result (λ found. IsConstantFound (scope_of scope.now) (expression_of expression.now) found) }
{
    let value = scope.value(expression)?;
    match value {
        Some(value) => Ok(Found::Good(value)),
        None => {
            let kind = FaultKind::OverLimit(Limit::Division);
            let first = expression.first();
            Ok(Found::Bad(Fault::at_token(first, kind)))
        }
    }
}

// A value that is no size.
fn no_size(expression: &Expression<'_>) -> Fault
    ensures { result ≡ fault_at (first_of (expression_of expression.now)) (OverLimit Size) }
{
    Fault::at_token(expression.first(), FaultKind::OverLimit(Limit::Size))
}

/// Returns a size, or its first fault. It fails only if memory runs out.
pub fn size<'p>(
    scope: &Scope<'_, '_, 'p>,
    expression: &Expression<'p>,
) -> Result<Found<u32>, AllocError>
    requires table { IsSound (declared_of scope.now.names.now) }
    requires extents { AreExtents (declared_of scope.now.names.now) scope.now.extents.now }
    ensures { IfOk result (λ found. IsSizeFound (scope_of scope.now) (expression_of expression.now) found) }
{
    let inside = scope.expression(expression)?;
    match inside {
        Some(fault) => Ok(Found::Bad(fault)),
        None => size_without(scope, expression),
    }
}

// A size without a fault inside, or that it is none.
fn size_without<'p>(
    scope: &Scope<'_, '_, 'p>,
    expression: &Expression<'p>,
) -> Result<Found<u32>, AllocError>
    requires table { IsSound (declared_of scope.now.names.now) }
    requires clean { IsClean (scope_of scope.now) (expression_of expression.now) }
    ensures { IfOk result (λ found. IsSizeFound (scope_of scope.now) (expression_of expression.now) found) }
{
    let value = scope.value(expression)?;
    match value {
        Some(value) => {
            if value == 0 {
                Ok(Found::Bad(no_size(expression)))
            } else if value > 65536 {
                Ok(Found::Bad(no_size(expression)))
            } else {
                Ok(Found::Good(value as u32))
            }
        }
        None => Ok(Found::Bad(no_size(expression))),
    }
}

/// Returns what stands in the body of a function, or its first fault. It fails only if memory runs out.
pub fn body<'p>(
    scope: &Scope<'_, '_, 'p>,
    expression: &Expression<'p>,
) -> Result<Found<Extent>, AllocError>
    requires table { IsSound (declared_of scope.now.names.now) }
    requires extents { AreExtents (declared_of scope.now.names.now) scope.now.extents.now }
    ensures { IfOk result (λ found. IsBodyFound (scope_of scope.now) (expression_of expression.now) found) }
{
    let inside = scope.expression(expression)?;
    match inside {
        Some(fault) => Ok(Found::Bad(fault)),
        None => {
            let extent = scope.extent(expression);
            if extent.weight <= 256 {
                Ok(Found::Good(extent))
            } else {
                let kind = FaultKind::OverLimit(Limit::Body);
                let first = expression.first();
                Ok(Found::Bad(Fault::at_token(first, kind)))
            }
        }
    }
}
