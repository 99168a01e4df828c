// The names of statements, and those that are private.

ghost use Rattle.std.specs.Prelude.{◌≡◌, ◌++◌, [], ◌∷◌, ◌&&◌, ◌==◌, not, IfOk, OnOk, if◌then◌else◌, length, map};
ghost use Rattle.lrc_named_tree.specs.View.{expression_of, expressions_of, named_of};
ghost use Rattle.lrc_named_expression_faults.specs.Fault.{IsFirstOf};
ghost use Rattle.lrc_named_expression_faults.specs.Scope.{sense_of};
ghost use Rattle.lrc_named_expression_faults.specs.View.{scope_of};
ghost use Rattle.lrc_named_statement_faults.specs.Parts.{part_seen};
ghost use Rattle.lrc_named_statement_faults.specs.Statements.{IsOneTooMany, is_private_sense, names_in, names_in_all, names_in_part, names_in_parts, private_names, set_in, set_names};

use crate::parts::Part;
use lrc_named_expression_faults::fault::{Fault, FaultKind};
use lrc_named_expression_faults::scope::{Scope, Sense, is_one_of};
use lrc_named_tree::tree::{Expression, Name};
use std::alloc::{AllocError, Global};

// Adds a name.
fn push<'p>(names: &mut Vec<Name<'p>>, name: Name<'p>) -> Result<(), AllocError>
    ensures { OnOk result (map named_of names.new.items
        ≡ map named_of names.old.items ++ named_of name.entry ∷ []) }
{
    names.push(name)?;
    Ok(())
}

// Adds the name that a part sets, if it sets one.
fn push_set<'p>(names: &mut Vec<Name<'p>>, part: Part<'_, 'p>) -> Result<(), AllocError>
    ensures { OnOk result (map named_of names.new.items
        ≡ map named_of names.old.items ++ set_in (part_seen part.entry)) }
{
    match part {
        Part::Target(place) => match place.indices.as_slice() {
            [] => push(names, place.name),
            [_, ..] => Ok(()),
        },
        Part::Counter(name) => push(names, name),
        Part::Lock(_) => Ok(()),
        Part::Value(_) => Ok(()),
    }
}

/// Returns the names that these parts set, without an index or behind `for`. It fails only if memory runs out.
pub fn names_set<'p>(alloc: Global, parts: &[Part<'_, 'p>]) -> Result<Vec<Name<'p>>, AllocError>
    ensures { IfOk result (λ names. map named_of names.items ≡ set_names (map part_seen parts.now)) }
{
    let mut names = Vec::new(alloc);
    for part in parts {
        push_set(&mut names, *part)?;
    }
    Ok(names)
}

// Adds the names that stand in an expression.
#[cycle(names)]
fn push_names<'p>(names: &mut Vec<Name<'p>>, expression: &Expression<'p>) -> Result<(), AllocError>
    ensures { OnOk result (map named_of names.new.items
        ≡ map named_of names.old.items ++ names_in (expression_of expression.now)) }
{
    match expression {
        Expression::Number(_, _) => Ok(()),
        Expression::Me(_) => Ok(()),
        Expression::Nodes(_) => Ok(()),
        Expression::Element(name, indices, _) => {
            push(names, *name)?;
            push_all_names(names, indices)
        }
        Expression::Call(name, arguments, _) => {
            push(names, *name)?;
            push_all_names(names, arguments)
        }
        Expression::Group(_, inside, _) => push_names(names, inside),
        Expression::Not(_, operand) => push_names(names, operand),
        Expression::Binary(left, _, right) => {
            push_names(names, left)?;
            push_names(names, right)
        }
        Expression::And(left, right) => {
            push_names(names, left)?;
            push_names(names, right)
        }
        Expression::Or(left, right) => {
            push_names(names, left)?;
            push_names(names, right)
        }
    }
}

// Adds the names that stand in expressions.
#[cycle(names)]
fn push_all_names<'p>(
    names: &mut Vec<Name<'p>>,
    expressions: &[Expression<'p>],
) -> Result<(), AllocError>
    ensures { OnOk result (map named_of names.new.items
        ≡ map named_of names.old.items ++ names_in_all (expressions_of expressions.now)) }
{
    for expression in expressions {
        push_names(names, expression)?;
    }
    Ok(())
}

// Adds the names that stand in a part.
fn push_names_of_part<'p>(names: &mut Vec<Name<'p>>, part: Part<'_, 'p>) -> Result<(), AllocError>
    ensures { OnOk result (map named_of names.new.items
        ≡ map named_of names.old.items ++ names_in_part (part_seen part.entry)) }
{
    match part {
        Part::Target(place) => {
            push(names, place.name)?;
            push_all_names(names, &place.indices)
        }
        Part::Lock(place) => {
            push(names, place.name)?;
            push_all_names(names, &place.indices)
        }
        Part::Counter(name) => push(names, name),
        Part::Value(value) => push_names(names, value),
    }
}

// The names that stand in these parts, in the order of the text.
fn names_of<'p>(alloc: Global, parts: &[Part<'_, 'p>]) -> Result<Vec<Name<'p>>, AllocError>
    ensures { IfOk result (λ names. map named_of names.items ≡ names_in_parts (map part_seen parts.now)) }
{
    let mut names = Vec::new(alloc);
    for part in parts {
        push_names_of_part(&mut names, *part)?;
    }
    Ok(names)
}

// Whether a name is private here.
fn is_private(scope: &Scope<'_, '_, '_>, name: &[u8]) -> bool
    ensures { result ≡ is_private_sense (sense_of (scope_of scope.now) name.now) }
{
    match scope.sense(name) {
        Sense::Private => true,
        Sense::Parameter => false,
        Sense::Declared(_) => false,
        Sense::Unknown => false,
    }
}

// Adds a name, if it is private.
fn push_private<'p>(
    scope: &Scope<'_, '_, 'p>,
    all: &mut Vec<Name<'p>>,
    name: Name<'p>,
) -> Result<(), AllocError>
    ensures { OnOk result (map named_of all.new.items
        ≡ map named_of all.old.items ++ private_names (scope_of scope.now) (named_of name.entry ∷ [])) }
{
    if is_private(scope, name.bytes) {
        push(all, name)
    } else {
        Ok(())
    }
}

// Those of the names that are private.
fn private_ones<'p>(
    scope: &Scope<'_, '_, 'p>,
    names: &[Name<'p>],
) -> Result<Vec<Name<'p>>, AllocError>
    ensures { IfOk result (λ all. map named_of all.items
        ≡ private_names (scope_of scope.now) (map named_of names.now)) }
{
    let mut all = Vec::new(scope.alloc);
    for name in names {
        push_private(scope, &mut all, *name)?;
    }
    Ok(all)
}

// How many names these are.
fn count_of(names: &[Name<'_>]) -> usize
    ensures { result ≡ length names.now }
{
    names.len()
}

// Whether a name is one too many, where so many stand before it.
fn is_over(known: bool, before: usize) -> bool
    ensures { result ≡ (not known && (before == 32)) }
{
    !known && before == 32
}

// Adds a name, unless it is known.
fn push_unless<'p>(names: &mut Vec<Name<'p>>, name: Name<'p>, known: bool) -> Result<(), AllocError>
    ensures { OnOk result (map named_of names.new.items
        ≡ map named_of names.old.items ++ (if known then [] else named_of name.entry ∷ [])) }
{
    if known { Ok(()) } else { push(names, name) }
}

// The fault of the 33rd different one of these names, if there are so many.
fn one_too_many(alloc: Global, names: &[Name<'_>]) -> Result<Option<Fault>, AllocError>
    ensures { IfOk result (λ found. IsFirstOf (λ f. IsOneTooMany (map named_of names.now) f) found) }
{
    let mut seen = Vec::new(alloc);
    for name in names {
        let known = is_one_of(&seen, name.bytes);
        if is_over(known, count_of(&seen)) {
            return Ok(Some(Fault::at_token(name.at, FaultKind::TooManyNames)));
        }
        push_unless(&mut seen, *name, known)?;
    }
    Ok(None)
}

/// Returns the fault of the 33rd different private name in these parts, if there are so many. It fails only if memory
/// runs out.
pub fn too_many<'p>(
    scope: &Scope<'_, '_, 'p>,
    parts: &[Part<'_, 'p>],
) -> Result<Option<Fault>, AllocError>
    ensures { IfOk result (λ found. IsFirstOf (λ f. IsOneTooMany
        (private_names (scope_of scope.now) (names_in_parts (map part_seen parts.now))) f) found) }
{
    let names = names_of(scope.alloc, parts)?;
    let private = private_ones(scope, &names)?;
    one_too_many(scope.alloc, &private)
}
