// The index of a program that begins at a token and is out of range.

ghost use Rattle.std.specs.Prelude.{◌≡◌, ◌++◌, IfOk, List, [], ◌∷◌, map};
ghost use Rattle.lrc_named_tree.specs.declared.tree.Declaration.{Declaration as DeclarationSeen};
ghost use Rattle.lrc_named_tree.specs.View.{block_of, declaration_of, expression_of, named_of, program_of};
ghost use Rattle.lrc_named_names.specs.View.{declared_of};
ghost use Rattle.lrc_named_constants.specs.View.{known_of};
ghost use Rattle.lrc_named_faults.specs.Declarations.{body_scope, varying};
ghost use Rattle.lrc_named_faults.specs.Layout.{IsLaidOut};
ghost use Rattle.lrc_named_statement_faults.specs.Parts.{part_seen};
ghost use Rattle.lrc_named_statement_faults.specs.Statements.{statement_scope};
ghost use Rattle.lrc_named_index_hint.specs.Out.{IsBehind, IsOutAmong, IsOutIn, IsOutInOne, IsOutOfRange};
ghost use Rattle.lrc_named_index_hint.specs.Over.{IsFound, IsOneOver};
ghost use Rattle.lrc_named_index_hint.specs.Spots.{spot_seen, spots_in};

use crate::over::{Beyond, one_over};
use crate::set::names_set;
use crate::spots::{Spot, spots_in, spots_in_parts};
use lrc_named_constants::constancy::{Constancy, Known};
use lrc_named_expression_faults::scope::Scope;
use lrc_named_expression_faults::spelled::Spelled;
use lrc_named_faults::check;
use lrc_named_faults::layout::Layout;
use lrc_named_faults::values::Found;
use lrc_named_statement_faults::parts::{Part, push_parts};
use lrc_named_tree::tree::{Declaration, Expression, Name, NamedProgram, Statement};
use std::alloc::{AllocError, Global};

/// Returns the value and the size of an index of a program that begins at a token and is out of range, if there is one. It
/// fails only if memory runs out.
pub(crate) fn out_of_range(
    alloc: Global,
    program: NamedProgram<'_>,
    at: u64,
) -> Result<Option<Beyond>, AllocError>
    ensures { IfOk result (λ found. IsFound
        (λ value size. IsOutOfRange (program_of program.entry) at value size) found) }
{
    let NamedProgram {
        declarations,
        statements,
    } = program;
    let mut front = NamedProgram {
        declarations,
        statements: Vec::new(alloc),
    };
    let found = in_statements(alloc, &front, &statements, at)?;
    if found.is_some() {
        return Ok(found);
    }
    in_declarations(alloc, &mut front, at)
}

// Of the index in one of these declarations, of which the last ones are taken away.
fn in_declarations(
    alloc: Global,
    front: &mut NamedProgram<'_>,
    at: u64,
) -> Result<Option<Beyond>, AllocError>
    requires { front.old.statements.items ≡ [] }
    ensures { IfOk result (λ found. IsFound (λ value size. IsOutInOne
        (map declaration_of front.old.declarations.items) at value size) found) }
{
    let mut taken = Vec::new(alloc);
    while let Some(declaration) = front.declarations.pop() {
        taken.push(declaration)?;
        let found = in_last(alloc, front, &taken, at)?;
        if found.is_some() {
            return Ok(found);
        }
    }
    Ok(None)
}

// Of the index in the last of these, behind those in front.
fn in_last<'p>(
    alloc: Global,
    front: &NamedProgram<'p>,
    taken: &[Declaration<'p>],
    at: u64,
) -> Result<Option<Beyond>, AllocError>
    requires { front.now.statements.items ≡ [] }
    ensures { IfOk result (λ found. (before : List DeclarationSeen) (last : DeclarationSeen)
        → taken.now ≡ before ++ last ∷ [] → IsFound (λ value size. IsBehind
        (map declaration_of front.now.declarations.items)
        (λ table. IsOutIn table at (declaration_of last) value size)) found) }
{
    match taken.last() {
        Some(declaration) => in_declaration(alloc, front, declaration, at),
        None => Ok(None),
    }
}

// Of the index in a declaration, behind those in front.
fn in_declaration<'p>(
    alloc: Global,
    front: &NamedProgram<'p>,
    declaration: &Declaration<'p>,
    at: u64,
) -> Result<Option<Beyond>, AllocError>
    requires { front.now.statements.items ≡ [] }
    ensures { IfOk result (λ found. IsFound (λ value size. IsBehind
        (map declaration_of front.now.declarations.items)
        (λ table. IsOutIn table at (declaration_of declaration.now) value size)) found) }
{
    match declaration {
        Declaration::Function(_, _, parameters, body) => {
            in_body(alloc, front, parameters, body, at)
        }
        Declaration::Nodes(_, _) => Ok(None),
        Declaration::Const(_, _, _) => Ok(None),
        Declaration::Shared(_, _) => Ok(None),
        Declaration::Lock(_, _) => Ok(None),
    }
}

// Of the index in the body of a function with these parameters, behind the declarations in front.
fn in_body<'p>(
    alloc: Global,
    front: &NamedProgram<'p>,
    parameters: &[Name<'p>],
    body: &Expression<'p>,
    at: u64,
) -> Result<Option<Beyond>, AllocError>
    requires { front.now.statements.items ≡ [] }
    ensures { IfOk result (λ found. IsFound (λ value size. IsBehind
        (map declaration_of front.now.declarations.items)
        (λ table. IsOneOver (body_scope table (map named_of parameters.now))
        (spots_in at (expression_of body.now)) value size)) found) }
{
    let spots = spots_in(alloc, at, body)?;
    if spots.is_empty() {
        return Ok(None);
    }
    let found = check(alloc, front)?;
    match found {
        Found::Good(layout) => body_over(alloc, &layout, parameters, &spots),
        Found::Bad(_) => Ok(None),
    }
}

fn body_over<'p>(
    alloc: Global,
    layout: &Layout<'_, 'p>,
    parameters: &[Name<'p>],
    spots: &[Spot<'_, 'p>],
) -> Result<Option<Beyond>, AllocError>
    requires { IsLaidOut layout.now }
    ensures { IfOk result (λ found. IsFound (λ value size. IsOneOver
        (body_scope (declared_of layout.now.names) (map named_of parameters.now))
        (map spot_seen spots.now) value size) found) }
{
    let known = varying(alloc, parameters)?;
    let spelled = Spelled::of(alloc, parameters)?;
    let none = Spelled::none(alloc);
    let scope = Scope {
        alloc,
        names: &layout.names,
        extents: &layout.extents,
        known: &known,
        parameters: &spelled,
        assigned: &none,
        is_constant: false,
    };
    one_over(&scope, spots)
}

// The parameters of a function, of which nothing is known.
fn varying<'p>(alloc: Global, parameters: &[Name<'p>]) -> Result<Vec<Known<'p>>, AllocError>
    ensures { IfOk result (λ known. map known_of known.items ≡ varying (map named_of parameters.now)) }
{
    let mut known = Vec::new(alloc);
    for parameter in parameters {
        known.push(Known {
            name: parameter.bytes,
            constancy: Constancy::Varies,
        })?;
    }
    Ok(known)
}

// Of the index in statements, behind the declarations in front.
fn in_statements<'p>(
    alloc: Global,
    front: &NamedProgram<'p>,
    statements: &[Statement<'p>],
    at: u64,
) -> Result<Option<Beyond>, AllocError>
    requires { front.now.statements.items ≡ [] }
    ensures { IfOk result (λ found. IsFound (λ value size. IsBehind
        (map declaration_of front.now.declarations.items)
        (λ table. IsOutAmong table at (block_of statements.now) value size)) found) }
{
    let mut parts = Vec::new(alloc);
    push_parts(&mut parts, statements)?;
    let spots = spots_in_parts(alloc, at, &parts)?;
    if spots.is_empty() {
        return Ok(None);
    }
    let found = check(alloc, front)?;
    match found {
        Found::Good(layout) => parts_over(alloc, &layout, &parts, &spots),
        Found::Bad(_) => Ok(None),
    }
}

fn parts_over<'p>(
    alloc: Global,
    layout: &Layout<'_, 'p>,
    parts: &[Part<'_, 'p>],
    spots: &[Spot<'_, 'p>],
) -> Result<Option<Beyond>, AllocError>
    requires { IsLaidOut layout.now }
    ensures { IfOk result (λ found. IsFound (λ value size. IsOneOver
        (statement_scope (declared_of layout.now.names) (map part_seen parts.now))
        (map spot_seen spots.now) value size) found) }
{
    let set = names_set(alloc, parts)?;
    let assigned = Spelled::of(alloc, &set)?;
    let none = Spelled::none(alloc);
    let scope = Scope {
        alloc,
        names: &layout.names,
        extents: &layout.extents,
        known: &[],
        parameters: &none,
        assigned: &assigned,
        is_constant: false,
    };
    one_over(&scope, spots)
}
