// The parameters of the function that a token belongs to.

ghost use Rattle.std.specs.Prelude.{◌≡◌, ◌++◌, IfOk, OnOk, map};
ghost use Rattle.lrc_named_tree.specs.View.{declaration_of, expression_of, named_of};
ghost use Rattle.lrc_named_entries.specs.Entry.{belongs, first_nodes, nodes_in, parameters_around, parameters_in};

use lrc_named_tree::tree::{Declaration, Expression, Name};
use std::alloc::{AllocError, Global};

/// Returns the parameters of the function that this token belongs to: from the function's name to the end of its body. It
/// fails only if memory runs out.
pub fn parameters_around<'t>(
    alloc: Global,
    declarations: &[Declaration<'t>],
    at: u64,
) -> Result<Vec<Name<'t>>, AllocError>
    ensures { IfOk result (λ names. map named_of names.items
        ≡ parameters_around at (map declaration_of declarations.now)) }
{
    let mut names = Vec::new(alloc);
    for declaration in declarations {
        push_parameters(&mut names, declaration, at)?;
    }
    Ok(names)
}

// Adds the parameters of a function, if the token belongs to it.
fn push_parameters<'t>(
    names: &mut Vec<Name<'t>>,
    declaration: &Declaration<'t>,
    at: u64,
) -> Result<(), AllocError>
    ensures { OnOk result (map named_of names.new.items
        ≡ map named_of names.old.items ++ parameters_in at (declaration_of declaration.now)) }
{
    match declaration {
        Declaration::Function(_, name, parameters, body) => {
            if belongs(at, *name, body) {
                push_all(names, parameters)
            } else {
                Ok(())
            }
        }
        Declaration::Nodes(_, _)
        | Declaration::Const(_, _, _)
        | Declaration::Shared(_, _)
        | Declaration::Lock(_, _) => Ok(()),
    }
}

// Whether a token stands from a function's name to the end of its body.
fn belongs(at: u64, name: Name<'_>, body: &Expression<'_>) -> bool
    ensures { result ≡ belongs at (named_of name.entry) (expression_of body.now) }
{
    let first = u64::from(name.at);
    let last = u64::from(body.last());
    first <= at && at <= last
}

fn push_all<'t>(names: &mut Vec<Name<'t>>, more: &[Name<'t>]) -> Result<(), AllocError>
    ensures { OnOk result (map named_of names.new.items
        ≡ map named_of names.old.items ++ map named_of more.now) }
{
    names.extend_from_slice(more)
}

/// Returns which token the first `nodes` declaration begins with, if there is one.
pub fn first_nodes(declarations: &[Declaration<'_>]) -> Option<u32>
    ensures { result ≡ first_nodes (map declaration_of declarations.now) }
{
    for declaration in declarations {
        let found = nodes_in(declaration);
        if found.is_some() {
            return found;
        }
    }
    None
}

// Which token a `nodes` declaration begins with.
fn nodes_in(declaration: &Declaration<'_>) -> Option<u32>
    ensures { result ≡ nodes_in (declaration_of declaration.now) }
{
    match declaration {
        Declaration::Nodes(at, _) => Some(*at),
        Declaration::Const(_, _, _)
        | Declaration::Shared(_, _)
        | Declaration::Lock(_, _)
        | Declaration::Function(_, _, _, _) => None,
    }
}
