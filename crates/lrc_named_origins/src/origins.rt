// What the statements of a core come from.

ghost use Rattle.std.specs.Prelude.{◌≡◌, ◌∷◌, ◌++◌, [], IfOk, OnOk, map};
ghost use Rattle.lrc_named_core.specs.View.{block_of, origin_of, statement_of};
ghost use Rattle.lrc_named_origins.specs.Origins.{origins_in, origins_of};

use lrc_named_core::tree::{Origin, Statement};
use std::alloc::{AllocError, Global};

// Adds what statements come from.
#[cycle(origins)]
fn push_origins<'p>(
    origins: &mut Vec<Origin<'p>>,
    statements: &[Statement<'p>],
) -> Result<(), AllocError>
    ensures { OnOk result (map origin_of origins.new.items
        ≡ map origin_of origins.old.items ++ origins_of (block_of statements.now)) }
{
    for statement in statements {
        push_origins_in(origins, statement)?;
    }
    Ok(())
}

// Adds what a statement and those of its blocks come from.
#[cycle(origins)]
fn push_origins_in<'p>(
    origins: &mut Vec<Origin<'p>>,
    statement: &Statement<'p>,
) -> Result<(), AllocError>
    ensures { OnOk result (map origin_of origins.new.items
        ≡ map origin_of origins.old.items ++ origins_in (statement_of statement.now)) }
{
    match statement {
        Statement::Assign(origin, _, _) => push_origin(origins, *origin),
        Statement::Read(origin, _, _) => push_origin(origins, *origin),
        Statement::Write(origin, _, _) => push_origin(origins, *origin),
        Statement::Acquire(origin, _) => push_origin(origins, *origin),
        Statement::Release(origin, _) => push_origin(origins, *origin),
        Statement::Barrier(origin) => push_origin(origins, *origin),
        Statement::Print(origin, _) => push_origin(origins, *origin),
        Statement::If(origin, _, then, otherwise) => {
            push_origin(origins, *origin)?;
            push_origins(origins, then)?;
            push_origins(origins, otherwise)
        }
        Statement::While(origin, _, inside) => {
            push_origin(origins, *origin)?;
            push_origins(origins, inside)
        }
    }
}

// Adds what one statement comes from.
fn push_origin<'p>(origins: &mut Vec<Origin<'p>>, origin: Origin<'p>) -> Result<(), AllocError>
    ensures { OnOk result (map origin_of origins.new.items
        ≡ map origin_of origins.old.items ++ origin_of origin.entry ∷ []) }
{
    origins.push(origin)?;
    Ok(())
}

/// Returns what each statement comes from, in the order of the core's text: a statement stands before those of its blocks.
/// It fails only if memory runs out.
pub fn origins_of<'p>(
    alloc: Global,
    statements: &[Statement<'p>],
) -> Result<Vec<Origin<'p>>, AllocError>
    ensures { IfOk result (λ origins. map origin_of origins.items
        ≡ origins_of (block_of statements.now)) }
{
    let mut origins = Vec::new(alloc);
    push_origins(&mut origins, statements)?;
    Ok(origins)
}
