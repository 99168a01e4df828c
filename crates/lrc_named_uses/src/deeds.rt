// What the statements of a block do, as a loop around them asks for it.

ghost use Rattle.std.specs.Prelude.{◌≡◌, ◌++◌, [], ◌∷◌, IfOk, OnOk, map};
ghost use Rattle.lrc_named_tree.specs.Tree.{no_arm};
ghost use Rattle.lrc_named_tree.specs.View.{block_of, place_of, statement_of};
ghost use Rattle.lrc_named_statement_faults.specs.Parts.{arms_of, with_arm};
ghost use Rattle.lrc_named_uses.specs.Deeds.{deed_seen, deeds_in, deeds_of, deeds_of_arms, sets_place};

use lrc_named_tree::tree::{Arm, Name, Place, Statement};
use std::alloc::{AllocError, Global};

/// What a statement does, as a loop around it asks for it.
#[derive(Clone, Copy)]
pub(crate) enum Deed<'t> {
    /// It learns of writes of other nodes.
    Learns,
    /// It sets this name, without an index or behind `for`.
    Sets(Name<'t>),
}

/// Returns what the statements of a block do, with those of their blocks, in the order of the text. It fails only if memory
/// runs out.
pub(crate) fn deeds_in<'t>(
    alloc: Global,
    block: &[Statement<'t>],
) -> Result<Vec<Deed<'t>>, AllocError>
    ensures { IfOk result (λ deeds. map deed_seen deeds.items ≡ deeds_in (block_of block.now)) }
{
    let mut deeds = Vec::new(alloc);
    put_block(&mut deeds, block)?;
    Ok(deeds)
}

fn put<'t>(deeds: &mut Vec<Deed<'t>>, deed: Deed<'t>) -> Result<(), AllocError>
    ensures { OnOk result (map deed_seen deeds.new.items
        ≡ map deed_seen deeds.old.items ++ deed_seen deed.entry ∷ []) }
{
    deeds.push(deed)?;
    Ok(())
}

// Adds that a place is set, if it has no index.
fn put_place<'t>(deeds: &mut Vec<Deed<'t>>, place: &Place<'t>) -> Result<(), AllocError>
    ensures { OnOk result (map deed_seen deeds.new.items
        ≡ map deed_seen deeds.old.items ++ sets_place (place_of place.now)) }
{
    match place.indices.as_slice() {
        [] => put(deeds, Deed::Sets(place.name)),
        [_, ..] => Ok(()),
    }
}

#[cycle(deeds)]
fn put_block<'t>(deeds: &mut Vec<Deed<'t>>, block: &[Statement<'t>]) -> Result<(), AllocError>
    ensures { OnOk result (map deed_seen deeds.new.items
        ≡ map deed_seen deeds.old.items ++ deeds_in (block_of block.now)) }
{
    for statement in block {
        put_statement(deeds, statement)?;
    }
    Ok(())
}

// Adds what a statement does, and what those of its blocks do.
#[cycle(deeds)]
fn put_statement<'t>(deeds: &mut Vec<Deed<'t>>, statement: &Statement<'t>) -> Result<(), AllocError>
    ensures { OnOk result (map deed_seen deeds.new.items
        ≡ map deed_seen deeds.old.items ++ deeds_of (statement_of statement.now)) }
{
    match statement {
        Statement::Assign(place, _, _) => put_place(deeds, place),
        Statement::Acquire(_, _) => put(deeds, Deed::Learns),
        Statement::Barrier(_) => put(deeds, Deed::Learns),
        Statement::Release(_, _) | Statement::Print(_, _) | Statement::Assert(_, _) => Ok(()),
        Statement::With(_, _, inside, _) => {
            put(deeds, Deed::Learns)?;
            put_block(deeds, inside)
        }
        Statement::If(_, _, then, others, otherwise) => {
            put_block(deeds, then)?;
            put_arms(deeds, others)?;
            put_block(deeds, otherwise)
        }
        Statement::While(_, _, inside) => put_block(deeds, inside),
        Statement::For(_, name, _, _, inside) => {
            put(deeds, Deed::Sets(*name))?;
            put_block(deeds, inside)
        }
    }
}

#[cycle(deeds)]
fn put_arms<'t>(deeds: &mut Vec<Deed<'t>>, arms: &[Arm<'t>]) -> Result<(), AllocError>
    ensures { OnOk result (map deed_seen deeds.new.items
        ≡ map deed_seen deeds.old.items ++ deeds_of_arms (arms_of arms.now)) }
{
    for arm in arms {
        put_arm(deeds, arm)?;
    }
    Ok(())
}

#[cycle(deeds)]
fn put_arm<'t>(deeds: &mut Vec<Deed<'t>>, arm: &Arm<'t>) -> Result<(), AllocError>
    ensures { OnOk result (map deed_seen deeds.new.items
        ≡ map deed_seen deeds.old.items ++ deeds_of_arms (with_arm arm.now no_arm)) }
{
    put_block(deeds, &arm.block)
}
