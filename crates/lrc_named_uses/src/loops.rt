// Loops that wait for shared items but learn of no write of another node.

ghost use Rattle.std.specs.Prelude.{◌≡◌, ◌++◌, IfOk, OnOk, is_some, map};
ghost use Rattle.std.specs.List.{list_any};
ghost use Rattle.lrc_named_tokens.specs.View.{lexeme_of, located_of};
ghost use Rattle.lrc_named_tree.specs.Tree.{no_arm};
ghost use Rattle.lrc_named_tree.specs.View.{block_of, expression_of, statement_of};
ghost use Rattle.lrc_named_names.specs.Names.{meaning_of};
ghost use Rattle.lrc_named_names.specs.View.{declared_of};
ghost use Rattle.lrc_named_statement_faults.specs.Parts.{arms_of, with_arm};
ghost use Rattle.lrc_named_uses.specs.Deeds.{deed_seen, deeds_in};
ghost use Rattle.lrc_named_uses.specs.Loops.{is_learning, is_set_in, is_set_name, loops_in, loops_of, loops_of_arms, sets_name, some_set, waits, waits_at};

use crate::deeds::{Deed, deeds_in};
use crate::names::tokens_in;
use crate::shared::has_shared;
use lrc_named_names::names::Names;
use lrc_named_tokens::token::{Lexeme, Located, Token};
use lrc_named_tree::tree::{Arm, Expression, Statement};
use std::alloc::{AllocError, Global};

/// Returns with which token each loop begins whose condition has a shared item and no private name that the loop sets, and
/// in which nothing learns of a write of another node, in the order of the text. It fails only if memory runs out.
pub fn loops_in(
    alloc: Global,
    names: &Names<'_, '_>,
    tokens: &[Located<'_>],
    statements: &[Statement<'_>],
) -> Result<Vec<u32>, AllocError>
    ensures { IfOk result (λ loops. loops.items ≡ loops_in (declared_of names.now)
        (map located_of tokens.now) (block_of statements.now)) }
{
    let mut loops = Vec::new(alloc);
    put_block(&mut loops, alloc, statements, names, tokens)?;
    Ok(loops)
}

#[cycle(loops)]
fn put_block(
    loops: &mut Vec<u32>,
    alloc: Global,
    block: &[Statement<'_>],
    names: &Names<'_, '_>,
    tokens: &[Located<'_>],
) -> Result<(), AllocError>
    ensures { OnOk result (loops.new.items ≡ loops.old.items
        ++ loops_in (declared_of names.now) (map located_of tokens.now) (block_of block.now)) }
{
    for statement in block {
        put_statement(loops, alloc, statement, names, tokens)?;
    }
    Ok(())
}

// Adds a statement, if it is such a loop, and those of its blocks.
#[cycle(loops)]
fn put_statement(
    loops: &mut Vec<u32>,
    alloc: Global,
    statement: &Statement<'_>,
    names: &Names<'_, '_>,
    tokens: &[Located<'_>],
) -> Result<(), AllocError>
    ensures { OnOk result (loops.new.items ≡ loops.old.items
        ++ loops_of (declared_of names.now) (map located_of tokens.now)
        (statement_of statement.now)) }
{
    match statement {
        Statement::Assign(..) | Statement::Acquire(..) | Statement::Release(..) => Ok(()),
        Statement::Barrier(_) | Statement::Print(..) | Statement::Assert(..) => Ok(()),
        Statement::With(_, _, inside, _) => put_block(loops, alloc, inside, names, tokens),
        Statement::If(_, _, then, others, otherwise) => {
            put_block(loops, alloc, then, names, tokens)?;
            put_arms(loops, alloc, others, names, tokens)?;
            put_block(loops, alloc, otherwise, names, tokens)
        }
        Statement::While(at, condition, inside) => {
            put_while(loops, alloc, names, tokens, *at, condition, inside)?;
            put_block(loops, alloc, inside, names, tokens)
        }
        Statement::For(_, _, _, _, inside) => put_block(loops, alloc, inside, names, tokens),
    }
}

#[cycle(loops)]
fn put_arms(
    loops: &mut Vec<u32>,
    alloc: Global,
    arms: &[Arm<'_>],
    names: &Names<'_, '_>,
    tokens: &[Located<'_>],
) -> Result<(), AllocError>
    ensures { OnOk result (loops.new.items ≡ loops.old.items
        ++ loops_of_arms (declared_of names.now) (map located_of tokens.now) (arms_of arms.now)) }
{
    for arm in arms {
        put_arm(loops, alloc, arm, names, tokens)?;
    }
    Ok(())
}

#[cycle(loops)]
fn put_arm(
    loops: &mut Vec<u32>,
    alloc: Global,
    arm: &Arm<'_>,
    names: &Names<'_, '_>,
    tokens: &[Located<'_>],
) -> Result<(), AllocError>
    ensures { OnOk result (loops.new.items ≡ loops.old.items
        ++ loops_of_arms (declared_of names.now) (map located_of tokens.now)
        (with_arm arm.now no_arm)) }
{
    put_block(loops, alloc, &arm.block, names, tokens)
}

// Adds a loop with this condition and this block, if it is such a one.
fn put_while(
    loops: &mut Vec<u32>,
    alloc: Global,
    names: &Names<'_, '_>,
    tokens: &[Located<'_>],
    at: u32,
    condition: &Expression<'_>,
    inside: &[Statement<'_>],
) -> Result<(), AllocError>
    ensures { OnOk result (loops.new.items ≡ loops.old.items
        ++ waits_at (declared_of names.now) (map located_of tokens.now) at
        (expression_of condition.now) (deeds_in (block_of inside.now))) }
{
    let deeds = deeds_in(alloc, inside)?;
    put_if_waits(loops, names, tokens, at, condition, &deeds)
}

// Adds a loop with this condition, in which these deeds are done, if it is such a one.
fn put_if_waits(
    loops: &mut Vec<u32>,
    names: &Names<'_, '_>,
    tokens: &[Located<'_>],
    at: u32,
    condition: &Expression<'_>,
    deeds: &[Deed<'_>],
) -> Result<(), AllocError>
    ensures { OnOk result (loops.new.items ≡ loops.old.items
        ++ waits_at (declared_of names.now) (map located_of tokens.now) at
        (expression_of condition.now) (map deed_seen deeds.now)) }
{
    if waits(names, tokens, condition, deeds) {
        loops.push(at)?;
    }
    Ok(())
}

fn waits(
    names: &Names<'_, '_>,
    tokens: &[Located<'_>],
    condition: &Expression<'_>,
    deeds: &[Deed<'_>],
) -> bool
    ensures { result ≡ waits (declared_of names.now) (map located_of tokens.now)
        (expression_of condition.now) (map deed_seen deeds.now) }
{
    has_shared(names, tokens, condition)
        && !some_set(names, deeds, tokens_in(tokens, condition))
        && !some_learns(deeds)
}

// Whether some name among these tokens is private, and set by one of the statements.
fn some_set(names: &Names<'_, '_>, deeds: &[Deed<'_>], some: &[Located<'_>]) -> bool
    ensures { result ≡ some_set (declared_of names.now) (map deed_seen deeds.now)
        (map located_of some.now) }
{
    for found in some {
        if is_set_in(names, deeds, found.lexeme) {
            return true;
        }
    }
    false
}

fn is_set_in(names: &Names<'_, '_>, deeds: &[Deed<'_>], lexeme: Lexeme<'_>) -> bool
    ensures { result ≡ is_set_in (declared_of names.now) (map deed_seen deeds.now)
        (lexeme_of lexeme.entry) }
{
    match lexeme {
        Lexeme::Token(Token::Name(name)) => is_set_name(names, deeds, name),
        _ => false,
    }
}

fn is_set_name(names: &Names<'_, '_>, deeds: &[Deed<'_>], name: &[u8]) -> bool
    ensures { result ≡ is_set_name (declared_of names.now) (map deed_seen deeds.now) name.now }
{
    !is_declared(names, name) && some_sets(deeds, name)
}

fn is_declared(names: &Names<'_, '_>, name: &[u8]) -> bool
    ensures { result ≡ is_some (meaning_of (declared_of names.now) name.now) }
{
    names.meaning(names.place(name)).is_some()
}

fn some_sets(deeds: &[Deed<'_>], name: &[u8]) -> bool
    ensures { result ≡ list_any (sets_name name.now) (map deed_seen deeds.now) }
{
    for deed in deeds {
        if sets_name(*deed, name) {
            return true;
        }
    }
    false
}

fn sets_name(deed: Deed<'_>, name: &[u8]) -> bool
    ensures { result ≡ sets_name name.now (deed_seen deed.entry) }
{
    match deed {
        Deed::Learns => false,
        Deed::Sets(own) => own.bytes == name,
    }
}

fn some_learns(deeds: &[Deed<'_>]) -> bool
    ensures { result ≡ list_any is_learning (map deed_seen deeds.now) }
{
    for deed in deeds {
        if is_learning(*deed) {
            return true;
        }
    }
    false
}

fn is_learning(deed: Deed<'_>) -> bool
    ensures { result ≡ is_learning (deed_seen deed.entry) }
{
    match deed {
        Deed::Learns => true,
        Deed::Sets(_) => false,
    }
}
