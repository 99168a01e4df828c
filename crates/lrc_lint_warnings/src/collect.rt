// All that is warned of in a program.

ghost use Rattle.std.specs.Prelude.{◌≡◌, ◌<◌, ◌^◌, [], IfOk, OnOk, length, map};
ghost use Rattle.lrc_lang.specs.Parser.View.{token_of};
ghost use Rattle.lrc_program.specs.Statements.{block_of};
ghost use Rattle.lrc_program.specs.Tree.{program_of};
ghost use Rattle.lrc_lint_warned.specs.Found.{node_seen, statement_seen};
ghost use Rattle.lrc_lint_warned.specs.Held.{paths};
ghost use Rattle.lrc_lint_warnings.specs.Collected.{all_of, found_in, with_blocks, with_held, with_nodes, with_statements};

use lrc_lang::token::Token;
use lrc_lint_warned::found::{Found, NodeAt, StatementAt};
use lrc_lint_warned::{access, blocks, held, locks, names, operations, places, words};
use lrc_program::{Program, Statement};
use std::alloc::{AllocError, Global};

/// Returns all warnings of a program, each with the place of its token. It fails if memory runs out.
pub fn found_in(
    alloc: Global,
    program: &Program,
    tokens: &[Token<'_>],
) -> Result<Vec<Found>, AllocError>
    requires { length tokens.now < 2 ^ 31 }
    ensures { IfOk result (λ found. found.items
        ≡ found_in (program_of program.now) (map token_of tokens.now)) }
{
    let statements = places::statements_at(alloc, &program.statements, tokens)?;
    let nodes = places::nodes_at(alloc, &program.statements, tokens)?;
    all_of(
        alloc,
        &nodes,
        &statements,
        &program.statements,
        program.words(),
        program.locks(),
    )
}

fn all_of(
    alloc: Global,
    nodes: &[NodeAt<'_>],
    statements: &[StatementAt<'_>],
    block: &[Statement],
    words: u32,
    locks: u8,
) -> Result<Vec<Found>, AllocError>
    ensures { IfOk result (λ found. found.items
        ≡ all_of (map node_seen nodes.now) (map statement_seen statements.now)
        (block_of block.now) words locks) }
{
    let mut out = Vec::new(alloc);
    put_of_nodes(&mut out, nodes, statements)?;
    put_of_statements(&mut out, alloc, statements, words, locks)?;
    put_of_held(&mut out, alloc, statements, block, locks)?;
    put_of_blocks(&mut out, alloc, statements)?;
    Ok(out)
}

fn put_of_nodes(
    out: &mut Vec<Found>,
    nodes: &[NodeAt<'_>],
    statements: &[StatementAt<'_>],
) -> Result<(), AllocError>
    ensures { OnOk result (out.new.items
        ≡ with_nodes out.old.items (map node_seen nodes.now) (map statement_seen statements.now)) }
{
    names::never_set(out, nodes, statements)?;
    names::never_read(out, nodes, statements)?;
    operations::division_by_zero(out, nodes)?;
    operations::below_zero(out, nodes)
}

fn put_of_statements(
    out: &mut Vec<Found>,
    alloc: Global,
    statements: &[StatementAt<'_>],
    words: u32,
    locks: u8,
) -> Result<(), AllocError>
    ensures { OnOk result (out.new.items
        ≡ with_statements out.old.items (map statement_seen statements.now) words locks) }
{
    access::no_such_word(out, statements, words)?;
    access::no_such_lock(out, statements, locks)?;
    words::never_written(out, alloc, statements, words)?;
    locks::never_released(out, statements, locks)
}

fn put_of_held(
    out: &mut Vec<Found>,
    alloc: Global,
    statements: &[StatementAt<'_>],
    block: &[Statement],
    locks: u8,
) -> Result<(), AllocError>
    ensures { OnOk result (out.new.items
        ≡ with_held out.old.items (map statement_seen statements.now)
        (paths [] (block_of block.now)) locks) }
{
    held::held_already(out, alloc, statements, block, locks)?;
    held::not_held(out, alloc, statements, block, locks)?;
    held::held_at_barrier(out, alloc, statements, block, locks)
}

fn put_of_blocks(
    out: &mut Vec<Found>,
    alloc: Global,
    statements: &[StatementAt<'_>],
) -> Result<(), AllocError>
    ensures { OnOk result (out.new.items
        ≡ with_blocks out.old.items (map statement_seen statements.now)) }
{
    blocks::uneven_barriers(out, alloc, statements)?;
    blocks::uncertain_rounds(out, alloc, statements)?;
    blocks::unchanged_conditions(out, alloc, statements)?;
    blocks::learning_nothing(out, alloc, statements)
}
