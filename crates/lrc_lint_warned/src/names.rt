// Names that are read and never set, and names that are set and never read.

ghost use Rattle.std.specs.Prelude.{◌≡◌, ◌++◌, OnOk, find, map, option_map};
ghost use Rattle.std.specs.List.{flat_map, range_with_len};
ghost use Rattle.lrc_program.specs.Statements.{expression_of, statement_of};
ghost use Rattle.lrc_lint_warned.specs.Found.{found_where, node_seen, statement_seen};
ghost use Rattle.lrc_lint_warned.specs.Constant.{is_value};
ghost use Rattle.lrc_lint_warned.specs.Names.{is_name, name_of, never_read, never_read_of, never_set, never_set_of, set_by, sets, some_read, some_set};

use crate::found::{Found, Kind, NodeAt, StatementAt};
use lrc_program::{Expression, Statement};
use std::alloc::AllocError;

/// The number of names that a text may have.
const MOST_NAMES: u8 = 32;

/// Adds the names that some expression reads and no statement sets, each at its first reading.
pub fn never_set(
    out: &mut Vec<Found>,
    nodes: &[NodeAt<'_>],
    statements: &[StatementAt<'_>],
) -> Result<(), AllocError>
    ensures { OnOk result (out.new.items
        ≡ out.old.items ++ never_set (map node_seen nodes.now)
        (map statement_seen statements.now)) }
{
    never_set_below(out, nodes, statements, MOST_NAMES)
}

// The same of names below this number.
fn never_set_below(
    out: &mut Vec<Found>,
    nodes: &[NodeAt<'_>],
    statements: &[StatementAt<'_>],
    count: u8,
) -> Result<(), AllocError>
    ensures { OnOk result (out.new.items ≡ out.old.items
        ++ flat_map (never_set_of (map node_seen nodes.now) (map statement_seen statements.now))
        (range_with_len 0 count)) }
{
    for name in 0..count {
        never_set_of(out, nodes, statements, name)?;
    }
    Ok(())
}

fn never_set_of(
    out: &mut Vec<Found>,
    nodes: &[NodeAt<'_>],
    statements: &[StatementAt<'_>],
    name: u8,
) -> Result<(), AllocError>
    ensures { OnOk result (out.new.items
        ≡ out.old.items ++ never_set_of (map node_seen nodes.now)
        (map statement_seen statements.now) name) }
{
    if some_set(statements, name) {
        return Ok(());
    }
    push_where(out, first_read(nodes, name), Kind::NeverSet(name))
}

/// Adds the names that some statement sets and no expression reads, each at its first setting.
pub fn never_read(
    out: &mut Vec<Found>,
    nodes: &[NodeAt<'_>],
    statements: &[StatementAt<'_>],
) -> Result<(), AllocError>
    ensures { OnOk result (out.new.items
        ≡ out.old.items ++ never_read (map node_seen nodes.now)
        (map statement_seen statements.now)) }
{
    never_read_below(out, nodes, statements, MOST_NAMES)
}

// The same of names below this number.
fn never_read_below(
    out: &mut Vec<Found>,
    nodes: &[NodeAt<'_>],
    statements: &[StatementAt<'_>],
    count: u8,
) -> Result<(), AllocError>
    ensures { OnOk result (out.new.items ≡ out.old.items
        ++ flat_map (never_read_of (map node_seen nodes.now) (map statement_seen statements.now))
        (range_with_len 0 count)) }
{
    for name in 0..count {
        never_read_of(out, nodes, statements, name)?;
    }
    Ok(())
}

fn never_read_of(
    out: &mut Vec<Found>,
    nodes: &[NodeAt<'_>],
    statements: &[StatementAt<'_>],
    name: u8,
) -> Result<(), AllocError>
    ensures { OnOk result (out.new.items
        ≡ out.old.items ++ never_read_of (map node_seen nodes.now)
        (map statement_seen statements.now) name) }
{
    if some_read(nodes, name) {
        return Ok(());
    }
    push_where(out, first_set(statements, name), Kind::NeverRead(name))
}

/// Adds a warning if it has a place.
pub(crate) fn push_where(
    out: &mut Vec<Found>,
    at: Option<u32>,
    kind: Kind,
) -> Result<(), AllocError>
    ensures { OnOk result (out.new.items ≡ out.old.items ++ found_where at kind) }
{
    if let Some(at) = at {
        out.push(Found {
            at: at as usize,
            kind,
        })?;
    }
    Ok(())
}

fn some_set(statements: &[StatementAt<'_>], name: u8) -> bool
    ensures { result ≡ some_set (map statement_seen statements.now) name }
{
    statements.iter().any(|s| sets(s.statement, name))
}

fn some_read(nodes: &[NodeAt<'_>], name: u8) -> bool
    ensures { result ≡ some_read (map node_seen nodes.now) name }
{
    nodes.iter().any(|n| is_name(n.node, name))
}

// The place of the first reading of a name.
fn first_read(nodes: &[NodeAt<'_>], name: u8) -> Option<u32>
    ensures { result ≡ option_map (λ n. n.at)
        (find (λ n. is_name name n.node) (map node_seen nodes.now)) }
{
    for n in nodes {
        if is_name(n.node, name) {
            return Some(n.at);
        }
    }
    None
}

// The place of the first setting of a name.
fn first_set(statements: &[StatementAt<'_>], name: u8) -> Option<u32>
    ensures { result ≡ option_map (λ s. s.at)
        (find (λ s. sets name s.statement) (map statement_seen statements.now)) }
{
    for s in statements {
        if sets(s.statement, name) {
            return Some(s.at);
        }
    }
    None
}

/// Returns whether a part of an expression reads this name.
pub(crate) fn is_name(node: &Expression, name: u8) -> bool
    ensures { result ≡ is_name name (expression_of node.now) }
{
    is_value(name_of(node), name)
}

/// Returns whether a statement sets this name.
pub(crate) fn sets(statement: &Statement, name: u8) -> bool
    ensures { result ≡ sets name (statement_of statement.now) }
{
    is_value(set_by(statement), name)
}

fn is_value(value: Option<u8>, name: u8) -> bool
    ensures { result ≡ is_value value name }
{
    match value {
        Some(found) => found == name,
        None => false,
    }
}

/// Returns the name that a part of an expression reads, or none.
pub(crate) fn name_of(node: &Expression) -> Option<u8>
    ensures { result ≡ name_of (expression_of node.now) }
{
    match node {
        Expression::Private(k) => Some(*k),
        _ => None,
    }
}

/// Returns the name that a statement sets, or none.
pub(crate) fn set_by(statement: &Statement) -> Option<u8>
    ensures { result ≡ set_by (statement_of statement.now) }
{
    match statement {
        Statement::Assign(k, _) | Statement::Read(k, _) => Some(*k),
        _ => None,
    }
}
