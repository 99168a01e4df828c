// The text of a core.

ghost use Rattle.std.specs.Prelude.{◌≡◌, ◌++◌, [], OnOk, IfOk, codes, decimal, slice_index};
ghost use Rattle.lrc_named_names.specs.View.{declared_of};
ghost use Rattle.lrc_named_core.specs.View.{block_of, expression_of, origin_of, private_of, statement_of};
ghost use Rattle.lrc_named_text.specs.Statements.{block_text, core_text, deeper, else_text, head_text, keyword_text};
ghost use Rattle.lrc_named_text.specs.Statements.{line_text, read_text, set_text, statement_text, write_text};

use crate::expression::{Room, push_expression, push_private};
use crate::labels::push_labels;
use lrc_named_core::tree::{Expression, Origin, Private, Statement};
use lrc_named_names::names::Names;
use lrc_text::push_number;
use std::alloc::{AllocError, Global};

/// Adds the text of a core with these words and locks to a text: its head, the labels of what is declared, and the
/// statements. Behind each statement stands the line of the token that it comes from; `lines` has the line of each token
/// of the named program's text. It fails only if memory runs out.
pub fn push_core(
    text: &mut Vec<u8>,
    alloc: Global,
    words: u32,
    locks: u32,
    names: &Names<'_, '_>,
    lines: &[u32],
    statements: &[Statement<'_>],
) -> Result<(), AllocError>
    ensures { OnOk result (text.new.items ≡ text.old.items
        ++ core_text words locks (declared_of names.now) lines.now (block_of statements.now)) }
{
    push_number(text, b"words ", u64::from(words))?;
    push_number(text, b"; locks ", u64::from(locks))?;
    text.extend_from_slice(b";\n")?;
    push_labels(text, &names.declared)?;
    push_block(text, alloc, lines, b"", statements)
}

// Adds the end of the line of a statement.
fn push_line(text: &mut Vec<u8>, lines: &[u32], origin: &Origin<'_>) -> Result<(), AllocError>
    ensures { OnOk result (text.new.items
        ≡ text.old.items ++ line_text lines.now (origin_of origin.now)) }
{
    let line = line_of(lines, origin.line);
    push_number(text, b"  # line ", u64::from(line))?;
    text.extend_from_slice(b"\n")
}

// The line of a token.
fn line_of(lines: &[u32], token: u32) -> u32
    ensures { result ≡ slice_index lines.now token }
{
    match lines.get(token as usize) {
        Some(line) => *line,
        None => 0,
    }
}

// Adds a statement that sets a private name.
fn push_set(text: &mut Vec<u8>, name: Private<'_>, value: &Expression<'_>) -> Result<(), AllocError>
    ensures { OnOk result (text.new.items ≡ text.old.items
        ++ set_text (private_of name.entry) (expression_of value.now)) }
{
    push_private(text, name)?;
    text.extend_from_slice(b" = ")?;
    push_expression(text, Room::Whole, value)?;
    text.extend_from_slice(b";")
}

// Adds a statement that reads a word.
fn push_read(text: &mut Vec<u8>, name: Private<'_>, word: &Expression<'_>) -> Result<(), AllocError>
    ensures { OnOk result (text.new.items ≡ text.old.items
        ++ read_text (private_of name.entry) (expression_of word.now)) }
{
    push_private(text, name)?;
    text.extend_from_slice(b" = [")?;
    push_expression(text, Room::Whole, word)?;
    text.extend_from_slice(b"];")
}

// Adds a statement that writes a word.
fn push_write(
    text: &mut Vec<u8>,
    word: &Expression<'_>,
    value: &Expression<'_>,
) -> Result<(), AllocError>
    ensures { OnOk result (text.new.items ≡ text.old.items
        ++ write_text (expression_of word.now) (expression_of value.now)) }
{
    text.extend_from_slice(b"[")?;
    push_expression(text, Room::Whole, word)?;
    text.extend_from_slice(b"] = ")?;
    push_expression(text, Room::Whole, value)?;
    text.extend_from_slice(b";")
}

// Adds a statement of a keyword and an expression.
fn push_keyword(text: &mut Vec<u8>, keyword: &[u8], e: &Expression<'_>) -> Result<(), AllocError>
    ensures { OnOk result (text.new.items ≡ text.old.items
        ++ keyword_text keyword.now (expression_of e.now)) }
{
    text.extend_from_slice(keyword)?;
    push_expression(text, Room::Whole, e)?;
    text.extend_from_slice(b";")
}

// Adds the line of a condition.
fn push_head(
    text: &mut Vec<u8>,
    lines: &[u32],
    indent: &[u8],
    keyword: &[u8],
    condition: &Expression<'_>,
    origin: &Origin<'_>,
) -> Result<(), AllocError>
    ensures { OnOk result (text.new.items ≡ text.old.items
        ++ (indent.now ++ head_text keyword.now (expression_of condition.now)
        ++ line_text lines.now (origin_of origin.now))) }
{
    text.extend_from_slice(indent)?;
    text.extend_from_slice(keyword)?;
    push_expression(text, Room::Whole, condition)?;
    text.extend_from_slice(b" {")?;
    push_line(text, lines, origin)
}

// What stands before the lines of a block that lies one deeper.
fn deeper(alloc: Global, indent: &[u8]) -> Result<Vec<u8>, AllocError>
    ensures { IfOk result (λ more. more.items ≡ deeper indent.now) }
{
    let mut more = Vec::new(alloc);
    more.extend_from_slice(indent)?;
    more.extend_from_slice(b"    ")?;
    Ok(more)
}

// Adds the line between the blocks of a choice.
fn push_divider(text: &mut Vec<u8>, indent: &[u8]) -> Result<(), AllocError>
    ensures { OnOk result (text.new.items ≡ text.old.items ++ (indent.now ++ codes "} else {\n")) }
{
    text.extend_from_slice(indent)?;
    text.extend_from_slice(b"} else {\n")
}

// Adds the line in front of the second block of a choice, where something stands in it.
fn push_else(
    text: &mut Vec<u8>,
    indent: &[u8],
    otherwise: &[Statement<'_>],
) -> Result<(), AllocError>
    ensures { OnOk result (text.new.items ≡ text.old.items
        ++ else_text indent.now (block_of otherwise.now)) }
{
    match otherwise {
        [] => Ok(()),
        [_, ..] => push_divider(text, indent),
    }
}

// Adds the line that closes a block.
fn push_close(text: &mut Vec<u8>, indent: &[u8]) -> Result<(), AllocError>
    ensures { OnOk result (text.new.items ≡ text.old.items ++ (indent.now ++ codes "}\n")) }
{
    text.extend_from_slice(indent)?;
    text.extend_from_slice(b"}\n")
}

// Adds the lines of statements.
#[cycle(statements)]
fn push_block(
    text: &mut Vec<u8>,
    alloc: Global,
    lines: &[u32],
    indent: &[u8],
    statements: &[Statement<'_>],
) -> Result<(), AllocError>
    ensures { OnOk result (text.new.items ≡ text.old.items
        ++ block_text lines.now indent.now (block_of statements.now)) }
{
    for statement in statements {
        push_statement(text, alloc, lines, indent, statement)?;
    }
    Ok(())
}

// Adds the lines of a statement.
#[cycle(statements)]
fn push_statement(
    text: &mut Vec<u8>,
    alloc: Global,
    lines: &[u32],
    indent: &[u8],
    statement: &Statement<'_>,
) -> Result<(), AllocError>
    ensures { OnOk result (text.new.items ≡ text.old.items
        ++ statement_text lines.now indent.now (statement_of statement.now)) }
{
    match statement {
        Statement::Assign(origin, name, value) => {
            text.extend_from_slice(indent)?;
            push_set(text, *name, value)?;
            push_line(text, lines, origin)
        }
        Statement::Read(origin, name, word) => {
            text.extend_from_slice(indent)?;
            push_read(text, *name, word)?;
            push_line(text, lines, origin)
        }
        Statement::Write(origin, word, value) => {
            text.extend_from_slice(indent)?;
            push_write(text, word, value)?;
            push_line(text, lines, origin)
        }
        Statement::Acquire(origin, lock) => {
            text.extend_from_slice(indent)?;
            push_keyword(text, b"acquire ", lock)?;
            push_line(text, lines, origin)
        }
        Statement::Release(origin, lock) => {
            text.extend_from_slice(indent)?;
            push_keyword(text, b"release ", lock)?;
            push_line(text, lines, origin)
        }
        Statement::Barrier(origin) => {
            text.extend_from_slice(indent)?;
            text.extend_from_slice(b"barrier;")?;
            push_line(text, lines, origin)
        }
        Statement::Print(origin, value) => {
            text.extend_from_slice(indent)?;
            push_keyword(text, b"print ", value)?;
            push_line(text, lines, origin)
        }
        Statement::If(origin, condition, then, otherwise) => {
            push_head(text, lines, indent, b"if ", condition, origin)?;
            let more = deeper(alloc, indent)?;
            push_block(text, alloc, lines, &more, then)?;
            push_else(text, indent, otherwise)?;
            push_block(text, alloc, lines, &more, otherwise)?;
            push_close(text, indent)
        }
        Statement::While(origin, condition, inside) => {
            push_head(text, lines, indent, b"while ", condition, origin)?;
            let more = deeper(alloc, indent)?;
            push_block(text, alloc, lines, &more, inside)?;
            push_close(text, indent)
        }
    }
}
