// The line on an index that is out of range.

ghost use Rattle.std.specs.Prelude.{◌≡◌, ◌++◌, ℕ, IfOk, List, OnOk, Some};
ghost use Rattle.lrc_named_tokens.specs.Token.{Token};
ghost use Rattle.lrc_named_tree.specs.Grammar.{IsNamedProgram};
ghost use Rattle.lrc_named_tree.specs.View.{program_of};
ghost use Rattle.lrc_named_expression_faults.specs.Fault.{IsFirstOf};
ghost use Rattle.lrc_named_faults.specs.Program.{IsFaultOf};
ghost use Rattle.lrc_named_index_hint.specs.Line.{IsIndexHint, IsOutLine, line_of, out_line};
ghost use Rattle.lrc_named_index_hint.specs.Out.{IsOutOfRange};

use crate::outside::out_of_range;
use crate::over::Beyond;
use lrc_named_expression_faults::fault::{Fault, FaultKind};
use lrc_named_tree::tree::NamedProgram;
use lrc_text::push_number;
use std::alloc::{AllocError, Global};

/// Returns the line of the hint on a fault of the names of a program, if it is an index that is out of range: its value,
/// and the size that the value is not below. Of other faults the line is empty. The fault is the program's first. It fails
/// only if memory runs out.
pub fn index_hint(
    alloc: Global,
    program: NamedProgram<'_>,
    fault: Fault,
) -> Result<Vec<u8>, AllocError>
    requires program { (tokens : List Token) × IsNamedProgram (program_of program) tokens }
    requires first { IsFirstOf (λ f. IsFaultOf (program_of program) f) (Some fault) }
    ensures { IfOk result (λ line. IsIndexHint fault.kind (program_of program.entry) fault.at
        line.items) }
{
    match fault.kind {
        FaultKind::IndexOutOfRange => out_line(alloc, program, fault.at),
        FaultKind::DeclaredTwice
        | FaultKind::ReservedName
        | FaultKind::UnknownName
        | FaultKind::WrongUse
        | FaultKind::WrongIndices
        | FaultKind::WrongArguments
        | FaultKind::NotConstant
        | FaultKind::OverLimit(_)
        | FaultKind::TooManyNames => Ok(Vec::new(alloc)),
    }
}

fn out_line(alloc: Global, program: NamedProgram<'_>, at: u64) -> Result<Vec<u8>, AllocError>
    requires { (value : ℕ) × (size : ℕ) × IsOutOfRange (program_of program) at value size }
    ensures { IfOk result (λ line. IsOutLine (program_of program.entry) at line.items) }
{
    let found = out_of_range(alloc, program, at)?;
    let mut line = Vec::new(alloc);
    push_found(&mut line, found)?;
    Ok(line)
}

fn push_found(line: &mut Vec<u8>, found: Option<Beyond>) -> Result<(), AllocError>
    ensures { OnOk result (line.new.items ≡ line.old.items ++ line_of found) }
{
    match found {
        Some(beyond) => push_line(line, beyond),
        None => Ok(()),
    }
}

fn push_line(line: &mut Vec<u8>, beyond: Beyond) -> Result<(), AllocError>
    ensures { OnOk result (line.new.items
        ≡ line.old.items ++ out_line beyond.value beyond.size) }
{
    push_number(line, b"  ", beyond.value)?;
    push_number(line, b" is not below ", u64::from(beyond.size))?;
    line.extend_from_slice(b"\n")
}
