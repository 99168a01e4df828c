// The warnings of a program, in their order.

ghost use Rattle.std.specs.Prelude.{◌≡◌, ◌<◌, ◌^◌, ◌++◌, IfOk, OnOk, IsPermutation, IsSortedByKey, length, map};
ghost use Rattle.lrc_lang.specs.Parser.View.{token_of};
ghost use Rattle.lrc_program.specs.Tree.{program_of};
ghost use Rattle.lrc_lint_warnings.specs.Collected.{found_in};
ghost use Rattle.lrc_lint_warnings.specs.Order.{all_warnings, key_of, key_order, of_found, of_idle};

use crate::collect::found_in;
use crate::warning::{Says, Spot, Warning, rank};
use lrc_labels::label::IdleLabel;
use lrc_lang::token::Token;
use lrc_lint_warned::found::Found;
use lrc_program::Program;
use std::alloc::{AllocError, Global};

/// Returns the warnings of a program, sorted by line, then column, then kind. `tokens` are the program's tokens,
/// `spots` their lines and columns, and `idle` the label lines that say nothing. It fails if memory runs out.
pub fn warnings(
    alloc: Global,
    program: &Program,
    tokens: &[Token<'_>],
    spots: &[Spot],
    idle: &[IdleLabel],
) -> Result<Vec<Warning>, AllocError>
    requires { length tokens.now < 2 ^ 31 }
    ensures these { IfOk result (λ all. IsPermutation
        (all_warnings spots.now (found_in (program_of program.now) (map token_of tokens.now))
        idle.now) all.items) }
    ensures sorted { IfOk result (λ all. IsSortedByKey key_of key_order all.items) }
{
    let found = found_in(alloc, program, tokens)?;
    let mut all = placed(alloc, spots, &found, idle)?;
    sort(&mut all)?;
    Ok(all)
}

fn sort(all: &mut Vec<Warning>) -> Result<(), AllocError>
    ensures these { IsPermutation all.old.items all.new.items }
    ensures sorted { OnOk result (IsSortedByKey key_of key_order all.new.items) }
{
    all.sort_by_key(|w| (w.line, w.column, rank(w.says)))
}

// All warnings, with their lines and columns.
fn placed(
    alloc: Global,
    spots: &[Spot],
    found: &[Found],
    idle: &[IdleLabel],
) -> Result<Vec<Warning>, AllocError>
    ensures { IfOk result (λ all. all.items ≡ all_warnings spots.now found.now idle.now) }
{
    let mut all = Vec::new(alloc);
    for f in found {
        all.push(of_found(spots, *f))?;
    }
    put_idle(&mut all, idle)?;
    Ok(all)
}

fn put_idle(all: &mut Vec<Warning>, idle: &[IdleLabel]) -> Result<(), AllocError>
    ensures { OnOk result (all.new.items ≡ all.old.items ++ map of_idle idle.now) }
{
    for label in idle {
        all.push(of_idle(*label))?;
    }
    Ok(())
}

fn of_found(spots: &[Spot], found: Found) -> Warning
    ensures { result ≡ of_found spots.now found }
{
    let spot = if found.at < spots.len() {
        spots[found.at]
    } else {
        Spot { line: 0, column: 0 }
    };
    Warning {
        line: spot.line as usize,
        column: spot.column as usize,
        says: Says::OfText(found.kind),
    }
}

fn of_idle(label: IdleLabel) -> Warning
    ensures { result ≡ of_idle label }
{
    Warning {
        line: label.line,
        column: label.column,
        says: Says::OfLabel(label.reason),
    }
}
