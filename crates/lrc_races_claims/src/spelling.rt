// What is printed of a claim.
ghost use Rattle.std.specs.Prelude.{◌≡◌, ◌++◌, OnOk};
ghost use Rattle.lrc_races_lines.specs.Table.{names_of};
ghost use Rattle.lrc_races_text.specs.Spelled.{name_at, together};
ghost use Rattle.lrc_races_score.specs.Claims.{statement_of};
ghost use Rattle.lrc_races_claims.specs.Spelled.{first_place, second_place, variable_named, separated_parts, reason_parts, verdict_parts, verdict_line};

use crate::verdict::{Reason, Verdict};
use lrc_races_lines::table::Table;
use lrc_races_score::claim::Claim;
use lrc_races_text::asked::Sought;
use lrc_text::push_number;
use std::alloc::AllocError;

// Adds three parts of a line.
fn push_three(text: &mut Vec<u8>, one: &[u8], two: &[u8], three: &[u8]) -> Result<(), AllocError>
    ensures { OnOk result (text.new.items ≡ text.old.items ++ one.now ++ two.now ++ three.now) }
{
    text.extend_from_slice(one)?;
    text.extend_from_slice(two)?;
    text.extend_from_slice(three)?;
    Ok(())
}

// The name of a thread.
fn name_of(threads: &Table, thread: u32) -> &[u8]
    ensures { result.now ≡ name_at (names_of threads.now) thread }
{
    match threads.name(thread as usize) {
        Some(name) => name,
        None => &[],
    }
}

// The first location that a claim names.
fn first_place(claim: Claim<'_>) -> &[u8]
    ensures { result.now ≡ first_place (statement_of claim.entry) }
{
    match claim {
        Claim::Locations(place, _other) => place,
        _ => &[],
    }
}

// The second one.
fn second_place(claim: Claim<'_>) -> &[u8]
    ensures { result.now ≡ second_place (statement_of claim.entry) }
{
    match claim {
        Claim::Locations(_place, other) => other,
        _ => &[],
    }
}

// The variable that a claim names.
fn variable_named(claim: Claim<'_>) -> &[u8]
    ensures { result.now ≡ variable_named (statement_of claim.entry) }
{
    match claim {
        Claim::Variable(name) => name,
        Claim::First(name, _line) => name,
        _ => &[],
    }
}

// Adds that the access on the lesser line is separated from that on the greater.
fn push_separated(
    text: &mut Vec<u8>,
    sought: Sought,
    lesser: u64,
    greater: u64,
) -> Result<(), AllocError>
    ensures { OnOk result (text.new.items
        ≡ text.old.items ++ together (separated_parts sought lesser greater)) }
{
    match sought {
        Sought::AllRaces => {
            push_number(text, b"line ", lesser)?;
            push_number(text, b" happens before line ", greater)?;
            Ok(())
        }
        Sought::SureRaces => {
            push_number(text, b"line ", greater)?;
            push_number(text, b" was reached by way of line ", lesser)?;
            Ok(())
        }
    }
}

// Adds why a claim is false.
fn push_reason(
    text: &mut Vec<u8>,
    sought: Sought,
    threads: &Table,
    claim: Claim<'_>,
    reason: Reason,
) -> Result<(), AllocError>
    ensures { OnOk result (text.new.items ≡ text.old.items
        ++ together (reason_parts sought (names_of threads.now) (statement_of claim.entry) reason)) }
{
    match reason {
        Reason::TraceEnds { line } => push_number(text, b"the trace ends at line ", line),
        Reason::NoAccess { line } => {
            push_number(text, b"line ", line)?;
            push_three(text, b" is no access", b"", b"")
        }
        Reason::NoEarlier => push_three(text, b"it races with no earlier access", b"", b""),
        Reason::OneThread { thread } => {
            push_three(text, b"both are of thread ", name_of(threads, thread), b"")
        }
        Reason::TwoVariables => push_three(text, b"they are of different variables", b"", b""),
        Reason::BothRead => push_three(text, b"both read", b"", b""),
        Reason::Separated { lesser, greater } => push_separated(text, sought, lesser, greater),
        Reason::NoneAtFirst => push_three(text, b"no access is at ", first_place(claim), b""),
        Reason::NoneAtSecond => push_three(text, b"no access is at ", second_place(claim), b""),
        Reason::PlacesApart => push_three(text, b"no two accesses of them race", b"", b""),
        Reason::NoneOfVariable => push_three(text, b"no access is of ", variable_named(claim), b""),
        Reason::VariableApart => {
            push_three(text, b"no access of ", variable_named(claim), b" races")
        }
        Reason::FirstIs { line } => push_number(text, b"the first is line ", line),
    }
}

// Adds what is said of a claim.
fn push_verdict(
    text: &mut Vec<u8>,
    sought: Sought,
    threads: &Table,
    claim: Claim<'_>,
    verdict: Verdict,
) -> Result<(), AllocError>
    ensures { OnOk result (text.new.items ≡ text.old.items
        ++ together (verdict_parts sought (names_of threads.now) (statement_of claim.entry) verdict)) }
{
    match verdict {
        Verdict::True => push_three(text, b"true", b"", b""),
        Verdict::False(reason) => {
            push_three(text, b"false: ", b"", b"")?;
            push_reason(text, sought, threads, claim, reason)
        }
    }
}

/// Adds the line of a claim that stands on this line of the report.
pub fn push_line(
    text: &mut Vec<u8>,
    sought: Sought,
    threads: &Table,
    line: u64,
    claim: Claim<'_>,
    verdict: Verdict,
) -> Result<(), AllocError>
    ensures { OnOk result (text.new.items ≡ text.old.items
        ++ verdict_line sought (names_of threads.now) line (statement_of claim.entry) verdict) }
{
    push_number(text, b"report line ", line)?;
    push_three(text, b": ", b"", b"")?;
    push_verdict(text, sought, threads, claim, verdict)?;
    push_three(text, b"\n", b"", b"")
}
