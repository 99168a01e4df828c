// What is told of a text that has a fault as such.

ghost use Rattle.std.specs.Prelude.{◌≡◌, ◌++◌, ◌-◌, ◌<◌, ◌≤◌, [], ℕ, List, length, map, slice_get, slice_index_or, take, IfOk, MatchOption, OnOk};
ghost use Rattle.lrc_lang.specs.declared.fault.FaultKind.{FaultKind as FaultKindSeen};
ghost use Rattle.lrc_text.specs.Parts.{whole_text};
ghost use Rattle.lrc_named_tokens.specs.Lexemes.{HasLexemes};
ghost use Rattle.lrc_named_tokens.specs.Token.{Place as PlaceSeen};
ghost use Rattle.lrc_named_tokens.specs.View.{located_of};
ghost use Rattle.lrc_named_parse.specs.Faults.{HasFirstFault};
ghost use Rattle.lrc_named_may.specs.FirstFault.{IsFirstFaultOf};
ghost use Rattle.lrc_named_hints.specs.Hint.{words_of};
ghost use Rattle.lrc_named_hints.specs.HintTable.{hint_of, seen_of};
ghost use Rattle.lrc_lint_fault.specs.Hint.{words_line};
ghost use Rattle.lrc_named_lint.specs.Told.{TellsTextFault, TellsText, expected_of, fault_lines};

use crate::head::push_kind;
use lrc_lang::fault::FaultKind;
use lrc_lint_fault::{Linted, no_program, too_long};
use lrc_lint_lines::{push_excerpt, push_place};
use lrc_named_expected::push_expected;
use lrc_named_hints::fault::Fault;
use lrc_named_hints::hint::{Hint, push_hint};
use lrc_named_hints::hint_for;
use lrc_named_may::first_fault::{FirstFault, first_fault};
use lrc_named_parse::MOST_BYTES;
use lrc_named_tokens::token::Located;
use lrc_named_tokens::tokens_of;
use std::alloc::{AllocError, Global};

/// Reports the first fault of a text as such, or returns none if the text is a named program by the grammar and within
/// the limits of texts. The report names the file as it was given.
pub fn lint_text_fault(
    alloc: Global,
    file: &[u8],
    text: &[u8],
) -> Result<Option<Linted>, AllocError>
    ensures { IfOk result (λ told. MatchOption told
        ((place : PlaceSeen) (kind : FaultKindSeen) → HasFirstFault text.now place kind → ⊥)
        (λ linted. TellsText file.now text.now (whole_text linted.parts.items)
        × (linted.status ≡ 1))) }
{
    if text.len() > MOST_BYTES {
        return Ok(Some(too_long(alloc, file)?));
    }
    let all = tokens_of(alloc, text)?;
    match first_fault(alloc, &all)? {
        Some(fault) => Ok(Some(faulty(alloc, file, text, &all, fault)?)),
        None => Ok(None),
    }
}

fn faulty(
    alloc: Global,
    file: &[u8],
    text: &[u8],
    all: &[Located<'_>],
    first: FirstFault,
) -> Result<Linted, AllocError>
    requires all { HasLexemes text.now (map located_of all.now) }
    requires first { IsFirstFaultOf (map located_of all.now) first.index first.kind
        first.may_stand.items }
    requires within { first.index < length all.now }
    ensures parts { IfOk result (λ linted. TellsTextFault file.now text.now
        (whole_text linted.parts.items)) }
    ensures status { IfOk result (λ linted. linted.status ≡ 1) }
{
    let mut out = Vec::new(alloc);
    push_first(&mut out, alloc, file, text, all, &first)?;
    no_program(alloc, out)
}

fn push_first(
    out: &mut Vec<u8>,
    alloc: Global,
    file: &[u8],
    text: &[u8],
    all: &[Located<'_>],
    first: &FirstFault,
) -> Result<(), AllocError>
    requires all { HasLexemes text.now (map located_of all.now) }
    requires first { IsFirstFaultOf (map located_of all.now) first.now.index first.now.kind
        first.now.may_stand.items }
    requires within { first.now.index < length all.now }
    ensures { OnOk result ((lines : List ℕ) × (out.new.items ≡ out.old.items ++ lines)
        × TellsTextFault file.now text.now lines) }
{
    let fault = fault_of(text, all, first);
    push_told(out, alloc, file, &fault)
}

// The fault, with what stands around it.
fn fault_of<'t>(text: &'t [u8], all: &'t [Located<'t>], first: &'t FirstFault) -> Fault<'t>
    requires { first.now.index < length all.now }
    ensures text { result.text.now ≡ text.entry.now }
    ensures before { result.before.now ≡ take first.entry.now.index all.entry.now }
    ensures previous { result.previous ≡ slice_get (take first.entry.now.index all.entry.now)
        (length (take first.entry.now.index all.entry.now) - 1) }
    ensures found { result.found ≡ slice_index_or all.entry.now first.entry.now.index result.found }
    ensures kind { result.kind ≡ first.entry.now.kind }
    ensures may_stand { result.may_stand.now ≡ first.entry.now.may_stand.items }
{
    let before = &all[..first.index];
    Fault {
        text,
        before,
        previous: before.last().copied(),
        found: all[first.index],
        kind: first.kind,
        may_stand: &first.may_stand,
    }
}

fn push_told(
    out: &mut Vec<u8>,
    alloc: Global,
    file: &[u8],
    fault: &Fault<'_>,
) -> Result<(), AllocError>
    ensures { OnOk result (out.new.items ≡ out.old.items
        ++ fault_lines file.now fault.now.text.now
        (located_of fault.now.found) fault.now.kind fault.now.may_stand.now
        (hint_of fault.now.kind (seen_of fault.now))) }
{
    let found = fault.found.place;
    push_place(out, file, u64::from(found.line), u64::from(found.column))?;
    push_kind(out, fault)?;
    push_excerpt(
        out,
        alloc,
        fault.text,
        found.line as usize,
        found.column as usize,
    )?;
    push_hint_if_any(out, hint_for(fault))?;
    push_may_stand(out, alloc, fault)
}

fn push_hint_if_any(out: &mut Vec<u8>, hint: Option<Hint<'_>>) -> Result<(), AllocError>
    ensures { OnOk result (out.new.items ≡ out.old.items ++ words_line (words_of hint.entry)) }
{
    match hint {
        Some(hint) => push_hint(out, hint),
        None => Ok(()),
    }
}

fn push_may_stand(out: &mut Vec<u8>, alloc: Global, fault: &Fault<'_>) -> Result<(), AllocError>
    ensures { OnOk result (out.new.items
        ≡ out.old.items ++ expected_of fault.now.kind fault.now.may_stand.now) }
{
    match fault.kind {
        FaultKind::Unexpected => push_expected(out, alloc, fault.may_stand),
        _ => Ok(()),
    }
}
