// The words of warnings.

ghost use Rattle.std.specs.Prelude.{◌≡◌, ◌++◌, OnOk, map, slice_get};
ghost use Rattle.lrc_labels.specs.Reading.{label_seen};
ghost use Rattle.lrc_lint_warnings.specs.Words.{kind_text};
ghost use Rattle.lrc_named_core.specs.View.{trap_of};
ghost use Rattle.lrc_named_entries.specs.View.{entry_seen};
ghost use Rattle.lrc_named_warnings.specs.Context.{context_seen};
ghost use Rattle.lrc_named_warnings.specs.declared.note.Says.TheVariants.{OfCore};
ghost use Rattle.lrc_named_warnings.specs.Words.{asserted_text, core_text, index_text, indexed_text, loop_text, says_text, sort_text, unused_text, unused_words};

use crate::context::Context;
use crate::note::Says;
use crate::notes::origin_at;
use lrc_labels::label::Label;
use lrc_lint_warned::found::Kind;
use lrc_lint_warnings::push_words as push_core_words;
use lrc_lint_warnings::warning::Says as CoreSays;
use lrc_named_core::tree::Trap;
use lrc_named_entries::entry::{Entry, Sort};
use std::alloc::AllocError;

/// Adds the words of a warning.
pub(crate) fn push_words(
    out: &mut Vec<u8>,
    context: &Context<'_>,
    says: Says,
) -> Result<(), AllocError>
    ensures { OnOk result (out.new.items
        ≡ out.old.items ++ says_text (context_seen context.now) says) }
{
    match says {
        Says::OfCore(kind, statement) => push_of_core(out, context, kind, statement),
        Says::OfLoop => push_of_loop(out),
        Says::Unused(number) => push_unused_at(out, context.unused, number),
    }
}

fn push_of_core(
    out: &mut Vec<u8>,
    context: &Context<'_>,
    kind: Kind,
    statement: usize,
) -> Result<(), AllocError>
    ensures { OnOk result (out.new.items
        ≡ out.old.items ++ says_text (context_seen context.now) (OfCore kind statement)) }
{
    let trap = origin_at(context.origins, statement).trap;
    push_core(out, kind, trap, context.names, context.labels)
}

// What is said of the core, where a trap of the statement is told so.
fn push_core(
    out: &mut Vec<u8>,
    kind: Kind,
    trap: Trap<'_>,
    names: &[&[u8]],
    labels: &[Label<'_>],
) -> Result<(), AllocError>
    ensures { OnOk result (out.new.items ≡ out.old.items
        ++ core_text (trap_of trap.entry) kind (map (λ name. name.now) names.now)
        (map label_seen labels.now)) }
{
    match trap {
        Trap::Plain => push_kind(out, kind, names, labels),
        Trap::Assertion => push_asserted(out, kind, names, labels),
        Trap::Index(name) => push_indexed(out, name, kind, names, labels),
    }
}

fn push_kind(
    out: &mut Vec<u8>,
    kind: Kind,
    names: &[&[u8]],
    labels: &[Label<'_>],
) -> Result<(), AllocError>
    ensures { OnOk result (out.new.items ≡ out.old.items
        ++ kind_text kind (map (λ name. name.now) names.now) (map label_seen labels.now)) }
{
    push_core_words(out, CoreSays::OfText(kind), names, labels)
}

// The same, in a statement by which an assertion traps.
fn push_asserted(
    out: &mut Vec<u8>,
    kind: Kind,
    names: &[&[u8]],
    labels: &[Label<'_>],
) -> Result<(), AllocError>
    ensures { OnOk result (out.new.items ≡ out.old.items
        ++ asserted_text kind (map (λ name. name.now) names.now) (map label_seen labels.now)) }
{
    match kind {
        Kind::DivisionByZero => out.extend_from_slice(b"assertion failed: this traps"),
        _ => push_kind(out, kind, names, labels),
    }
}

// The same, in a statement that uses an item of this name with indices.
fn push_indexed(
    out: &mut Vec<u8>,
    name: &[u8],
    kind: Kind,
    names: &[&[u8]],
    labels: &[Label<'_>],
) -> Result<(), AllocError>
    ensures { OnOk result (out.new.items ≡ out.old.items
        ++ indexed_text name.now kind (map (λ name. name.now) names.now)
        (map label_seen labels.now)) }
{
    match kind {
        Kind::NoSuchWord(_) | Kind::NoSuchLock(_) => push_index(out, name),
        _ => push_kind(out, kind, names, labels),
    }
}

fn push_index(out: &mut Vec<u8>, name: &[u8]) -> Result<(), AllocError>
    ensures { OnOk result (out.new.items ≡ out.old.items ++ index_text name.now) }
{
    out.extend_from_slice(b"index out of range of ")?;
    out.extend_from_slice(name)?;
    out.extend_from_slice(b": this traps")
}

fn push_of_loop(out: &mut Vec<u8>) -> Result<(), AllocError>
    ensures { OnOk result (out.new.items ≡ out.old.items ++ loop_text) }
{
    push_core_words(out, CoreSays::OfText(Kind::LearnsNothing), &[], &[])
}

fn push_unused_at(out: &mut Vec<u8>, unused: &[Entry<'_>], number: usize) -> Result<(), AllocError>
    ensures { OnOk result (out.new.items ≡ out.old.items
        ++ unused_words (slice_get (map entry_seen unused.now) number)) }
{
    match unused.get(number) {
        Some(entry) => push_unused(out, entry),
        None => Ok(()),
    }
}

fn push_unused(out: &mut Vec<u8>, entry: &Entry<'_>) -> Result<(), AllocError>
    ensures { OnOk result (out.new.items ≡ out.old.items ++ unused_text (entry_seen entry.now)) }
{
    out.extend_from_slice(sort_words(entry.sort))?;
    out.extend_from_slice(entry.name.bytes)?;
    out.extend_from_slice(b" is never used")
}

fn sort_words(sort: Sort) -> &'static [u8]
    ensures { result.now ≡ sort_text sort }
{
    match sort {
        Sort::Constant => b"constant ",
        Sort::Shared => b"shared ",
        Sort::Lock => b"lock ",
        Sort::Function => b"function ",
    }
}
