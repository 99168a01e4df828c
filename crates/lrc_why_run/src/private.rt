// What is told of an act from the text: the private names that its statement reads, and what a quiet does.

ghost use Rattle.std.specs.Prelude.{◌≡◌, ◌++◌, ◌≤◌, ◌<◌, OnOk, length, map, ok_or, slice_index};
ghost use Rattle.lrc_exec.specs.Condition.{condition_holds};
ghost use Rattle.lrc_exec.specs.Meaning.{value_in};
ghost use Rattle.lrc_program.specs.Sizes.{names_in_expression, names_in_statement};
ghost use Rattle.lrc_program.specs.Statements.{expression_of, statement_of};
ghost use Rattle.lrc_why_run.specs.Private.{condition_line, is_quiet, is_text, name_line, name_text, names_text, private_text, quiet_text, set_text, sets_line, statement_text, unseen_text};
ghost use Rattle.lrc_private_names.specs.Ways.{IsOnWay, thread_of};

use lrc_exec::machine::Machine;
use lrc_exec::value::evaluate;
use lrc_private_names::{Way, reads_name, spelling};
use lrc_program::{Expression, Statement};
use lrc_text::push_number;
use lrc_trace::act::Deed;
use lrc_why_lines::places::push_there;
use lrc_why_lines::shown::Shown;
use std::alloc::AllocError;

#[tactic(auto, unfolding(crate::specs::Private::is_text))]
fn push_is(text: &mut Vec<u8>, name: &[u8], value: u64) -> Result<(), AllocError>
    ensures { OnOk result (text.new.items ≡ text.old.items ++ is_text name.now value) }
{
    text.extend_from_slice(b"  ")?;
    text.extend_from_slice(name)?;
    push_number(text, b" is ", value)
}

#[tactic(auto, unfolding(crate::specs::Private::set_text))]
fn push_set(text: &mut Vec<u8>, shown: Shown<'_, '_>, last: Option<usize>) -> Result<(), AllocError>
    ensures { OnOk result (text.new.items ≡ text.old.items ++ set_text shown.entry last) }
{
    match last {
        None => text.extend_from_slice(b", never set\n"),
        Some(position) => {
            text.extend_from_slice(b", set by ")?;
            push_there(text, shown, position)?;
            text.extend_from_slice(b"\n")
        }
    }
}

#[tactic(auto, unfolding(crate::specs::Private::name_line))]
fn push_name(
    text: &mut Vec<u8>,
    shown: Shown<'_, '_>,
    name: &[u8],
    value: u64,
    last: Option<usize>,
) -> Result<(), AllocError>
    ensures { OnOk result (text.new.items
        ≡ text.old.items ++ name_line shown.entry name.now value last) }
{
    push_is(text, name, value)?;
    push_set(text, shown, last)
}

// Adds the line of the name of this number, if the statement reads it.
#[tactic(auto, unfolding(crate::specs::Private::name_text))]
fn push_read_name(
    text: &mut Vec<u8>,
    shown: Shown<'_, '_>,
    names: &[&[u8]],
    privates: &[u64; 32],
    statement: &Statement,
    name: usize,
    last: Option<usize>,
) -> Result<(), AllocError>
    requires { name < 32 }
    ensures { OnOk result (text.new.items ≡ text.old.items
        ++ name_text shown.entry (map (λ name. name.now) names.now) privates.now statement.now name
        last) }
{
    if reads_name(statement, name as u8) {
        return push_name(text, shown, spelling(names, name), privates[name], last);
    }
    Ok(())
}

// Adds the lines of the names that a statement reads.
fn push_names(
    text: &mut Vec<u8>,
    shown: Shown<'_, '_>,
    names: &[&[u8]],
    privates: &[u64; 32],
    statement: &Statement,
    lasts: &[Option<usize>],
) -> Result<(), AllocError>
    requires { length lasts.now ≤ 32 }
    ensures { OnOk result (text.new.items ≡ text.old.items
        ++ names_text shown.entry
        (map (λ name. name.now) names.now) privates.now statement.now lasts.now) }
{
    for name in 0..lasts.len() {
        push_read_name(text, shown, names, privates, statement, name, lasts[name])?;
    }
    Ok(())
}

// Adds what an assignment sets its name to, where its expression has a value.
#[tactic(auto, unfolding(crate::specs::Private::sets_line))]
fn push_sets(text: &mut Vec<u8>, name: &[u8], value: Option<u64>) -> Result<(), AllocError>
    ensures { OnOk result (text.new.items ≡ text.old.items ++ sets_line name.now value) }
{
    let Some(value) = value else {
        return Ok(());
    };
    text.extend_from_slice(b"  sets ")?;
    text.extend_from_slice(name)?;
    push_number(text, b" to ", value)?;
    text.extend_from_slice(b"\n")
}

#[tactic(auto, unfolding(crate::specs::Private::condition_line))]
fn condition_words(holds: bool) -> &'static [u8]
    ensures { result.now ≡ condition_line holds }
{
    if holds {
        b"  the condition holds\n"
    } else {
        b"  the condition does not hold\n"
    }
}

fn is_quiet(deed: Deed) -> bool
    ensures { result ≡ is_quiet deed }
{
    matches!(deed, Deed::Quiet)
}

// The value of an expression, if it has one.
fn value_of(way: &Way<'_>, expression: &Expression) -> Option<u64>
    requires { names_in_expression (expression_of expression.now) ≤ 32 }
    ensures { result ≡ value_in (thread_of way.now) expression.now }
{
    let spot = &way.spot;
    evaluate(expression, &spot.privates, spot.me, way.flat.nodes).ok()
}

// Whether the condition holds that comes next.
fn condition_holds(way: &Way<'_>) -> bool
    requires { IsOnWay way.now }
    ensures { result ≡ condition_holds (thread_of way.now) }
{
    Machine::at(&way.flat, &way.spot).condition_holds()
}

// Adds what the node does by its statement that only it sees.
#[tactic(auto, unfolding(crate::specs::Private::unseen_text))]
fn push_unseen(
    way: &Way<'_>,
    text: &mut Vec<u8>,
    names: &[&[u8]],
    statement: &Statement,
) -> Result<(), AllocError>
    requires on { IsOnWay way.now }
    requires names { names_in_statement (statement_of statement.now) ≤ 32 }
    ensures { OnOk result (text.new.items ≡ text.old.items
        ++ unseen_text (map (λ name. name.now) names.now) (thread_of way.now) statement.now) }
{
    match statement {
        Statement::Assign(name, value) => {
            push_sets(
                text,
                spelling(names, usize::from(*name)),
                value_of(way, value),
            )
        }
        Statement::If(..) | Statement::While(..) => {
            text.extend_from_slice(condition_words(condition_holds(way)))
        }
        _ => Ok(()),
    }
}

// Adds what the node does by a deed that only it sees.
#[tactic(auto, unfolding(crate::specs::Private::quiet_text))]
fn push_quiet(
    way: &Way<'_>,
    text: &mut Vec<u8>,
    names: &[&[u8]],
    deed: Deed,
    statement: &Statement,
) -> Result<(), AllocError>
    requires on { IsOnWay way.now }
    requires names { names_in_statement (statement_of statement.now) ≤ 32 }
    ensures { OnOk result (text.new.items ≡ text.old.items
        ++ quiet_text (map (λ name. name.now) names.now) (thread_of way.now) deed statement.now) }
{
    if is_quiet(deed) {
        return push_unseen(way, text, names, statement);
    }
    Ok(())
}

#[tactic(auto, unfolding(crate::specs::Private::statement_text))]
fn push_statement(
    way: &Way<'_>,
    text: &mut Vec<u8>,
    shown: Shown<'_, '_>,
    names: &[&[u8]],
    deed: Deed,
    statement: &Statement,
) -> Result<(), AllocError>
    requires on { IsOnWay way.now }
    requires names { names_in_statement (statement_of statement.now) ≤ 32 }
    ensures { OnOk result (text.new.items ≡ text.old.items
        ++ statement_text shown.entry (map (λ name. name.now) names.now)
        (thread_of way.now) way.now.set.items deed statement.now) }
{
    push_names(text, shown, names, &way.spot.privates, statement, &way.set)?;
    push_quiet(way, text, names, deed, statement)
}

/// Adds what the program's text tells about the node's next deed.
pub(crate) fn push_private(
    way: &Way<'_>,
    text: &mut Vec<u8>,
    shown: Shown<'_, '_>,
    names: &[&[u8]],
    deed: Deed,
) -> Result<(), AllocError>
    requires { IsOnWay way.now }
    ensures { OnOk result (text.new.items ≡ text.old.items
        ++ private_text shown.entry (map (λ name. name.now) names.now)
        (thread_of way.now) way.now.set.items deed) }
{
    match way.statement() {
        Some(statement) => push_statement(way, text, shown, names, deed, statement),
        None => Ok(()),
    }
}
