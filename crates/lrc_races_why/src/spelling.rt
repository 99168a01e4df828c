// What is printed of two events.
ghost use Rattle.std.specs.Prelude.{◌≡◌, ◌++◌, OnOk, drop, flat_map};
ghost use Rattle.lrc_races_lines.specs.Table.{names_of};
ghost use Rattle.lrc_races_text.specs.Tables.{naming_of};
ghost use Rattle.lrc_races_text.specs.Spelled.{name_at, thread_word, variable_word, variable_of, place_word, place_name, together};
ghost use Rattle.lrc_races_why.specs.Spelled.{actor_parts, deed_parts, event_line, link_word, link_name, led_to, step_line, one_thread_line};
ghost use Rattle.lrc_races_why.specs.Spelled.{order_line, another_lock, held_text, race_line, held_line, neither_line};

use crate::deed::push_deed;
use crate::link::Link;
use lrc_races_lines::table::Table;
use lrc_races_text::form::Form;
use lrc_races_text::naming::Names;
use lrc_races_trace::event::{Event, Operation};
use lrc_text::push_number;
use std::alloc::AllocError;

// Adds two parts of a line.
fn push_two(text: &mut Vec<u8>, one: &[u8], other: &[u8]) -> Result<(), AllocError>
    ensures { OnOk result (text.new.items ≡ text.old.items ++ one.now ++ other.now) }
{
    text.extend_from_slice(one)?;
    text.extend_from_slice(other)?;
    Ok(())
}

// A name, by its number.
fn name(table: &Table, number: u32) -> &[u8]
    ensures { result.now ≡ name_at (names_of table.now) number }
{
    match table.name(number as usize) {
        Some(name) => name,
        None => &[],
    }
}

fn thread_word(form: Form) -> &'static [u8]
    ensures { result.now ≡ thread_word form }
{
    match form {
        Form::Std => b"",
        Form::Acts => b"node ",
    }
}

fn variable_word(form: Form) -> &'static [u8]
    ensures { result.now ≡ variable_word form }
{
    match form {
        Form::Std => b"",
        Form::Acts => b"word ",
    }
}

// The variable of an access.
fn variable_of(operation: Operation) -> u32
    ensures { result ≡ variable_of operation }
{
    match operation {
        Operation::Read(variable) | Operation::Write(variable) => variable,
        _ => 0,
    }
}

fn place_word(location: Option<u32>) -> &'static [u8]
    ensures { result.now ≡ place_word location }
{
    match location {
        Some(_) => b" at ",
        None => b"",
    }
}

fn place_name(names: &Names, location: Option<u32>) -> &[u8]
    ensures { result.now ≡ place_name (naming_of names.now) location }
{
    match location {
        Some(location) => name(&names.locations, location),
        None => &[],
    }
}

// Adds what the event on a line does, and where.
fn push_doing(
    text: &mut Vec<u8>,
    form: Form,
    names: &Names,
    line: &[u8],
    event: Event,
) -> Result<(), AllocError>
    ensures { OnOk result (text.new.items
        ≡ text.old.items ++ together (deed_parts form (naming_of names.now) line.now event)) }
{
    push_deed(text, form, line)?;
    push_two(
        text,
        place_word(event.location),
        place_name(names, event.location),
    )?;
    Ok(())
}

// Adds who does it.
fn push_actor(text: &mut Vec<u8>, form: Form, names: &Names, event: Event) -> Result<(), AllocError>
    ensures { OnOk result (text.new.items
        ≡ text.old.items ++ together (actor_parts form (naming_of names.now) event)) }
{
    push_two(text, thread_word(form), name(&names.threads, event.thread))?;
    push_two(text, b" ", b"")?;
    Ok(())
}

/// Adds the line of an event; `line` is the text of its line of the trace.
pub fn push_event(
    text: &mut Vec<u8>,
    form: Form,
    names: &Names,
    line: &[u8],
    event: Event,
) -> Result<(), AllocError>
    ensures { OnOk result (text.new.items
        ≡ text.old.items ++ event_line form (naming_of names.now) line.now event) }
{
    push_number(text, b"line ", event.line)?;
    push_two(text, b" ", b"")?;
    push_actor(text, form, names, event)?;
    push_doing(text, form, names, line, event)?;
    push_two(text, b"\n", b"")?;
    Ok(())
}

fn link_word(link: Link) -> &'static [u8]
    ensures { result.now ≡ link_word link }
{
    match link {
        Link::Thread(_) => b"    in thread ",
        Link::Lock(_) => b"    by lock ",
        Link::Fork(_) => b"    by fork of ",
        Link::Join(_) => b"    by join of ",
        Link::Barrier(_) => b"    by barrier ",
    }
}

fn link_name(names: &Names, link: Link) -> &[u8]
    ensures { result.now ≡ link_name (naming_of names.now) link }
{
    match link {
        Link::Thread(thread) | Link::Fork(thread) | Link::Join(thread) => {
            name(&names.threads, thread)
        }
        Link::Lock(lock) => name(&names.locks, lock),
        Link::Barrier(barrier) => name(&names.barriers, barrier),
    }
}

// Adds who does what a step leads to, where that is not said already.
fn push_led_to(
    text: &mut Vec<u8>,
    form: Form,
    names: &Names,
    link: Link,
    event: Event,
) -> Result<(), AllocError>
    ensures { OnOk result (text.new.items
        ≡ text.old.items ++ led_to form (naming_of names.now) link event) }
{
    match link {
        Link::Thread(_) => Ok(()),
        _ => {
            push_actor(text, form, names, event)?;
            Ok(())
        }
    }
}

/// Adds the line of a step that leads to an event; `line` is the text of its line of the trace.
pub fn push_step(
    text: &mut Vec<u8>,
    form: Form,
    names: &Names,
    link: Link,
    line: &[u8],
    event: Event,
) -> Result<(), AllocError>
    ensures { OnOk result (text.new.items
        ≡ text.old.items ++ step_line form (naming_of names.now) link line.now event) }
{
    push_two(text, link_word(link), link_name(names, link))?;
    push_number(text, b": line ", event.line)?;
    push_two(text, b" ", b"")?;
    push_led_to(text, form, names, link, event)?;
    push_doing(text, form, names, line, event)?;
    push_two(text, b"\n", b"")?;
    Ok(())
}

/// Adds that both events are of a thread.
pub fn push_one_thread(text: &mut Vec<u8>, names: &Names, thread: u32) -> Result<(), AllocError>
    ensures { OnOk result (text.new.items
        ≡ text.old.items ++ one_thread_line (naming_of names.now) thread) }
{
    push_two(text, b"  both are of thread ", name(&names.threads, thread))?;
    push_two(text, b"\n", b"")?;
    Ok(())
}

/// Adds that the event on a line happens before that on another.
pub fn push_order(text: &mut Vec<u8>, first: u64, second: u64) -> Result<(), AllocError>
    ensures { OnOk result (text.new.items ≡ text.old.items ++ order_line first second) }
{
    push_number(text, b"  line ", first)?;
    push_number(text, b" happens before line ", second)?;
    push_two(text, b":\n", b"")?;
    Ok(())
}

/// Adds that neither of two events happens before the other.
pub fn push_neither(text: &mut Vec<u8>) -> Result<(), AllocError>
    ensures { OnOk result (text.new.items ≡ text.old.items ++ neither_line) }
{
    text.extend_from_slice(b"  neither happens before the other\n")
}

/// Adds that two accesses race, of which this is one.
pub fn push_race(
    text: &mut Vec<u8>,
    form: Form,
    names: &Names,
    event: Event,
) -> Result<(), AllocError>
    ensures { OnOk result (text.new.items
        ≡ text.old.items ++ race_line form (naming_of names.now) event) }
{
    let variable = variable_of(event.operation);
    push_two(text, b"  they race: both access ", variable_word(form))?;
    push_two(
        text,
        name(&names.variables, variable),
        b", and neither happens before the other\n",
    )?;
    Ok(())
}

// Adds more locks.
fn push_more(text: &mut Vec<u8>, names: &Names, locks: &[u32]) -> Result<(), AllocError>
    ensures { OnOk result (text.new.items
        ≡ text.old.items ++ flat_map (another_lock (naming_of names.now)) locks.now) }
{
    for lock in locks {
        push_two(text, b", ", name(&names.locks, *lock))?;
    }
    Ok(())
}

// Adds the locks that are held.
fn push_held_locks(text: &mut Vec<u8>, names: &Names, locks: &[u32]) -> Result<(), AllocError>
    ensures { OnOk result (text.new.items
        ≡ text.old.items ++ held_text (naming_of names.now) locks.now) }
{
    let Some((lock, more)) = locks.split_first() else {
        push_two(text, b"no lock", b"")?;
        return Ok(());
    };
    let word: &[u8] = if more.is_empty() { b"lock " } else { b"locks " };
    push_two(text, word, name(&names.locks, *lock))?;
    push_more(text, names, more)?;
    Ok(())
}

/// Adds which locks are held at two lines.
pub fn push_held(
    text: &mut Vec<u8>,
    names: &Names,
    first: u64,
    held: &[u32],
    second: u64,
    others: &[u32],
) -> Result<(), AllocError>
    ensures { OnOk result (text.new.items
        ≡ text.old.items ++ held_line (naming_of names.now) first held.now second others.now) }
{
    push_number(text, b"  held at line ", first)?;
    push_two(text, b": ", b"")?;
    push_held_locks(text, names, held)?;
    push_number(text, b", at line ", second)?;
    push_two(text, b": ", b"")?;
    push_held_locks(text, names, others)?;
    push_two(text, b"\n", b"")?;
    Ok(())
}
