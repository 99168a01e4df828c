// A text of the core as it is read, and by what it is told.

ghost use Rattle.std.specs.Prelude.{◌≡◌, [], IfOk, map, option_map, slice_index, slice_index_or};
ghost use Rattle.std.specs.List.{range_with_len};
ghost use Rattle.std.specs.Str.{bytes_eq};
ghost use Rattle.lrc_lang.specs.Faults.{IsText};
ghost use Rattle.lrc_program.specs.Tree.{program_of};
ghost use Rattle.lrc_program.specs.declared.Program.{Program};
ghost use Rattle.lrc_named_core.specs.View.{trap_of};
ghost use Rattle.lrc_named_held.specs.Held.{held_seen};
ghost use Rattle.lrc_source.specs.Telling.{AreLines, as_translated, as_written, is_own, name_held, name_told, names_at, names_told, shown_text, traps_of};

use lrc_lang::lines::lines_of;
use lrc_named_core::tree::Trap;
use lrc_named_held::Held;
use std::alloc::{AllocError, Global};
use std::marker::Model;

/// By what a core is told that a named program has.
#[derive(Clone, Copy)]
pub struct Translation<'t> {
    /// The text of the named program.
    pub text: &'t [u8],
    /// The line in that text of the statement that each statement of the core comes from, in the order of the core's
    /// text, and last that of the named text's end.
    pub lines: &'t [u32],
    /// What the named program says of a trap of each statement of the core, in the same order.
    pub traps: &'t [Trap<'t>],
    /// What the translation's own names hold in each statement of the core, in the same order.
    pub held: &'t [Vec<Held>],
}

/// By what a text of the core is told.
#[derive(Clone, Copy)]
pub enum Telling<'t> {
    /// It was written, and tells itself.
    Written,
    /// It is the core of a named program, by which it is told.
    Translated(Translation<'t>),
}

/// A text of the core as it is read: as it was written, or as the core of a named program. In a contract its value is
/// the text, and by what it is told.
#[derive(Drop)]
pub struct ReadText<'t> {
    core: &'t [u8],
    telling: Telling<'t>,
}

impl<'t> Model for ReadText<'t> {
    ghost use Rattle.lrc_source.specs.Telling.{ReadText as Read, telling_seen};

    ghost Value = { Read };

    ghost view = { λ r. record { core = r.core.now; telling = telling_seen r.telling } };
}

impl<'t> ReadText<'t> {
    /// Returns a text of the core as it was written.
    pub fn written(text: &'t [u8]) -> ReadText<'t>
        ensures { result ≡ as_written text.entry.now }
    {
        ReadText {
            core: text,
            telling: Telling::Written,
        }
    }

    /// Returns a text of the core that is told by the named program with this text. `lines` has the line in it of each
    /// statement of the core, and last that of its end; `traps` has what is said of a trap of each statement, and `held`
    /// what its names of the translation's own hold.
    pub fn translated(
        core: &'t [u8],
        text: &'t [u8],
        lines: &'t [u32],
        traps: &'t [Trap<'t>],
        held: &'t [Vec<Held>],
    ) -> ReadText<'t>
        ensures { result ≡ as_translated core.entry.now text.entry.now lines.entry.now
            (map trap_of traps.entry.now) (map (λ one. map held_seen one.items) held.entry.now) }
    {
        ReadText {
            core,
            telling: Telling::Translated(Translation {
                text,
                lines,
                traps,
                held,
            }),
        }
    }

    /// Returns the text of the core.
    pub fn core(&self) -> &'t [u8]
        ensures { result.now ≡ self.now.core }
    {
        self.core
    }

    /// Returns the text that is shown.
    pub fn shown(&self) -> &'t [u8]
        ensures { result.now ≡ shown_text self.now }
    {
        match self.telling {
            Telling::Written => self.core,
            Telling::Translated(named) => named.text,
        }
    }

    /// Returns what is said of a trap of each statement of the core, in the order of its text, if something is said.
    pub fn traps(&self) -> Option<&'t [Trap<'t>]>
        ensures { option_map (λ traps. map trap_of traps.now) result ≡ traps_of self.now.telling }
    {
        match self.telling {
            Telling::Written => None,
            Telling::Translated(named) => Some(named.traps),
        }
    }

    /// Returns the private names of the core as they are told in the statement of this number, each at its place: what it
    /// holds in place of a name of the translation's own. It fails only if memory runs out.
    pub fn names_at(
        &self,
        alloc: Global,
        statement: u32,
        names: &[&'t [u8]],
    ) -> Result<Vec<&'t [u8]>, AllocError>
        ensures { IfOk result (λ told. map (λ name. name.now) told.items
            ≡ names_at self.now.telling statement (map (λ name. name.now) names.now)) }
    {
        match self.telling {
            Telling::Written => Vec::from_slice(alloc, names),
            Telling::Translated(named) => with_held(alloc, held_at(named.held, statement), names),
        }
    }

    /// Returns the private names that are told of those of the core, each at its place: nothing in place of a name of the
    /// translation's own. It fails only if memory runs out.
    pub fn names_told(&self, alloc: Global, names: &[&'t [u8]]) -> Result<Vec<&'t [u8]>, AllocError>
        ensures { IfOk result (λ told. map (λ name. name.now) told.items
            ≡ names_told self.now.telling (map (λ name. name.now) names.now)) }
    {
        match self.telling {
            Telling::Written => Vec::from_slice(alloc, names),
            Telling::Translated(_) => without_own(alloc, names),
        }
    }

    /// Returns the lines of the statements of the program that the core's text is of, in the order of that text, and
    /// last that of the text's end. It fails only if memory runs out.
    pub fn lines(&self, alloc: Global) -> Result<Vec<u32>, AllocError>
        ensures { (program : Program) → IsText self.now.core (program_of program)
            → IfOk result (λ lines. AreLines self.now program lines.items) }
    {
        let own = lines_of(alloc, self.core)?;
        match self.telling {
            Telling::Written => Ok(own),
            Telling::Translated(named) => lines_to(alloc, named.lines, own.len()),
        }
    }
}

// What the translation's own names hold in the statement of this number.
fn held_at(held: &[Vec<Held>], statement: u32) -> &[Held]
    ensures { map held_seen result.now
        ≡ slice_index_or (map (λ one. map held_seen one.items) held.now) statement [] }
{
    match held.get(statement as usize) {
        Some(one) => one.as_slice(),
        None => &[],
    }
}

// Whether what is told of a name is of this one.
fn is_of(held: &Held, name: &[u8]) -> bool
    ensures { result ≡ bytes_eq (held_seen held.now).name name.now }
{
    held.name.as_slice() == name
}

// What is told in place of a name.
fn name_held<'t>(held: &'t [Held], name: &'t [u8]) -> &'t [u8]
    ensures { result.now ≡ name_held (map held_seen held.now) name.now }
{
    for one in held {
        if is_of(one, name) {
            return one.source.as_slice();
        }
    }
    name
}

// These names, each as it is told where these are held.
fn with_held<'t>(
    alloc: Global,
    held: &'t [Held],
    names: &[&'t [u8]],
) -> Result<Vec<&'t [u8]>, AllocError>
    ensures { IfOk result (λ told. map (λ name. name.now) told.items
        ≡ map (name_held (map held_seen held.now)) (map (λ name. name.now) names.now)) }
{
    let mut told = Vec::new(alloc);
    for name in names {
        told.push(name_held(held, *name))?;
    }
    Ok(told)
}

// Whether a name is one of the translation's own.
fn is_own(name: &[u8]) -> bool
    ensures { result ≡ is_own name.now }
{
    match name {
        [byte, ..] => *byte == b'_',
        [] => false,
    }
}

// A name, or nothing in place of one of the translation's own.
fn name_told(name: &[u8]) -> &[u8]
    ensures { result.now ≡ name_told name.now }
{
    if is_own(name) { b"" } else { name }
}

// These names, with nothing in place of those of the translation's own.
fn without_own<'t>(alloc: Global, names: &[&'t [u8]]) -> Result<Vec<&'t [u8]>, AllocError>
    ensures { IfOk result (λ told. map (λ name. name.now) told.items
        ≡ map name_told (map (λ name. name.now) names.now)) }
{
    let mut told = Vec::new(alloc);
    for name in names {
        told.push(name_told(*name))?;
    }
    Ok(told)
}

// The line at a place; past the last one it is 0.
fn line_at(lines: &[u32], place: usize) -> u32
    ensures { result ≡ slice_index lines.now place }
{
    match lines.get(place) {
        Some(line) => *line,
        None => 0,
    }
}

// The lines at so many places.
fn lines_to(alloc: Global, given: &[u32], count: usize) -> Result<Vec<u32>, AllocError>
    ensures { IfOk result (λ lines. lines.items
        ≡ map (λ number. slice_index given.now number) (range_with_len 0 count)) }
{
    let mut lines = Vec::new(alloc);
    for number in 0..count {
        lines.push(line_at(given, number))?;
    }
    Ok(lines)
}
