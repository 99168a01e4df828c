// A text that is a program, with its flat code.

ghost use Rattle.std.specs.Prelude.{◌≡◌, IfOk, map};
ghost use Rattle.lrc_lang.specs.Faults.{IsText};
ghost use Rattle.lrc_program.specs.Tree.{program_of};
ghost use Rattle.lrc_labels.specs.Reading.{label_seen};
ghost use Rattle.lrc_private_names.specs.Spelling.{AreNamesOf};
ghost use Rattle.lrc_source.specs.Sources.{labels_in};
ghost use Rattle.lrc_source.specs.Telling.{AreLines};

use crate::read_text::ReadText;
use crate::text::SourceText;
use lrc_exec::code::Code;
use lrc_labels::label::Label;
use lrc_program::Program;
use std::alloc::{AllocError, Global};
use std::marker::Model;

/// The source of a run: a text that is a program, all that is read from it, and the program's flat code. In a contract
/// its value is that of the text: the flat code is that of the program.
#[derive(Drop)]
pub struct Source<'s> {
    text: &'s SourceText<'s>,
    code: Code<'s>,
}

impl<'s> Model for Source<'s> {
    ghost use Rattle.std.specs.Prelude.{◌≡◌};
    ghost use Rattle.std.specs.Coded.{codes};
    ghost use Rattle.lrc_program.specs.contracts.Statement as statement;
    ghost use Rattle.lrc_source.specs.Sources.{SourceRecord};

    ghost Value = { SourceRecord };

    ghost coded = { Prim.hlevel (codes, statement.the_row.coded) };

    ghost view = { λ s. s.text.now };

    ghost invariant = { λ s. s.code ≡ s.text.now.program };
}

impl<'s> Source<'s> {
    /// Translates the program of a text to flat code. It fails only if memory runs out.
    pub fn of(alloc: Global, text: &'s SourceText<'s>) -> Result<Source<'s>, AllocError>
        ensures { IfOk result (λ source. source ≡ text.now) }
    {
        let code = Code::new(alloc, text.program())?;
        Ok(Source { text, code })
    }

    /// Returns the text as it is read.
    pub fn text(&self) -> &'s ReadText<'s>
        ensures { result.now ≡ self.now.text }
    {
        self.text.text()
    }

    /// Returns the program of the text.
    pub fn program(&self) -> &'s Program
        ensures program { result.now ≡ self.now.program }
        ensures text { IsText self.now.text.core (program_of self.now.program) }
    {
        self.text.program()
    }

    /// Returns the flat code of the program.
    pub fn code(&self) -> &Code<'s>
        ensures { result.now ≡ self.now.program }
    {
        &self.code
    }

    /// Returns the line of each statement, in the order of the core's text, and last that of the text's end.
    pub fn lines(&self) -> &'s [u32]
        ensures lines { result.now ≡ self.now.lines }
        ensures text { AreLines self.now.text self.now.program self.now.lines }
    {
        self.text.lines()
    }

    /// Returns the labels, in the order of the text.
    pub fn labels(&self) -> &'s [Label<'s>]
        ensures labels { map label_seen result.now ≡ self.now.labels }
        ensures text { self.now.labels ≡ labels_in self.now.text.core self.now.program }
    {
        self.text.labels()
    }

    /// Returns the private names of the core, each at the place of its number.
    pub fn names(&self) -> &'s [&'s [u8]]
        ensures names { map (λ name. name.now) result.now ≡ self.now.names }
        ensures text { AreNamesOf self.now.text.core self.now.names }
    {
        self.text.names()
    }
}
