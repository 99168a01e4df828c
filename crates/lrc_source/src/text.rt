// A text that is a program, with all that is read from it.

ghost use Rattle.std.specs.Prelude.{◌≡◌, ◌⊎◌, ℕ, IfErr, IfOk, MatchResult, map};
ghost use Rattle.lrc_lang.specs.declared.fault.FaultKind.{FaultKind as Kind};
ghost use Rattle.lrc_lang.specs.Faults.{HasFirstFault, IsText};
ghost use Rattle.lrc_lang.specs.Parser.SeenParser.{IsOutOfMemory};
ghost use Rattle.lrc_program.specs.Tree.{ProgramTree, program_of};
ghost use Rattle.lrc_labels.specs.Reading.{label_seen};
ghost use Rattle.lrc_private_names.specs.Spelling.{AreNamesOf};
ghost use Rattle.lrc_source.specs.Sources.{IsSource, IsSourceOf, labels_in};
ghost use Rattle.lrc_source.specs.Telling.{AreLines};

use crate::read_text::ReadText;
use lrc_labels::label::Label;
use lrc_labels::read_labels;
use lrc_lang::fault::{FaultKind, ParseFault};
use lrc_lang::parse;
use lrc_private_names::names_of;
use lrc_program::Program;
use std::alloc::{AllocError, Global};
use std::marker::Model;

/// A text that is a program, with the program and all else that is read from the text. In a contract its value is the
/// record of these.
#[derive(Drop)]
pub struct SourceText<'t> {
    text: &'t ReadText<'t>,
    program: Program,
    lines: Vec<u32>,
    labels: Vec<Label<'t>>,
    names: Vec<&'t [u8]>,
}

impl<'t> Model for SourceText<'t> {
    ghost use Rattle.std.specs.Prelude.{map};
    ghost use Rattle.std.specs.Coded.{codes};
    ghost use Rattle.lrc_program.specs.contracts.Statement as statement;
    ghost use Rattle.lrc_labels.specs.Reading.{label_seen};
    ghost use Rattle.lrc_source.specs.Sources.{IsSource, SourceRecord};

    ghost Value = { SourceRecord };

    ghost coded = { Prim.hlevel (codes, statement.the_row.coded) };

    ghost view = { λ s. record {
      text = s.text.now;
      program = s.program;
      lines = s.lines.items;
      labels = map label_seen s.labels.items;
      names = map (λ name. name.now) s.names.items;
    } };

    ghost invariant = { λ s. IsSource (record {
      text = s.text.now;
      program = s.program;
      lines = s.lines.items;
      labels = map label_seen s.labels.items;
      names = map (λ name. name.now) s.names.items;
    }) };
}

impl<'t> SourceText<'t> {
    /// Reads a text. This is the one place that makes a source. It fails if the core's text is no program, with the first
    /// fault of that text, or if memory runs out.
    pub fn read(alloc: Global, text: &'t ReadText<'t>) -> Result<SourceText<'t>, ParseFault>
        // What is read is that of the text.
        ensures source { IfOk result (IsSourceOf text.entry.now) }
        ensures program { IfOk result
            (λ source. IsText text.entry.now.core (program_of source.program)) }
        // Any other answer is the first fault of the text, with its line, unless memory ran out.
        ensures fault { IfErr result
            (λ e. IsOutOfMemory e ⊎ HasFirstFault text.entry.now.core e.line e.kind) }
        // A text that is a program has no other answer than that program's source.
        ensures of_program { (p : ProgramTree) → IsText text.entry.now.core p →
            MatchResult result (λ source. program_of source.program ≡ p) IsOutOfMemory }
        // A text that has a first fault has no other answer than that fault.
        ensures of_fault { (line : ℕ) (kind : Kind) → HasFirstFault text.entry.now.core line kind →
            MatchResult result (λ _. ⊥)
            (λ e. IsOutOfMemory e ⊎ ((e.line ≡ line) × (e.kind ≡ kind))) }
    {
        let program = parse(alloc, text.core())?;
        match told(alloc, text, program) {
            Ok(source) => Ok(source),
            Err(_) => Err(OUT_OF_MEMORY),
        }
    }

    /// Returns the text as it is read.
    pub fn text(&self) -> &'t ReadText<'t>
        ensures { result.now ≡ self.now.text }
    {
        self.text
    }

    /// Returns the program of the text.
    pub fn program(&self) -> &Program
        ensures program { result.now ≡ self.now.program }
        ensures text { IsText self.now.text.core (program_of self.now.program) }
    {
        &self.program
    }

    /// Returns the line of each statement, in the order of the core's text, and last that of the text's end.
    pub fn lines(&self) -> &[u32]
        ensures lines { result.now ≡ self.now.lines }
        ensures text { AreLines self.now.text self.now.program self.now.lines }
    {
        &self.lines
    }

    /// Returns the labels, in the order of the text.
    pub fn labels(&self) -> &[Label<'t>]
        ensures labels { map label_seen result.now ≡ self.now.labels }
        ensures text { self.now.labels ≡ labels_in self.now.text.core self.now.program }
    {
        &self.labels
    }

    /// Returns the private names of the core, each at the place of its number.
    pub fn names(&self) -> &[&'t [u8]]
        ensures names { map (λ name. name.now) result.now ≡ self.now.names }
        ensures text { AreNamesOf self.now.text.core self.now.names }
    {
        &self.names
    }
}

const OUT_OF_MEMORY: ParseFault = ParseFault {
    line: 0,
    kind: FaultKind::NoMemory,
};

// What is read from the text of a program.
fn told<'t>(
    alloc: Global,
    text: &'t ReadText<'t>,
    program: Program,
) -> Result<SourceText<'t>, AllocError>
    requires { IsText text.now.core (program_of program) }
    ensures text { IfOk result (λ source. source.text ≡ text.entry.now) }
    ensures program { IfOk result (λ source. source.program ≡ program) }
{
    let lines = text.lines(alloc)?;
    let core = text.core();
    let labels = read_labels(alloc, core, program.words(), program.locks())?;
    let names = names_of(alloc, core)?;
    Ok(SourceText {
        text,
        program,
        lines,
        labels: labels.said,
        names,
    })
}
