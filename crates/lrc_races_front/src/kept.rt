// What is kept of the lines of a trace.
ghost use Rattle.std.specs.Prelude.{◌≡◌, [], IfErr, OnOk};
ghost use Rattle.lrc_races_lines.specs.Line.{saying_of};
ghost use Rattle.lrc_races_text.specs.declared.fault.Fault.TheVariants.{NoMemory};
ghost use Rattle.lrc_races_text.specs.declared.form.Form.{Form as AnyForm};
ghost use Rattle.lrc_races_front.specs.Kept.{HasKept, KeepsEvent};

use crate::keeping::Keep;
use lrc_races_lines::line::{Line, Named};
use lrc_races_lines::reading::body_of;
use lrc_races_text::fault::Fault;
use lrc_races_text::form::Form;
use lrc_races_text::naming::Names;
use lrc_races_text::reading::{bad_event, cause_in, read};
use lrc_races_trace::event::Event;
use std::alloc::Global;

/// The events of the first lines of a trace.
#[derive(Drop)]
pub struct Kept {
    /// The names that they mention.
    pub names: Names,
    pub events: Vec<Event>,
    /// For each event the text of its line, without a carriage return at its end.
    pub texts: Vec<Vec<u8>>,
}

impl Kept {
    /// Creates the state before any line. It allocates nothing.
    pub fn new(alloc: Global) -> Kept
        ensures { (form : AnyForm) → HasKept form [] result }
    {
        Kept {
            names: Names::new(alloc),
            events: Vec::new(alloc),
            texts: Vec::new(alloc),
        }
    }

    // Keeps the event that a line names, and its text.
    fn keep(&mut self, named: Named<'_>, number: u64, text: &[u8]) -> Result<(), Fault>
        ensures ok { OnOk result (KeepsEvent (saying_of named.entry) number text.now self.old
            self.new) }
        ensures memory { IfErr result (λ fault. fault ≡ NoMemory) }
    {
        let event = self.names.event(named, number)?;
        let text = Vec::from_slice(*self.events.allocator(), text)?;
        self.events.push(event)?;
        self.texts.push(text)?;
        Ok(())
    }
}

impl Keep for Kept {
    ghost has_kept = { λ sought. HasKept };

    fn take(&mut self, form: Form, line: &[u8], number: u64) -> Result<(), Fault> {
        match read(form, line) {
            Line::Nothing => Ok(()),
            Line::Event(named) => self.keep(named, number, body_of(line)),
            Line::Bad => {
                let alloc = *self.events.allocator();
                Err(bad_event(alloc, number, cause_in(form, number, line)))
            }
        }
    }
}
