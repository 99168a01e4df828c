// What is kept of the lines of a trace about which claims are judged.
ghost use Rattle.std.specs.Prelude.{◌≡◌, [], IfErr, OnOk};
ghost use Rattle.lrc_races_lines.specs.Line.{saying_of};
ghost use Rattle.lrc_races_text.specs.declared.fault.Fault.TheVariants.{NoMemory};
ghost use Rattle.lrc_races_text.specs.declared.form.Form.{Form as AnyForm};
ghost use Rattle.lrc_races_scored.specs.Traced.{HasTraced, TracesEvent};

use lrc_races_front::keeping::Keep;
use lrc_races_lines::line::{Line, Named};
use lrc_races_text::fault::Fault;
use lrc_races_text::form::Form;
use lrc_races_text::naming::Names;
use lrc_races_text::reading::{bad_event, cause_in, read};
use lrc_races_trace::event::Event;
use std::alloc::Global;

/// The events of the first lines of a trace.
#[derive(Drop)]
pub struct Traced {
    /// The names that they mention.
    pub names: Names,
    /// The events.
    pub events: Vec<Event>,
}

impl Traced {
    /// Creates the state before any line. It allocates nothing.
    pub fn new(alloc: Global) -> Traced
        ensures { (form : AnyForm) → HasTraced form [] result }
    {
        Traced {
            names: Names::new(alloc),
            events: Vec::new(alloc),
        }
    }

    // Keeps the event that a line names.
    fn keep(&mut self, named: Named<'_>, number: u64) -> Result<(), Fault>
        ensures ok { OnOk result (TracesEvent (saying_of named.entry) number self.old self.new) }
        ensures memory { IfErr result (λ fault. fault ≡ NoMemory) }
    {
        let event = self.names.event(named, number)?;
        self.events.push(event)?;
        Ok(())
    }
}

impl Keep for Traced {
    ghost has_kept = { λ sought. HasTraced };

    fn take(&mut self, form: Form, line: &[u8], number: u64) -> Result<(), Fault> {
        match read(form, line) {
            Line::Nothing => Ok(()),
            Line::Event(named) => self.keep(named, number),
            Line::Bad => {
                let alloc = *self.events.allocator();
                Err(bad_event(alloc, number, cause_in(form, number, line)))
            }
        }
    }
}
