// What is kept of the lines of a trace whose pairs of locations are reported, and the report.
ghost use Rattle.std.specs.Prelude.{◌≡◌, ◌<◌, [], List, ℕ, IfErr, IfOk, OnOk};
ghost use Rattle.lrc_races_lines.specs.Line.{saying_of};
ghost use Rattle.lrc_races_text.specs.declared.asked.Sought.{Sought as AnySought};
ghost use Rattle.lrc_races_text.specs.declared.fault.Fault.TheVariants.{NoMemory};
ghost use Rattle.lrc_races_text.specs.declared.form.Form.{Form as AnyForm};
ghost use Rattle.lrc_races_locations.specs.Lines.{HasLocatedOne, HasToldAll, IsLocated};

use crate::detector::LocationDetector;
use crate::layouts::push_location_lines;
use lrc_races_detector::fault_finder::FaultFinder;
use lrc_races_front::keeping::Keep;
use lrc_races_lines::line::{Line, Named};
use lrc_races_text::asked::{Layout, Sought};
use lrc_races_text::fault::Fault;
use lrc_races_text::form::Form;
use lrc_races_text::layouts::push_end_lines;
use lrc_races_text::naming::Names;
use lrc_races_text::reading::{bad_event, cause_in, read};
use std::alloc::{AllocError, Global};

/// What is kept of the lines of a trace: the pairs of locations that race, and the first event that no program would
/// give.
#[derive(Drop)]
pub struct Located {
    alloc: Global,
    /// The names that the lines mention.
    pub names: Names,
    /// The pairs of locations.
    pub detector: LocationDetector,
    /// The first event that no program would give.
    pub finder: FaultFinder,
}

impl Located {
    /// Creates the state before any line. It allocates nothing.
    pub fn new(alloc: Global, sought: Sought) -> Located
        ensures { (form : AnyForm) → IsLocated sought form [] result }
    {
        Located {
            alloc,
            names: Names::new(alloc),
            detector: LocationDetector::new(alloc, sought),
            finder: FaultFinder::new(alloc),
        }
    }

    // Takes the event that a line names.
    fn locate(&mut self, named: Named<'_>, number: u64) -> Result<(), Fault>
        ensures ok { OnOk result (HasLocatedOne (record
            { line = number; saying = saying_of named.entry }) self.old self.new) }
        ensures memory { IfErr result (λ fault. fault ≡ NoMemory) }
    {
        if self.detector.detector.position() >= u64::MAX - 1 {
            return Err(Fault::NoMemory);
        }
        let event = self.names.event(named, number)?;
        self.detector.take(event)?;
        self.finder.take(event)?;
        Ok(())
    }

    /// Adds what is reported of a trace, of which all lines have come: a line for each pair of locations that race, the
    /// first event that no program would give, and the last line. Returns the exit status: 3 if a pair is reported,
    /// else 0. It fails if memory runs out.
    pub fn push_report(
        &self,
        text: &mut Vec<u8>,
        form: Form,
        layout: Layout,
    ) -> Result<u8, AllocError>
        ensures { IfOk result (λ status. (sought : AnySought) (lines : List (List ℕ))
            → IsLocated sought form lines self.now
            → HasToldAll sought form layout lines text.old.items status text.new.items) }
    {
        let pairs = self.detector.locator.pairs();
        let races = pairs.len() as u64;
        push_location_lines(text, layout, form, &self.names, pairs)?;
        push_end_lines(
            text,
            layout,
            form,
            &self.names,
            &[],
            self.finder.fault(),
            races,
            self.detector.detector.position(),
        )?;
        Ok(if races == 0 { 0 } else { 3 })
    }
}

impl Keep for Located {
    ghost has_kept = { IsLocated };

    fn take(&mut self, form: Form, line: &[u8], number: u64) -> Result<(), Fault> {
        match read(form, line) {
            Line::Nothing => Ok(()),
            Line::Event(named) => self.locate(named, number),
            Line::Bad => {
                let cause = cause_in(form, number, line);
                Err(bad_event(self.alloc, number, cause))
            }
        }
    }
}
