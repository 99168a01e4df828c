// A trace as it is judged, one event after another.
ghost use Rattle.std.specs.Prelude.{◌≡◌, ◌+◌, [], true, IfErr, IfOk, OnErr, OnOk};
ghost use Rattle.lrc_races_lines.specs.Line.{saying_of};
ghost use Rattle.lrc_races_text.specs.declared.halt.Halt.TheVariants.{BadEvent, NoMemory};
ghost use Rattle.lrc_races_text.specs.declared.asked.Asked.{Asked as AnyAsked};
ghost use Rattle.lrc_races_text.specs.declared.form.Form.{Form as AnyForm};
ghost use Rattle.lrc_races_text.specs.Tables.{naming_of};
ghost use Rattle.lrc_races_text.specs.Judged.{FindsIll, FindsNone, HasHaltedOne, HasJudged, HasJudgedOne, HasToldAll, IsHaltFor, IsTelling, NeverBad};

use crate::asked::{Asked, Sought};
use crate::form::Form;
use crate::halt::Halt;
use crate::ill::ill_of;
use crate::layouts::{push_end_lines, push_pair_lines};
use crate::naming::Names;
use crate::race_detector::RaceDetector;
use lrc_races_detector::fault_finder::FaultFinder;
use lrc_races_detector::groups::Groups;
use lrc_races_lines::line::Named;
use lrc_races_trace::event::Pair;
use lrc_races_trace::fault::Fault;
use std::alloc::{AllocError, Global};

/// The state of the analysis after the events so far.
#[derive(Drop)]
pub struct Judged {
    pub names: Names,
    pub detector: RaceDetector,
    pub finder: FaultFinder,
    pub groups: Groups,
    /// How many pairs were reported.
    pub races: u64,
    /// The pairs reported for the last event.
    pub told: Vec<Pair>,
    /// The text to print next.
    pub text: Vec<u8>,
}

// Adds the lines of pairs, or puts the pairs into their groups.
fn tell(
    groups: &mut Groups,
    text: &mut Vec<u8>,
    out: &mut Vec<u8>,
    form: Form,
    asked: Asked,
    names: &Names,
    told: &[Pair],
) -> Result<(), AllocError>
    ensures ok { OnOk result (IsTelling form asked
        (naming_of names.now) told.now groups.old groups.new out.old.items out.new.items) }
    ensures err { OnErr result (out.new.items ≡ out.old.items) }
{
    if asked.group {
        groups.take(told)?;
        return Ok(());
    }
    text.clear();
    push_pair_lines(text, asked.layout, form, names, told)?;
    out.extend_from_slice(text.as_slice())?;
    Ok(())
}

// The sum of two numbers.
fn sum(one: u64, other: u64) -> Result<u64, Halt>
    ensures ok { IfOk result (λ both. both ≡ one + other) }
    ensures err { IfErr result (λ halt. halt ≡ NoMemory) }
{
    match one.checked_add(other) {
        Some(both) => Ok(both),
        None => Err(Halt::NoMemory),
    }
}

// The halt at an event that no program would give, or, if there is no memory for what is said of it, that there is none.
fn ill_event(alloc: Global, names: &Names, fault: Fault) -> Halt
    ensures { IsHaltFor (naming_of names.now) fault result }
{
    match ill_of(alloc, names, fault) {
        Ok(ill) => Halt::IllFormed(ill),
        Err(_error) => Halt::NoMemory,
    }
}

// Halts at an event that no program would give, where strictness is asked for.
fn heed(alloc: Global, asked: Asked, names: &Names, finder: &FaultFinder) -> Result<(), Halt>
    ensures permitted { OnOk result (asked.strict ≡ true → FindsNone finder.now) }
    ensures ill { IfErr result (FindsIll asked (naming_of names.now) finder.now) }
{
    if !asked.strict {
        return Ok(());
    }
    match finder.fault() {
        Some(fault) => Err(ill_event(alloc, names, fault)),
        None => Ok(()),
    }
}

impl Judged {
    /// Creates the state before any event.
    pub fn new(alloc: Global, sought: Sought) -> Judged
        ensures { (form : AnyForm) (asked : AnyAsked) → asked.sought ≡ sought
            → HasJudged form asked [] [] result }
    {
        Judged {
            names: Names::new(alloc),
            detector: RaceDetector::new(alloc, sought),
            finder: FaultFinder::new(alloc),
            groups: Groups::new(alloc),
            races: 0,
            told: Vec::new(alloc),
            text: Vec::new(alloc),
        }
    }

    /// Takes the event that a line names. It adds the lines of the races reported for the event to `out`, or puts the
    /// races into their groups. If strictness is asked for, it fails at an event that no program would give. On error
    /// `out` does not change.
    pub fn take(
        &mut self,
        form: Form,
        asked: Asked,
        named: Named<'_>,
        line: u64,
        out: &mut Vec<u8>,
    ) -> Result<(), Halt>
        ensures ok { OnOk result (HasJudgedOne form asked
            (record { line = line; saying = saying_of named.entry }) self.old out.old.items self.new
            out.new.items) }
        ensures err { OnErr result (out.new.items ≡ out.old.items) }
        ensures bad { IfErr result NeverBad }
        ensures ill { IfErr result (HasHaltedOne form asked
            (record { line = line; saying = saying_of named.entry }) self.old) }
    {
        if self.detector.position() >= u64::MAX - 1 {
            return Err(Halt::NoMemory);
        }
        let event = self.names.event(named, line)?;
        self.detector.take(event, &mut self.told)?;
        self.finder.take(event)?;
        let alloc = *self.text.allocator();
        heed(alloc, asked, &self.names, &self.finder)?;
        self.races = sum(self.races, self.told.len() as u64)?;
        tell(
            &mut self.groups,
            &mut self.text,
            out,
            form,
            asked,
            &self.names,
            self.told.as_slice(),
        )?;
        Ok(())
    }

    /// Adds what is reported at the end: the groups, what is not well formed, and the last line. Returns the program's
    /// exit status: 3 if a race was reported, else 0. On error `out` does not change.
    pub fn end(&mut self, form: Form, asked: Asked, out: &mut Vec<u8>) -> Result<u8, AllocError>
        ensures ok { IfOk result (HasToldAll form asked self.old out.old.items out.new.items) }
        ensures err { OnErr result (out.new.items ≡ out.old.items) }
    {
        let races = self.races;
        self.text.clear();
        push_end_lines(
            &mut self.text,
            asked.layout,
            form,
            &self.names,
            self.groups.list(),
            self.finder.fault(),
            races,
            self.detector.position(),
        )?;
        out.extend_from_slice(self.text.as_slice())?;
        Ok(if races == 0 { 0 } else { 3 })
    }
}
