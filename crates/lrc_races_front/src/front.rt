// The first lines of a trace as they come, block by block.
ghost use Rattle.std.specs.Prelude.{◌≡◌, ◌↔◌, ◌<◌, ◌+◌, [], false, IfErr, IfOk, IsTrue, OnOk, length};
ghost use Rattle.lrc_races_lines.specs.Line.{longest_line};
ghost use Rattle.lrc_races_text.specs.declared.fault.Fault.TheVariants.{NoMemory};
ghost use Rattle.lrc_races_front.specs.Front.{HasRead};
ghost use Rattle.lrc_races_text.specs.declared.asked.Sought.{Sought as AnySought};
ghost use Rattle.lrc_races_front.specs.Steps.{HasCompleted, HasEnded, HasGoneOn, HasGrown, HasNext, HasTakenPart, IsBadEnd, IsBadPart, IsBadRest, IsStopped, IsTooLong};

use crate::keeping::Keep;
use lrc_races_lines::cause::Cause;
use lrc_races_lines::reading::split;
use lrc_races_text::fault::Fault;
use lrc_races_text::form::Form;
use lrc_races_text::reading::{LONGEST_LINE, bad_event};
use std::alloc::Global;

/// The first lines of a trace of which some bytes have come.
#[derive(Drop)]
pub struct Front<K> {
    form: Form,
    /// How many lines are wanted.
    last: u64,
    /// How many complete lines have come.
    pub lines: u64,
    /// The bytes of the next line that have come.
    rest: Vec<u8>,
    /// What is kept of the complete lines.
    pub kept: K,
}

impl<K: Keep> Front<K> {
    /// Creates the state before any byte. So many lines are wanted, at least one, and `kept` is kept of none. It
    /// allocates nothing.
    pub fn new(alloc: Global, form: Form, last: u64, kept: K) -> Front<K>
        requires { 0 < last }
        ensures { (sought : AnySought) → K.has_kept sought form [] kept
            → HasRead (K.has_kept sought) form last [] result }
    {
        Front {
            form,
            last,
            lines: 0,
            rest: Vec::new(alloc),
            kept,
        }
    }

    // Whether the line is too long of which this part comes behind what was kept.
    fn is_too_long(&self, part: &[u8]) -> bool
        ensures { IsTrue result ↔ (longest_line < length self.now.rest.items + length part.now) }
    {
        if self.rest.len() > LONGEST_LINE {
            return true;
        }
        part.len() > LONGEST_LINE - self.rest.len()
    }

    // The number of the line that comes next.
    fn next(&self) -> Result<u64, Fault>
        ensures ok { IfOk result (HasNext self.now) }
        ensures memory { IfErr result (λ fault. fault ≡ NoMemory) }
    {
        match self.lines.checked_add(1) {
            Some(number) => Ok(number),
            None => Err(Fault::NoMemory),
        }
    }

    // Keeps what has come more of the next line.
    fn grow(&mut self, part: &[u8]) -> Result<(), Fault>
        ensures ok { OnOk result (HasGrown K.has_kept self.old part.now self.new) }
        ensures bad { IfErr result (IsTooLong K.has_kept self.old part.now self.new.kept) }
    {
        let number = self.next()?;
        if self.is_too_long(part) {
            let alloc = *self.rest.allocator();
            return Err(bad_event(alloc, number, Cause::LineTooLong));
        }
        self.rest.extend_from_slice(part)?;
        Ok(())
    }

    // Takes the next line, of which all has come.
    fn complete(&mut self) -> Result<(), Fault>
        ensures ok { OnOk result (HasCompleted K.has_kept self.old self.new) }
        ensures bad { IfErr result (IsBadRest K.has_kept self.old self.new.kept) }
    {
        let number = self.next()?;
        match self.kept.take(self.form, self.rest.as_slice(), number) {
            Ok(()) => {
                self.rest.clear();
                self.lines = number;
                Ok(())
            }
            Err(fault) => Err(fault),
        }
    }

    // Takes what the next line has up to its line feed.
    fn take_part(&mut self, part: &[u8]) -> Result<(), Fault>
        ensures ok { OnOk result (HasTakenPart K.has_kept self.old part.now self.new) }
        ensures bad { IfErr result (IsBadPart K.has_kept self.old part.now self.new.kept) }
    {
        match self.grow(part) {
            Ok(()) => self.complete(),
            Err(fault) => Err(fault),
        }
    }

    // Keeps what a block has of the next line, which goes on behind it.
    fn take_cut(&mut self, part: &[u8]) -> Result<bool, Fault>
        ensures ok { IfOk result (λ come. (come ≡ false) × HasGrown K.has_kept self.old part.now self.new) }
        ensures bad { IfErr result (IsTooLong K.has_kept self.old part.now self.new.kept) }
    {
        match self.grow(part) {
            Ok(()) => Ok(false),
            Err(fault) => Err(fault),
        }
    }

    // Whether the last line that is wanted has come.
    fn has_come(&self) -> bool
        ensures { IsTrue result ↔ (self.now.lines ≡ self.now.last) }
    {
        self.lines == self.last
    }

    // Whether nothing has come of the next line.
    fn is_between(&self) -> bool
        ensures { IsTrue result ↔ (self.now.rest.items ≡ []) }
    {
        self.rest.is_empty()
    }

    /// Takes the next block of the trace, of any size, up to the last line that is wanted. Returns whether that line has
    /// come. After a fault, or once the line has come, nothing more may be taken. After a bad line it still has what is
    /// kept of the lines before it.
    pub fn take(&mut self, block: &[u8]) -> Result<bool, Fault>
        ensures ok { IfOk result (HasGoneOn K.has_kept self.old block.now self.new) }
        ensures bad { IfErr result (IsStopped K.has_kept self.old block.now self.new.kept) }
    {
        let mut left = block;
        while let Some((part, behind)) = split(left, b'\n') {
            match self.take_part(part) {
                Ok(()) => {}
                Err(fault) => return Err(fault),
            }
            if self.has_come() {
                return Ok(true);
            }
            left = behind;
        }
        self.take_cut(left)
    }

    /// Ends the trace. It takes a last line without a line feed, and returns whether the last line that is wanted has
    /// come. After a bad line it still has what is kept of the lines before it.
    pub fn end(&mut self) -> Result<bool, Fault>
        ensures ok { IfOk result (HasEnded K.has_kept self.old self.new) }
        ensures bad { IfErr result (IsBadEnd K.has_kept self.old self.new.kept) }
    {
        if self.is_between() {
            return Ok(false);
        }
        match self.complete() {
            Ok(()) => Ok(self.has_come()),
            Err(fault) => Err(fault),
        }
    }
}
