// A trace as it comes, block by block.
ghost use Rattle.std.specs.Prelude.{◌≡◌, ◌↔◌, ◌<◌, ◌+◌, [], IfErr, IfOk, IsTrue, OnErr, OnOk, length};
ghost use Rattle.lrc_races_lines.specs.Line.{longest_line};
ghost use Rattle.lrc_races_text.specs.declared.halt.Halt.TheVariants.{NoMemory};
ghost use Rattle.lrc_races_text.specs.Session.{HasTakenLine, HasCompleted, IsBadLine, HasKept, IsTooLong};
ghost use Rattle.lrc_races_text.specs.Session.{HasRead, HasGoneOn, IsStoppedAt, HasEnded, HasFailed, HaltsLine, IsIllLine, IsIllRest, IsNext, NeverIll};

use crate::asked::Asked;
use crate::form::Form;
use crate::halt::{Halt, halt_of};
use crate::judged::Judged;
use crate::reading::{LONGEST_LINE, bad_event, cause_in, read};
use lrc_races_lines::cause::Cause;
use lrc_races_lines::line::Line;
use lrc_races_lines::reading::split;
use std::alloc::Global;

/// The analysis of a trace of which some bytes have come.
#[derive(Drop)]
pub struct Session {
    form: Form,
    asked: Asked,
    judged: Judged,
    /// How many complete lines have come.
    lines: u64,
    /// The bytes of the next line that have come.
    rest: Vec<u8>,
}

// Takes a line with its number, and adds what is told of it.
fn take_line(
    judged: &mut Judged,
    form: Form,
    asked: Asked,
    line: &[u8],
    number: u64,
    out: &mut Vec<u8>,
) -> Result<(), Halt>
    ensures ok { OnOk result (HasTakenLine form asked line.now number judged.old out.old.items
        judged.new out.new.items) }
    ensures kept { OnErr result (out.new.items ≡ out.old.items) }
    ensures bad { IfErr result (HaltsLine form line.now number) }
    ensures ill { IfErr result (IsIllLine form asked line.now number judged.old) }
{
    match read(form, line) {
        Line::Nothing => Ok(()),
        Line::Event(named) => judged.take(form, asked, named, number, out),
        Line::Bad => {
            let alloc = *judged.text.allocator();
            Err(halt_of(bad_event(alloc, number, cause_in(form, number, line))))
        }
    }
}

impl Session {
    /// Creates a session before any byte. It allocates nothing.
    pub fn new(alloc: Global, form: Form, asked: Asked) -> Session
        ensures { HasRead form asked [] [] result }
    {
        Session {
            form,
            asked,
            judged: Judged::new(alloc, asked.sought),
            lines: 0,
            rest: Vec::new(alloc),
        }
    }

    // The number of the line that comes next.
    fn next(&self) -> Result<u64, Halt>
        ensures ok { IfOk result (IsNext self.now) }
        ensures memory { IfErr result (λ halt. halt ≡ NoMemory) }
    {
        match self.lines.checked_add(1) {
            Some(number) => Ok(number),
            None => Err(Halt::NoMemory),
        }
    }

    // Whether the line is too long of which this part comes behind what was kept.
    fn is_too_long(&self, part: &[u8]) -> bool
        ensures { IsTrue result ↔ (longest_line < length self.now.rest.items + length part.now) }
    {
        if self.rest.len() > LONGEST_LINE {
            return true;
        }
        part.len() > LONGEST_LINE - self.rest.len()
    }

    // Keeps what has come of a line that is cut.
    fn keep(&mut self, part: &[u8]) -> Result<(), Halt>
        ensures ok { OnOk result (HasKept self.old part.now self.new) }
        ensures bad { IfErr result (IsTooLong self.old part.now) }
        ensures ill { IfErr result NeverIll }
    {
        let number = self.next()?;
        if self.is_too_long(part) {
            let alloc = *self.rest.allocator();
            return Err(halt_of(bad_event(alloc, number, Cause::LineTooLong)));
        }
        self.rest.extend_from_slice(part)?;
        Ok(())
    }

    // Takes the next line, of which all has come.
    fn take_rest(&mut self, out: &mut Vec<u8>) -> Result<(), Halt>
        ensures ok { OnOk result (HasCompleted self.old [] out.old.items out.new.items self.new) }
        ensures kept { OnErr result (out.new.items ≡ out.old.items) }
        ensures bad { IfErr result (IsBadLine self.old []) }
        ensures ill { IfErr result (IsIllRest self.old []) }
    {
        let number = self.next()?;
        let line = self.rest.as_slice();
        take_line(&mut self.judged, self.form, self.asked, line, number, out)?;
        self.rest.clear();
        self.lines = number;
        Ok(())
    }

    // Takes the next line, which is this one.
    fn take_whole(&mut self, line: &[u8], out: &mut Vec<u8>) -> Result<(), Halt>
        requires { self.old.rest.items ≡ [] }
        ensures ok { OnOk result (HasCompleted self.old line.now out.old.items out.new.items
            self.new) }
        ensures kept { OnErr result (out.new.items ≡ out.old.items) }
        ensures bad { IfErr result (IsBadLine self.old line.now) }
        ensures ill { IfErr result (IsIllRest self.old line.now) }
    {
        let number = self.next()?;
        take_line(&mut self.judged, self.form, self.asked, line, number, out)?;
        self.lines = number;
        Ok(())
    }

    // Takes what the next line has up to its line feed.
    fn complete(&mut self, part: &[u8], out: &mut Vec<u8>) -> Result<(), Halt>
        ensures ok { OnOk result (HasCompleted self.old part.now out.old.items out.new.items
            self.new) }
        ensures kept { OnErr result (out.new.items ≡ out.old.items) }
        ensures bad { IfErr result (IsBadLine self.old part.now) }
        ensures ill { IfErr result (IsIllRest self.old part.now) }
    {
        if self.rest.is_empty() {
            return self.take_whole(part, out);
        }
        match self.keep(part) {
            Ok(()) => self.take_rest(out),
            Err(halt) => Err(halt),
        }
    }

    /// Takes the next block of the trace, of any size, and adds to `out` what is reported of the lines that it
    /// completes. After a halt the session is of no more use; `out` then holds the report of the lines before the one
    /// at which it halts.
    pub fn take(&mut self, block: &[u8], out: &mut Vec<u8>) -> Result<(), Halt>
        ensures ok { OnOk result (HasGoneOn self.old block.now out.old.items out.new.items
            self.new) }
        ensures bad { IfErr result (IsStoppedAt self.old block.now out.old.items out.new.items) }
    {
        let mut left = block;
        while let Some((part, behind)) = split(left, b'\n') {
            match self.complete(part, out) {
                Ok(()) => left = behind,
                Err(halt) => return Err(halt),
            }
        }
        self.keep(left)
    }

    /// Ends the trace. It adds the report of a last line without a line feed, the groups, what is not well formed, and
    /// the last line. Returns the exit status: 3 if a race was reported, else 0. It must be called only once.
    pub fn finish(&mut self, out: &mut Vec<u8>) -> Result<u8, Halt>
        ensures ok { IfOk result (HasEnded self.old out.old.items out.new.items) }
        ensures bad { IfErr result (HasFailed self.old out.old.items out.new.items) }
    {
        match self.take_rest(out) {
            Ok(()) => {}
            Err(halt) => return Err(halt),
        }
        match self.judged.end(self.form, self.asked, out) {
            Ok(status) => Ok(status),
            Err(_) => Err(Halt::NoMemory),
        }
    }
}
