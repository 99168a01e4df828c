// Reads a trace block by block, and writes what is told and noted of each before the next is waited for.

ghost use Rattle.std.specs.Prelude.{◌<◌, ◌≤◌, ℕ, IfOk, List, MatchOption, OnErr, OnOk, Option, take, vec_len};
ghost use Rattle.std.specs.Io.KnownBytes.{Appends};
ghost use Rattle.lrc_races_text.specs.declared.asked.Asked.{Asked as AnyAsked};
ghost use Rattle.lrc_races_text.specs.declared.form.Form.{Form as AnyForm};
ghost use Rattle.lrc_report.specs.Output.{AppendsFront};
ghost use Rattle.lrc_shell_sources.specs.Known.{Held, IsAtEnd, IsReadOff};
ghost use Rattle.lrc_races_stream.specs.Comes.{Comes, IsUnderWay};
ghost use Rattle.lrc_races_stream.specs.Heard.{Hears, IsHearing};

use crate::hearing::Hearing;
use crate::outcome::Outcome;
use lrc_races_text::asked::Asked;
use lrc_races_text::form::Form;
use lrc_races_text::halt::Halt;
use lrc_races_text::session::Session;
use lrc_report::output::{Output, put};
use lrc_shell_sources::blocks::Blocks;
use std::alloc::{AllocError, Global};
use std::io;
use std::io::Write;

// How many bytes are read at once, at most.
const BLOCK: usize = 65_536;

// What is read, told and noted, and the session between.
#[derive(Drop)]
struct Teller {
    session: Session,
    hearing: Hearing,
    block: Vec<u8>,
    told: Vec<u8>,
    ghost room: { 0 < vec_len block },
}

/// Reports the races of a trace in this form that are asked for, while it is read, and notes what is to be noted of its
/// lines.
pub fn tell_races<B: Blocks, W: Write, E: Write>(
    alloc: Global,
    form: Form,
    asked: Asked,
    trace: &mut B,
    out: &mut W,
    err: &mut E,
) -> Outcome
    ensures comes { Comes form asked (B.left trace.old) (W.contents out.old) (W.contents out.new) result }
    ensures hears { Hears form (B.left trace.old) (E.contents err.old) (E.contents err.new) result }
{
    let session = Session::new(alloc, form, asked);
    let hearing = Hearing::new(alloc, form);
    match block_of(alloc) {
        Ok(block) => {
            let told = Vec::new(alloc);
            let mut teller = Teller {
                session,
                hearing,
                block,
                told,
            };
            teller.tell(trace, out, err)
        }
        Err(_error) => Outcome::NoMemory,
    }
}

// The block that is read.
pub(crate) fn block_of(alloc: Global) -> Result<Vec<u8>, AllocError>
    ensures { IfOk result (λ block. 0 < vec_len block) }
{
    vec![in alloc; 0; BLOCK]
}

impl Teller {
    // Tells what is left of a trace.
    fn tell<B: Blocks, W: Write, E: Write>(
        &mut self,
        trace: &mut B,
        out: &mut W,
        err: &mut E,
    ) -> Outcome
        ensures comes { (form : AnyForm) (asked : AnyAsked) (held : Held) (start : Option (List ℕ))
            → IsUnderWay form asked held (B.left trace.old) start
            (W.contents out.old) self.old.session
            → Comes form asked held start (W.contents out.new) result }
        ensures hears { (form : AnyForm) (held : Held) (start : Option (List ℕ))
            → IsHearing form held (B.left trace.old) start (E.contents err.old) self.old.hearing
            → Hears form held start (E.contents err.new) result }
    {
        for _turn in 0..u64::MAX {
            if let Some(outcome) = self.turn(trace, out, err) {
                return outcome;
            }
        }
        Outcome::NoMemory
    }

    // Reads a block, and tells of the lines that it completes.
    fn turn<B: Blocks, W: Write, E: Write>(
        &mut self,
        trace: &mut B,
        out: &mut W,
        err: &mut E,
    ) -> Option<Outcome>
        ensures comes { (form : AnyForm) (asked : AnyAsked) (held : Held) (start : Option (List ℕ))
            → IsUnderWay form asked held (B.left trace.old) start
            (W.contents out.old) self.old.session
            → MatchOption result (IsUnderWay form asked held (B.left trace.new) start
            (W.contents out.new) self.new.session)
            (Comes form asked held start (W.contents out.new)) }
        ensures hears { (form : AnyForm) (held : Held) (start : Option (List ℕ))
            → IsHearing form held (B.left trace.old) start (E.contents err.old) self.old.hearing
            → MatchOption result
            (IsHearing form held (B.left trace.new) start (E.contents err.new) self.new.hearing)
            (Hears form held start (E.contents err.new)) }
    {
        match trace.read(&mut self.block) {
            Ok(0) => Some(self.finish(out, err)),
            Ok(count) => self.take(count, out, err),
            Err(error) => Some(Outcome::Unread(error.kind())),
        }
    }

    // Tells of so many bytes of the block. What is to be noted of its lines comes first.
    fn take<W: Write, E: Write>(
        &mut self,
        count: usize,
        out: &mut W,
        err: &mut E,
    ) -> Option<Outcome>
        requires { count ≤ vec_len self.old.block }
        ensures comes { (form : AnyForm) (asked : AnyAsked) (held left after : Held) (start : Option (List ℕ))
            → IsUnderWay form asked held left start (W.contents out.old) self.old.session
            → IsReadOff left (take count self.old.block.items) after
            → MatchOption result (IsUnderWay form asked held after start
            (W.contents out.new) self.new.session)
            (Comes form asked held start (W.contents out.new)) }
        ensures hears { (form : AnyForm) (held left after : Held) (start : Option (List ℕ))
            → IsHearing form held left start (E.contents err.old) self.old.hearing
            → IsReadOff left (take count self.old.block.items) after
            → MatchOption result
            (IsHearing form held after start (E.contents err.new) self.new.hearing)
            (Hears form held start (E.contents err.new)) }
    {
        self.told.clear();
        let alloc = *self.told.allocator();
        let block = &self.block[..count];
        match self.session.take(block, &mut self.told) {
            Ok(()) => {
                if !self.hearing.take(alloc, block, err) {
                    return Some(Outcome::NoMemory);
                }
                match write(&self.told, out) {
                    Ok(()) => None,
                    Err(_error) => Some(Outcome::Unwritten),
                }
            }
            Err(Halt::BadEvent(line, why)) => {
                if !self
                    .hearing
                    .take_to(alloc, block, line.saturating_sub(1), err)
                {
                    return Some(Outcome::NoMemory);
                }
                match write(&self.told, out) {
                    Ok(()) => Some(Outcome::BadEvent(line, why)),
                    Err(_error) => Some(Outcome::Unwritten),
                }
            }
            Err(Halt::IllFormed(ill)) => {
                if !self.hearing.take_to(alloc, block, ill.line, err) {
                    return Some(Outcome::NoMemory);
                }
                match write(&self.told, out) {
                    Ok(()) => Some(Outcome::IllFormed(ill)),
                    Err(_error) => Some(Outcome::Unwritten),
                }
            }
            Err(Halt::NoMemory) => Some(Outcome::NoMemory),
        }
    }

    // Tells what is to be told where the trace has ended. What is to be noted of its last line comes first.
    fn finish<W: Write, E: Write>(&mut self, out: &mut W, err: &mut E) -> Outcome
        ensures comes { (form : AnyForm) (asked : AnyAsked) (held left : Held) (start : Option (List ℕ))
            → IsUnderWay form asked held left start (W.contents out.old) self.old.session
            → IsAtEnd left
            → Comes form asked held start (W.contents out.new) result }
        ensures hears { (form : AnyForm) (held left : Held) (start : Option (List ℕ))
            → IsHearing form held left start (E.contents err.old) self.old.hearing
            → IsAtEnd left
            → Hears form held start (E.contents err.new) result }
    {
        self.told.clear();
        let alloc = *self.told.allocator();
        match self.session.finish(&mut self.told) {
            Ok(status) => {
                if !self.hearing.end(alloc, err) {
                    return Outcome::NoMemory;
                }
                match write(&self.told, out) {
                    Ok(()) => Outcome::Ended(status),
                    Err(_error) => Outcome::Unwritten,
                }
            }
            Err(Halt::BadEvent(line, why)) => {
                if !self.hearing.end_to(alloc, line.saturating_sub(1), err) {
                    return Outcome::NoMemory;
                }
                match write(&self.told, out) {
                    Ok(()) => Outcome::BadEvent(line, why),
                    Err(_error) => Outcome::Unwritten,
                }
            }
            Err(Halt::IllFormed(ill)) => {
                if !self.hearing.end_to(alloc, ill.line, err) {
                    return Outcome::NoMemory;
                }
                match write(&self.told, out) {
                    Ok(()) => Outcome::IllFormed(ill),
                    Err(_error) => Outcome::Unwritten,
                }
            }
            Err(Halt::NoMemory) => Outcome::NoMemory,
        }
    }
}

/// Writes a text, or only its beginning if a write fails.
pub(crate) fn write<W: Write>(text: &[u8], out: &mut W) -> io::Result<()>
    ensures ok { OnOk result (Appends (W.contents out.old) (W.contents out.new) text.now) }
    ensures err { OnErr result (AppendsFront (W.contents out.old) (W.contents out.new) text.now) }
{
    let mut output = Output::new(out);
    put(&mut output, text)
}
