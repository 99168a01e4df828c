// Reads the first lines of a trace block by block, up to a line that is wanted.

ghost use Rattle.std.specs.Prelude.{◌<◌, ◌≤◌, ℕ, [], IfErr, IfOk, OnOk, take, vec_len};
ghost use Rattle.lrc_races_front.specs.Front.{HasRead};
ghost use Rattle.lrc_races_text.specs.declared.asked.Sought.{Sought as AnySought};
ghost use Rattle.lrc_races_text.specs.declared.form.Form.{Form as AnyForm};
ghost use Rattle.lrc_shell_sources.specs.Known.{Held, IsAtEnd, IsReadOff};
ghost use Rattle.lrc_races_stream.specs.Reach.{GoesOn, HasCome, IsSeeking, IsStop};

use crate::answer::Stop;
use crate::teller::block_of;
use lrc_races_front::front::Front;
use lrc_races_front::keeping::Keep;
use lrc_races_text::fault::Fault;
use lrc_races_text::form::Form;
use lrc_shell_sources::blocks::Blocks;
use std::alloc::{AllocError, Global};

/// The lines that have come, and the block that is read.
#[derive(Drop)]
pub(crate) struct Seeker<K> {
    pub front: Front<K>,
    block: Vec<u8>,
    ghost room: { 0 < vec_len block },
}

impl<K: Keep + Drop> Seeker<K> {
    /// Creates the state before any byte. So many lines are wanted, at least one, and `kept` is kept of none.
    pub fn new(alloc: Global, form: Form, last: u64, kept: K) -> Result<Seeker<K>, AllocError>
        requires { 0 < last }
        ensures { IfOk result (λ seeker. (sought : AnySought) → K.has_kept sought form [] kept
            → HasRead (K.has_kept sought) form last [] seeker.front) }
    {
        let block = block_of(alloc)?;
        let front = Front::new(alloc, form, last, kept);
        Ok(Seeker { front, block })
    }

    /// Reads a trace up to the last line that is wanted, and no further. On error it still has what is kept of the lines
    /// before.
    pub fn seek<B: Blocks>(&mut self, trace: &mut B) -> Result<(), Stop>
        ensures come { OnOk result ((sought : AnySought) (form : AnyForm) (last : ℕ) (held : Held)
            → IsSeeking (K.has_kept sought) form last held (B.left trace.old) self.old.front
            → HasCome (K.has_kept sought) form last held self.new.front.kept) }
        ensures stop { IfErr result (λ stop. (sought : AnySought) (form : AnyForm) (last : ℕ) (held : Held)
            → IsSeeking (K.has_kept sought) form last held (B.left trace.old) self.old.front
            → IsStop (K.has_kept sought) form last held self.new.front.kept stop) }
    {
        for _turn in 0..u64::MAX {
            match self.turn(trace) {
                Ok(true) => return Ok(()),
                Ok(false) => {}
                Err(stop) => return Err(stop),
            }
        }
        Err(Stop::Faulted(Fault::NoMemory))
    }

    // Reads a block, and takes its lines. Returns whether the last line that is wanted has come.
    fn turn<B: Blocks>(&mut self, trace: &mut B) -> Result<bool, Stop>
        ensures goes { IfOk result (λ come. (sought : AnySought) (form : AnyForm) (last : ℕ) (held : Held)
            → IsSeeking (K.has_kept sought) form last held (B.left trace.old) self.old.front
            → GoesOn (K.has_kept sought) form last held (B.left trace.new) self.new.front come) }
        ensures stop { IfErr result (λ stop. (sought : AnySought) (form : AnyForm) (last : ℕ) (held : Held)
            → IsSeeking (K.has_kept sought) form last held (B.left trace.old) self.old.front
            → IsStop (K.has_kept sought) form last held self.new.front.kept stop) }
    {
        match trace.read(&mut self.block) {
            Ok(0) => self.end(),
            Ok(count) => self.take(count),
            Err(error) => Err(Stop::Unread(error.kind())),
        }
    }

    // Takes so many bytes of the block.
    fn take(&mut self, count: usize) -> Result<bool, Stop>
        requires { count ≤ vec_len self.old.block }
        ensures goes { IfOk result (λ come. (sought : AnySought) (form : AnyForm) (last : ℕ) (held left after : Held)
            → IsSeeking (K.has_kept sought) form last held left self.old.front
            → IsReadOff left (take count self.old.block.items) after
            → GoesOn (K.has_kept sought) form last held after self.new.front come) }
        ensures stop { IfErr result (λ stop. (sought : AnySought) (form : AnyForm) (last : ℕ) (held left after : Held)
            → IsSeeking (K.has_kept sought) form last held left self.old.front
            → IsReadOff left (take count self.old.block.items) after
            → IsStop (K.has_kept sought) form last held self.new.front.kept stop) }
    {
        match self.front.take(&self.block[..count]) {
            Ok(come) => Ok(come),
            Err(fault) => Err(Stop::Faulted(fault)),
        }
    }

    // Ends the trace.
    fn end(&mut self) -> Result<bool, Stop>
        ensures goes { IfOk result (λ come. (sought : AnySought) (form : AnyForm) (last : ℕ) (held left after : Held)
            → IsSeeking (K.has_kept sought) form last held left self.old.front
            → IsAtEnd left
            → GoesOn (K.has_kept sought) form last held after self.new.front come) }
        ensures stop { IfErr result (λ stop. (sought : AnySought) (form : AnyForm) (last : ℕ) (held left : Held)
            → IsSeeking (K.has_kept sought) form last held left self.old.front
            → IsAtEnd left
            → IsStop (K.has_kept sought) form last held self.new.front.kept stop) }
    {
        match self.front.end() {
            Ok(true) => Ok(true),
            Ok(false) => Err(Stop::Past(self.front.lines)),
            Err(fault) => Err(Stop::Faulted(fault)),
        }
    }
}
