// The first lines of a trace of which, where strictness is asked for, an event that no program would give is a fault.

ghost use Rattle.std.specs.Prelude.{◌≡◌, ℕ, IfErr, IfOk, OnOk, length};
ghost use Rattle.lrc_races_text.specs.declared.asked.Sought.{Sought as AnySought};
ghost use Rattle.lrc_races_text.specs.declared.form.Form.{Form as AnyForm};
ghost use Rattle.lrc_shell_sources.specs.Known.{Held};
ghost use Rattle.lrc_races_notes.specs.Noter.{HasNoted};
ghost use Rattle.lrc_races_notes.specs.Noting.{HasBoth};
ghost use Rattle.lrc_races_stream.specs.Noted.{IsKnownAt, IsOf};
ghost use Rattle.lrc_races_stream.specs.Reach.{HasComeWell, IsHalt, IsSeeking, IsStop};
ghost use Rattle.lrc_races_stream.specs.Strict.{HasNone, IsIllFound, TellsIll};

use crate::answer::Stop;
use crate::seeker::Seeker;
use lrc_races_front::keeping::Keep;
use lrc_races_front::kept::Kept;
use lrc_races_locations::located::Located;
use lrc_races_notes::noting::Noting;
use lrc_races_scored::traced::Traced;
use lrc_races_text::fault::Fault;
use lrc_races_text::ill::{Ill, first_ill, ill_if_any};
use lrc_shell_sources::blocks::Blocks;
use std::alloc::{AllocError, Global};

/// What is kept of the lines of a trace, and tells which event of theirs is the first that no program would give.
pub(crate) trait Vet: Keep {
    /// Returns this event, if there is one. It fails if memory runs out.
    fn ill(&self, alloc: Global) -> Result<Option<Ill>, AllocError>
        ensures { IfOk result (TellsIll Self.has_kept self.now) };
}

impl Vet for Kept {
    fn ill(&self, alloc: Global) -> Result<Option<Ill>, AllocError> {
        first_ill(alloc, &self.names, &self.events)
    }
}

impl Vet for Traced {
    fn ill(&self, alloc: Global) -> Result<Option<Ill>, AllocError> {
        first_ill(alloc, &self.names, &self.events)
    }
}

impl Vet for Located {
    fn ill(&self, alloc: Global) -> Result<Option<Ill>, AllocError> {
        ill_if_any(alloc, &self.names, self.finder.fault())
    }
}

// Finds what no program would give among the lines of which this is kept, where strictness is asked for.
fn heed<K: Vet>(alloc: Global, strict: bool, kept: &K) -> Result<(), Stop>
    ensures none { OnOk result (HasNone strict K.has_kept kept.now) }
    ensures ill { IfErr result (IsIllFound strict K.has_kept kept.now) }
{
    if strict {
        match kept.ill(alloc) {
            Ok(Some(ill)) => Err(Stop::IllFormed(ill)),
            Ok(None) => Ok(()),
            Err(_error) => Err(Stop::Faulted(Fault::NoMemory)),
        }
    } else {
        Ok(())
    }
}

// Finds it where no more lines are read for this. It comes before the reason for that.
fn heed_stop<K: Vet>(alloc: Global, strict: bool, noting: &Noting<K>, stop: Stop) -> Stop
    ensures halt { (sought : AnySought) (form : AnyForm) (last : ℕ) (held : Held)
        → IsStop (HasBoth K.has_kept sought) form last held noting.now stop
        → IsHalt strict (K.has_kept sought) form last held noting.now.kept result }
    ensures known { (sought : AnySought) (form : AnyForm) (last : ℕ) (held : Held)
        → IsStop (HasBoth K.has_kept sought) form last held noting.now stop
        → IsKnownAt form held noting.now.noter result }
{
    if stop.lacks_memory() {
        return stop;
    }
    match heed(alloc, strict, &noting.kept) {
        Ok(()) => stop,
        Err(other) => other,
    }
}

/// Reads a trace up to the last line that is wanted, and no further. If strictness is asked for, none of its events may be
/// one that no program would give. On error it still has what is kept of the lines before.
pub(crate) fn seek<K: Vet + Drop, B: Blocks>(
    alloc: Global,
    strict: bool,
    seeker: &mut Seeker<Noting<K>>,
    trace: &mut B,
) -> Result<(), Stop>
    ensures come { OnOk result ((sought : AnySought) (form : AnyForm) (last : ℕ) (held : Held)
        → IsSeeking (HasBoth K.has_kept sought) form last held (B.left trace.old) seeker.old.front
        → HasComeWell strict (K.has_kept sought) form last held seeker.new.front.kept.kept) }
    ensures known { OnOk result ((sought : AnySought) (form : AnyForm) (last : ℕ) (held : Held)
        → IsSeeking (HasBoth K.has_kept sought) form last held (B.left trace.old) seeker.old.front
        → IsOf held (λ lines. length lines ≡ last) (λ lines. HasNoted form lines seeker.new.front.kept.noter)) }
    ensures halt { IfErr result (λ stop. (sought : AnySought) (form : AnyForm) (last : ℕ) (held : Held)
        → IsSeeking (HasBoth K.has_kept sought) form last held (B.left trace.old) seeker.old.front
        → IsHalt strict (K.has_kept sought) form last held seeker.new.front.kept.kept stop) }
    ensures known_halt { IfErr result (λ stop. (sought : AnySought) (form : AnyForm) (last : ℕ) (held : Held)
        → IsSeeking (HasBoth K.has_kept sought) form last held (B.left trace.old) seeker.old.front
        → IsKnownAt form held seeker.new.front.kept.noter stop) }
{
    match seeker.seek(trace) {
        Ok(()) => heed(alloc, strict, &seeker.front.kept.kept),
        Err(stop) => Err(heed_stop(alloc, strict, &seeker.front.kept, stop)),
    }
}
