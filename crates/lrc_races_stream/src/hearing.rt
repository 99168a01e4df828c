// What is to be noted of a trace that is told as it is read, block by block.

ghost use Rattle.std.specs.Prelude.{◌≡◌, ◌+◌, ℕ, IfOk, List, Option};
ghost use Rattle.std.specs.Bool.{OnFalse, OnTrue};
ghost use Rattle.lrc_races_text.specs.declared.form.Form.{Form as AnyForm};
ghost use Rattle.lrc_races_notes.specs.Noter.{HasNoted, more_notes, notes_of};
ghost use Rattle.lrc_shell_sources.specs.Known.{Held, IsAtEnd, IsReadOff};
ghost use Rattle.lrc_races_stream.specs.Heard.{HasTold, HearsAll, HearsTo, IsHearing, IsWritten, KnowsTo};
ghost use Rattle.lrc_races_stream.specs.Reach.{IsSeeking, most_lines};

use lrc_races_front::front::Front;
use lrc_races_notes::noter::Noter;
use lrc_races_notes::text::push_more;
use lrc_races_text::fault::Fault;
use lrc_races_text::form::Form;
use lrc_shell_sources::refusal::tell_line;
use std::alloc::{AllocError, Global};
use std::io::Write;

/// The lines that have come, and what is noted of them.
#[derive(Drop)]
pub(crate) struct Hearing {
    front: Front<Noter>,
    /// What was to be noted when something was told last.
    told: Noter,
}

fn more_notes(alloc: Global, told: Noter, noter: Noter) -> Result<Vec<u8>, AllocError>
    ensures { IfOk result (λ text. text.items ≡ more_notes told noter) }
{
    let mut text = Vec::new(alloc);
    push_more(&mut text, told, noter)?;
    Ok(text)
}

impl Hearing {
    /// Creates the state before any byte.
    pub fn new(alloc: Global, form: Form) -> Hearing
        ensures { (held : Held) (start : Option (List ℕ)) → IsHearing form held held start start result }
    {
        Hearing {
            front: Front::new(alloc, form, u64::MAX, Noter::new()),
            told: Noter::new(),
        }
    }

    // Tells what is to be noted, and was not. If there is no memory for that, it tells nothing, and returns so.
    fn tell<E: Write>(&mut self, alloc: Global, noter: Noter, err: &mut E) -> bool
        ensures { HasTold noter self.old self.new (E.contents err.old) (E.contents err.new) result }
    {
        if !noter.is_more(self.told) {
            return false;
        }
        match more_notes(alloc, self.told, noter) {
            Ok(text) => {
                tell_line(&text, err);
                self.told = noter;
                true
            }
            Err(_error) => false,
        }
    }

    // Tells it of so many first lines.
    fn tell_to<E: Write>(&mut self, alloc: Global, count: u64, err: &mut E) -> bool
        ensures heard { OnTrue result ((form : AnyForm) (held : Held) (start : Option (List ℕ))
            → KnowsTo form held count self.old.front.kept
            → IsWritten start (E.contents err.old) (notes_of self.old.told)
            → HearsTo form held start (E.contents err.new) count) }
        ensures untold { OnFalse result (E.contents err.new ≡ E.contents err.old) }
    {
        let noter = self.front.kept.up_to(count);
        self.tell(alloc, noter, err)
    }

    /// Takes a block behind which more may come, and tells what is to be noted of its lines. Returns whether there was
    /// memory for that.
    pub fn take<E: Write>(&mut self, alloc: Global, block: &[u8], err: &mut E) -> bool
        ensures heard { OnTrue result ((form : AnyForm) (held left after : Held) (start : Option (List ℕ))
            → IsHearing form held left start (E.contents err.old) self.old
            → IsReadOff left block.now after
            → IsHearing form held after start (E.contents err.new) self.new) }
        ensures untold { OnFalse result (E.contents err.new ≡ E.contents err.old) }
    {
        let noter = match self.front.take(block) {
            Ok(false) => self.front.kept,
            _ => return false,
        };
        self.tell(alloc, noter, err)
    }

    // Takes a block, and returns whether so many lines are known then.
    fn knows(&mut self, block: &[u8], count: u64) -> bool
        ensures told { self.new.told ≡ self.old.told }
        ensures count { OnTrue result ((form : AnyForm) (held left after : Held)
            → IsSeeking HasNoted form most_lines held left self.old.front
            → IsReadOff left block.now after
            → KnowsTo form held count self.new.front.kept) }
    {
        match self.front.take(block) {
            Ok(false) => count <= self.front.lines,
            Err(Fault::BadEvent(line, _why)) => count < line,
            _ => false,
        }
    }

    /// Takes a block in which the trace is read no further than so many lines, and tells what is to be noted of them.
    /// Returns whether there was memory for that.
    pub fn take_to<E: Write>(
        &mut self,
        alloc: Global,
        block: &[u8],
        count: u64,
        err: &mut E,
    ) -> bool
        ensures heard { OnTrue result ((form : AnyForm) (held left after : Held) (start : Option (List ℕ))
            → IsHearing form held left start (E.contents err.old) self.old
            → IsReadOff left block.now after
            → HearsTo form held start (E.contents err.new) count) }
        ensures untold { OnFalse result (E.contents err.new ≡ E.contents err.old) }
    {
        if self.knows(block, count) {
            return self.tell_to(alloc, count, err);
        }
        false
    }

    /// Ends the trace, and tells what is to be noted of its last line. Returns whether there was memory for that.
    pub fn end<E: Write>(&mut self, alloc: Global, err: &mut E) -> bool
        ensures heard { OnTrue result ((form : AnyForm) (held left : Held) (start : Option (List ℕ))
            → IsHearing form held left start (E.contents err.old) self.old
            → IsAtEnd left
            → HearsAll form held start (E.contents err.new)) }
        ensures untold { OnFalse result (E.contents err.new ≡ E.contents err.old) }
    {
        let noter = match self.front.end() {
            Ok(false) => self.front.kept,
            _ => return false,
        };
        self.tell(alloc, noter, err)
    }

    // Ends the trace, and returns whether so many lines are known then.
    fn knows_at_end(&mut self, count: u64) -> bool
        ensures told { self.new.told ≡ self.old.told }
        ensures count { OnTrue result ((form : AnyForm) (held left : Held)
            → IsSeeking HasNoted form most_lines held left self.old.front
            → IsAtEnd left
            → KnowsTo form held count self.new.front.kept) }
    {
        match self.front.end() {
            Ok(false) => count <= self.front.lines,
            Err(Fault::BadEvent(line, _why)) => count < line,
            _ => false,
        }
    }

    /// Ends the trace, which is read no further than so many lines, and tells what is to be noted of them. Returns whether
    /// there was memory for that.
    pub fn end_to<E: Write>(&mut self, alloc: Global, count: u64, err: &mut E) -> bool
        ensures heard { OnTrue result ((form : AnyForm) (held left : Held) (start : Option (List ℕ))
            → IsHearing form held left start (E.contents err.old) self.old
            → IsAtEnd left
            → HearsTo form held start (E.contents err.new) count) }
        ensures untold { OnFalse result (E.contents err.new ≡ E.contents err.old) }
    {
        if self.knows_at_end(count) {
            return self.tell_to(alloc, count, err);
        }
        false
    }
}
