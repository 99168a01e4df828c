// The last accesses of one variable.
ghost use Rattle.std.specs.Prelude.{◌≡◌, ◌||◌};
ghost use Rattle.lrc_races_detector.specs.Placed.{row_in, AreKept};
ghost use Rattle.lrc_races_detector.specs.Written.{any_written};

use crate::places::{Place, note_last};
use crate::variables::Last;
use lrc_races_trace::event::Placed;
use std::alloc::{AllocError, Global};

/// The last accesses of one variable.
#[derive(Drop)]
pub struct Accesses {
    /// An entry for each thread, in the order of their first accesses.
    pub lasts: Vec<Last>,
    /// Where they stand, ascending by thread. One more has only such places behind it to move, which are small.
    pub order: Vec<Place>,
    /// Whether there may be a write among them.
    pub written: bool,
    ghost all_kept: { AreKept lasts.items order.items },
    ghost all_seen: { (any_written (row_in lasts.items order.items) || written) ≡ written },
}

impl Accesses {
    ghost use Rattle.std.specs.Prelude.{[], OnOk};
    ghost use Rattle.lrc_races_detector.specs.Variables.{row_of, IsRowNoted};

    /// Returns the accesses of a variable that nobody accesses.
    pub fn new(alloc: Global) -> Accesses
        ensures { row_of result ≡ [] }
    {
        Accesses {
            lasts: Vec::new(alloc),
            order: Vec::new(alloc),
            written: false,
        }
    }

    /// Records an access. It fails if memory runs out, and then there may be a write.
    pub fn note(&mut self, placed: Placed, is_write: bool) -> Result<(), AllocError>
        ensures { OnOk result (IsRowNoted (row_of self.old) (row_of self.new) placed is_write) }
    {
        let written = self.written || is_write;
        self.written = true;
        note_last(&mut self.lasts, &mut self.order, placed, is_write)?;
        self.written = written;
        Ok(())
    }
}
