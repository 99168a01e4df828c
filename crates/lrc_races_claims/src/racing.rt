// Which accesses race with earlier ones.
ghost use Rattle.std.specs.Prelude.{IfOk, length};
ghost use Rattle.lrc_races_claims.specs.Racing.{AreMarked};

use lrc_races_text::asked::Sought;
use lrc_races_text::race_detector::RaceDetector;
use lrc_races_trace::event::Event;
use std::alloc::{AllocError, Global};

/// Returns a mark for each event of a trace: whether it is an access that races with an earlier one. It fails if memory
/// runs out.
pub fn marks_of(alloc: Global, sought: Sought, events: &[Event]) -> Result<Vec<bool>, AllocError>
    ensures { IfOk result (λ marks. AreMarked sought events.now (length events.now) marks.items) }
{
    let mut detector = RaceDetector::new(alloc, sought);
    let mut told = Vec::new(alloc);
    let mut marks = Vec::new(alloc);
    for event in events {
        detector.take(*event, &mut told)?;
        marks.push(!told.is_empty())?;
    }
    Ok(marks)
}
