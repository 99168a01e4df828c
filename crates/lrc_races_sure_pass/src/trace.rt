// Whole traces.
ghost use Rattle.std.specs.Prelude.{◌≡◌, ◌+◌, ◌<◌, ◌^◌, [], IfOk, OnOk};
ghost use Rattle.lrc_races_sure.specs.Sure.{AreSureTold};
ghost use Rattle.lrc_races_sure_pass.specs.Detecting.{HasTaken};

use crate::detector::SureDetector;
use lrc_races_trace::event::{Event, Pair};
use std::alloc::{AllocError, Global};

// Takes all events, and collects what is told of each.
fn take_all(
    detector: &mut SureDetector,
    events: &[Event],
    told: &mut Vec<Pair>,
    all: &mut Vec<Pair>,
) -> Result<(), AllocError>
    requires fresh { HasTaken events.now 0 detector.old }
    requires none { all.old.items ≡ [] }
    ensures { OnOk result (AreSureTold events.now all.new.items) }
{
    for event in events {
        detector.take(*event, told)?;
        all.extend_from_slice(told.as_slice())?;
    }
    Ok(())
}

/// Returns the pairs that are reported of a trace as sure, in order. It fails if memory runs out.
pub fn sure_told_of(alloc: Global, events: &[Event]) -> Result<Vec<Pair>, AllocError>
    ensures { IfOk result (λ told. AreSureTold events.now told.items) }
{
    let mut detector = SureDetector::new(alloc);
    let mut told = Vec::new(alloc);
    let mut all = Vec::new(alloc);
    take_all(&mut detector, events, &mut told, &mut all)?;
    Ok(all)
}
