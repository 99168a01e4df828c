// Whole traces.
ghost use Rattle.std.specs.Prelude.{◌≡◌, ◌+◌, ◌<◌, ◌^◌, [], IfOk, OnOk};
ghost use Rattle.lrc_races_trace.specs.Races.{AreTold};
ghost use Rattle.lrc_races_detector.specs.Detecting.{HasTaken};

use crate::detector::Detector;
use lrc_races_trace::event::{Event, Pair};
use std::alloc::{AllocError, Global};

// Takes all events, and collects what is told of each.
fn take_all(
    detector: &mut Detector,
    events: &[Event],
    told: &mut Vec<Pair>,
    all: &mut Vec<Pair>,
) -> Result<(), AllocError>
    requires fresh { HasTaken events.now 0 detector.old }
    requires none { all.old.items ≡ [] }
    ensures { OnOk result (AreTold events.now all.new.items) }
{
    for event in events {
        detector.take(*event, told)?;
        all.extend_from_slice(told.as_slice())?;
    }
    Ok(())
}

/// Returns the pairs that are reported of a trace, in order. It fails if memory runs out.
pub fn told_of(alloc: Global, events: &[Event]) -> Result<Vec<Pair>, AllocError>
    ensures { IfOk result (λ told. AreTold events.now told.items) }
{
    let mut detector = Detector::new(alloc);
    let mut told = Vec::new(alloc);
    let mut all = Vec::new(alloc);
    take_all(&mut detector, events, &mut told, &mut all)?;
    Ok(all)
}
