// The line of each fault of acts, events and a run. Those of a text are played by `tests/rows`.

use crate::checks::passes;
use lrc_cli::tell;
use lrc_cli_answer::fault::Fault;
use std::alloc::Global;

const FAULTS: &[(Fault, &str)] = &[
    (Fault::Acts(12), "treadmarks: acts line 12: bad act\n"),
    (Fault::Events(7), "treadmarks: events line 7: bad event\n"),
    (Fault::Worn, "treadmarks: message numbers used up\n"),
    (Fault::TooManyStates(7), "treadmarks: more than 7 states\n"),
    (Fault::TooLong, "treadmarks: too long for a chart\n"),
    (Fault::Mismatch, "treadmarks: logs and wires differ\n"),
    (Fault::NoMemory, "treadmarks: out of memory\n"),
];

/// Whether this line is all that is written of a fault.
fn is_told(alloc: Global, fault: Fault, line: &str) -> bool {
    let mut out = Vec::new(alloc);
    let mut err = Vec::new(alloc);
    let status = tell(alloc, Err(fault), &mut out, &mut err);
    status == 1 && out.is_empty() && err.as_slice() == line.as_bytes()
}

fn first_wrong(alloc: Global) -> Option<&'static str> {
    for (fault, line) in FAULTS {
        if !is_told(alloc, *fault, line) {
            return Some(line);
        }
    }
    None
}

#[test]
fn each_fault_of_events_and_of_a_run_has_its_line(rt: HostRuntime) {
    passes(&rt, first_wrong(rt.alloc()));
}
