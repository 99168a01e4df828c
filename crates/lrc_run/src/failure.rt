// What is answered of a run in which a node wore out.

ghost use Rattle.std.specs.Prelude.{◌≡◌, ◌≤◌, ◌<◌, ◌^◌, Err, IfOk, MatchOption, None, OnOk, Some, count_by, length};
ghost use Rattle.lrc_protocol.specs.Run.{turns_of_logs};
ghost use Rattle.lrc_envelope.specs.declared.picker.Picker.{Picker as AnyPicker};
ghost use Rattle.lrc_log.specs.Input.{seen_input};
ghost use Rattle.lrc_node.specs.Options.{options_of};
ghost use Rattle.lrc_threads.specs.Threads.{IsFirstFailure};
ghost use Rattle.lrc_threads.specs.declared.stop.Stop.TheVariants as stops;
ghost use Rattle.lrc_weave.specs.declared.fault.WeaveFault.TheVariants as weaving;
ghost use Rattle.lrc_weave.specs.Logs.{AreLogs};
ghost use Rattle.lrc_world.specs.Report.{IsWornBy};
ghost use Rattle.lrc_run.specs.Halts.{AreEventsOf, AreUnmatched, IsHalt, IsLeft, IsPlayedOut, IsUntoldWearing, IsWearing, logs_left};
ghost use Rattle.lrc_run.specs.Unfinished.{input_of, is_take, next_taken, put_at, unfinished};

use crate::halt::{Halt, Left, WornOut};
use crate::sent::are_takes_sent;
use bytes::Bytes;
use lrc_log::{Entry, Input};
use lrc_post::{Mailbox, Wire};
use lrc_program::Program;
use lrc_protocol::Event;
use lrc_setting::setting::Setting;
use lrc_threads::{Failure, Stop};
use lrc_weave::{WeaveFault, events_of, events_with};
use lrc_wire::{WireFault, decode};
use lrc_world::keep::Keep;
use lrc_world::report::TurnFault;
use lrc_world::run::{Order, run_in};
use std::alloc::{AllocError, Global};

/// Returns why a run with this first failure has no report.
pub(crate) fn halt_at(
    alloc: Global,
    program: &Program,
    setting: &Setting,
    left: Left,
    failure: Failure,
) -> Halt
    requires turns { AreLogs program.now setting.now.nodes.count (options_of setting.now)
        (logs_left left) }
    requires first { IsFirstFailure left.stops.items failure }
    ensures { (picker : AnyPicker) → IsLeft program.now setting.now.nodes.count
        (options_of setting.now) picker left
        → IsHalt program.now setting.now.nodes.count (options_of setting.now) picker result }
{
    match failure.stop {
        Stop::Worn => worn_out(alloc, program, setting, left, failure.node),
        // No thread fails because the post is closed.
        Stop::Closed | Stop::NoMemory => Halt::Refused(left),
    }
}

// The same, where this node wore out. All turns are made once more as one run, with what wore it out behind them. That run wears out too,
// since the nodes made these turns; and where it does not, what they left does not tell of one run.
fn worn_out(alloc: Global, program: &Program, setting: &Setting, left: Left, node: usize) -> Halt
    requires turns { AreLogs program.now setting.now.nodes.count (options_of setting.now)
        (logs_left left) }
    requires first { IsFirstFailure left.stops.items (record { node = node; stop = stops.Worn }) }
    ensures { (picker : AnyPicker) → IsLeft program.now setting.now.nodes.count
        (options_of setting.now) picker left
        → IsHalt program.now setting.now.nodes.count (options_of setting.now) picker result }
{
    match wearing(
        alloc,
        program,
        setting,
        left.logs.as_slice(),
        left.wires.mailboxes(),
        node,
    ) {
        Ok(events) => Halt::Worn(WornOut { left, node, events }),
        Err(WeaveFault::Mismatch) => Halt::Mismatch(left),
        Err(WeaveFault::NoMemory) => Halt::NoMemory,
    }
}

// The events at which a node wore out that left these turns. `Mismatch` only where a message was taken that none of the turns sent, or
// they tell of no such events.
fn wearing(
    alloc: Global,
    program: &Program,
    setting: &Setting,
    logs: &[Vec<Entry>],
    wires: &[Mailbox],
    node: usize,
) -> Result<Vec<Event>, WeaveFault>
    requires turns { AreLogs program.now setting.now.nodes.count (options_of setting.now)
        (turns_of_logs logs.now) }
    ensures worn { IfOk result (λ events. IsWearing program.now setting.now.nodes.count
        (options_of setting.now)
        (turns_of_logs logs.now) wires.now node events.items) }
    ensures mismatch { result ≡ Err weaving.Mismatch
        → IsUntoldWearing program.now setting.now.nodes.count (options_of setting.now)
        (turns_of_logs logs.now) wires.now node }
{
    if !are_takes_sent(alloc, logs)? {
        return Err(WeaveFault::Mismatch);
    }
    let events = events_until(alloc, logs, wires, node)?;
    wears_out(alloc, program, setting, events.as_slice())?;
    Ok(events)
}

// Whether a run of these events wears out: an error where it does not.
fn wears_out(
    alloc: Global,
    program: &Program,
    setting: &Setting,
    events: &[Event],
) -> Result<(), WeaveFault>
    ensures worn { OnOk result (IsWornBy program.now setting.now.nodes.count
        (options_of setting.now) events.now) }
    ensures few { length events.now < 2 ^ 64 }
    ensures mismatch { result ≡ Err weaving.Mismatch
        → IsPlayedOut program.now setting.now.nodes.count (options_of setting.now) events.now }
{
    // For the proof: there are fewer than 2^64.
    let _count = count_of(events);
    match run_in(alloc, program, setting, Order::Events(events), Keep::Newest) {
        Err(TurnFault::Worn) => Ok(()),
        // The nodes made these turns on their threads, so this does not come.
        Ok(_) => Err(WeaveFault::Mismatch),
        Err(TurnFault::NoMemory) => Err(WeaveFault::NoMemory),
    }
}

// How many events there are. As of anything in memory, there are fewer than 2^64.
fn count_of(events: &[Event]) -> usize
    ensures count { result ≡ length events.now }
    ensures few { length events.now < 2 ^ 64 }
{
    events.len()
}

// The events that make all turns, and behind them the one of the turn that the node did not finish.
fn events_until(
    alloc: Global,
    logs: &[Vec<Entry>],
    wires: &[Mailbox],
    node: usize,
) -> Result<Vec<Event>, WeaveFault>
    requires few { length logs.now ≤ 16 }
    ensures events { IfOk result (λ events. AreEventsOf (turns_of_logs logs.now) node
        (unfinished (turns_of_logs logs.now) wires.now node) events.items) }
    ensures mismatch { result ≡ Err weaving.Mismatch
        → AreUnmatched (turns_of_logs logs.now)
        (unfinished (turns_of_logs logs.now) wires.now node) }
{
    let Some(mailbox) = wires.get(node) else {
        return events_of(alloc, logs);
    };
    let Some(log) = logs.get(node) else {
        return events_of(alloc, logs);
    };
    let input = input_behind(alloc, log.as_slice(), mailbox.history())?;
    events_with(alloc, logs, node as u8, &input)
}

// The input of that turn: the next message that the node took, or else it went on by itself.
fn input_behind(alloc: Global, log: &[Entry], history: &[Wire]) -> Result<Input, AllocError>
    ensures { IfOk result (λ input. seen_input input ≡ input_of (next_taken log.now history.now)) }
{
    let Some(bytes) = next_taken(log, history) else {
        return Ok(Input::Run);
    };
    match decode(alloc, bytes) {
        Ok(envelope) => Ok(Input::Taken(Box::new(alloc, envelope)?)),
        Err(WireFault::NoMemory) => Err(AllocError),
        Err(_fault) => Ok(Input::Run),
    }
}

// The bytes of the first message that was taken according to a mailbox and not according to its owner's log.
fn next_taken<'h>(log: &[Entry], history: &'h [Wire]) -> Option<&'h Bytes>
    ensures { MatchOption result (next_taken log.now history.now ≡ None)
        (λ bytes. next_taken log.now history.now ≡ Some bytes.now) }
{
    let mut left = takes_of(log);
    for wire in history {
        let Wire::Took { place, .. } = wire else {
            continue;
        };
        if left == 0 {
            return bytes_at(history, *place);
        }
        left -= 1;
    }
    None
}

// How many messages a log takes.
fn takes_of(log: &[Entry]) -> usize
    ensures { result ≡ count_by is_take log.now }
{
    let mut count = 0;
    for entry in log {
        if is_take(entry) {
            count += 1;
        }
    }
    count
}

// Whether a message was taken in a turn.
#[tactic(auto, unfolding(crate::specs::Unfinished::is_take))]
fn is_take(entry: &Entry) -> bool
    ensures { result ≡ is_take entry.now }
{
    match entry.input {
        Input::Run => false,
        Input::Taken(_) => true,
    }
}

// The bytes of what was put at a place of a history.
fn bytes_at(history: &[Wire], place: usize) -> Option<&Bytes>
    ensures { MatchOption result (put_at history.now place ≡ None)
        (λ bytes. put_at history.now place ≡ Some bytes.now) }
{
    match history.get(place) {
        Some(Wire::Put { bytes, .. }) => Some(bytes),
        Some(Wire::Took { .. }) | None => None,
    }
}
