// The lines of a run's turns with the states of its nodes.

ghost use Rattle.std.specs.Prelude.{◌≡◌, ◌<◌, ◌≤◌, ◌+◌, ◌++◌, ◌∷◌, [], All, Err, IfErr, IfOk, OnOk, Some, ℕ, length, map};
ghost use Rattle.lrc_labels.specs.Reading.{label_seen};
ghost use Rattle.lrc_private_names.specs.Ways.{IsOnWay};
ghost use Rattle.lrc_protocol.specs.Run.{World, event_on, played, run_of};
ghost use Rattle.lrc_replay.specs.Turns.{turn_by, turns_from};
ghost use Rattle.lrc_replay.specs.Acts.{Plan as AnyPlan};
ghost use Rattle.lrc_states.specs.declared.fault.StatesFault.TheVariants.{TooLong};
ghost use Rattle.lrc_states.specs.Players.{AddsLines, IsPlayer, IsSetting, plan_with};
ghost use Rattle.lrc_states.specs.States.{AreStates, IsUnshown, first_line, is_within, most_turns, shown_now, told_seen, turn_lines, turns_shown};
ghost use Rattle.lrc_text.specs.Parts.{whole_text};

use crate::fault::StatesFault;
use crate::player::Player;
use crate::start::events_skipped;
use crate::told::{Range, Telling, Told};
use lrc_exec::code::Code;
use lrc_labels::label::Label;
use lrc_page::Size;
use lrc_protocol::Event;
use lrc_replay::Plan;
use std::alloc::{AllocError, Global};

/// The largest number of turns that are shown.
pub const MOST_TURNS: usize = 2_000;

/// Returns the turns of a run with the states of its nodes, in parts that make the text together. Fails if more than
/// 2,000 turns would be shown, or if memory runs out.
pub fn states_parts(
    alloc: Global,
    told: &Told<'_>,
    range: Range,
    telling: Telling,
) -> Result<Vec<Vec<u8>>, StatesFault>
    requires few { told.now.nodes ≤ 16 }
    ensures states { (made : World) → run_of told.now.source.now.program told.now.nodes
        told.now.options told.now.events.now ≡ Some made
        → IfOk result (λ parts. AreStates (told_seen told.now) range telling (whole_text parts.items)) }
    ensures fault { (made : World) → run_of told.now.source.now.program told.now.nodes
        told.now.options told.now.events.now ≡ Some made
        → IfErr result (IsUnshown (told_seen told.now) range) }
{
    let source = told.source;
    let names = source.text().names_told(alloc, source.names())?;
    parts_of(
        alloc,
        told,
        range,
        telling,
        source.code(),
        source.lines(),
        &names,
        source.labels(),
    )
}

// The same, where the program's code, the lines, the names and the labels of its text are known.
fn parts_of(
    alloc: Global,
    told: &Told<'_>,
    range: Range,
    telling: Telling,
    code: &Code<'_>,
    lines: &[u32],
    names: &[&[u8]],
    labels: &[Label<'_>],
) -> Result<Vec<Vec<u8>>, StatesFault>
    requires few { told.now.nodes ≤ 16 }
    requires setting { IsSetting (told_seen told.now)
        (plan_with code.now told.now.nodes lines.now (map (λ name. name.now) names.now))
        (map label_seen labels.now) }
    ensures states { (made : World) → run_of told.now.source.now.program told.now.nodes
        told.now.options told.now.events.now ≡ Some made
        → IfOk result (λ parts. AreStates (told_seen told.now) range telling (whole_text parts.items)) }
    ensures fault { (made : World) → run_of told.now.source.now.program told.now.nodes
        told.now.options told.now.events.now ≡ Some made
        → IfErr result (IsUnshown (told_seen told.now) range) }
{
    let skipped = events_skipped(alloc, code, told, range.from)?;
    let plan = Plan {
        code,
        nodes: told.nodes,
        lines,
        names,
    };
    let mut player = Player::start(alloc, plan, &told.options)?;
    player.pass_all(&told.events[..skipped])?;
    let size = told.options.size;
    player.parts(telling, size, labels, &told.events[skipped..], range.to)
}

impl Player<'_> {
    // Plays events, of whose turns nothing is told.
    fn pass_all(&mut self, events: &[Event]) -> Result<(), AllocError>
        requires { All IsOnWay self.old.course.ways.items }
        ensures on { All IsOnWay self.new.course.ways.items }
        ensures player { (plan : AnyPlan) (world end : World) (turns : ℕ)
            → IsPlayer plan world turns self.old → played world events.now ≡ Some end
            → OnOk result (IsPlayer plan end
            (turns + length (turns_from (Some world) events.now)) self.new) }
    {
        for event in events {
            self.pass(*event)?;
        }
        Ok(())
    }

    // How all stands, and the turns of events up to the one that makes the act at a position, each line a part of its own.
    fn parts(
        &mut self,
        telling: Telling,
        size: Size,
        labels: &[Label<'_>],
        events: &[Event],
        to: Option<u64>,
    ) -> Result<Vec<Vec<u8>>, StatesFault>
        requires { All IsOnWay self.old.course.ways.items }
        ensures told { (plan : AnyPlan) (world end : World) (turns : ℕ)
            → IsPlayer plan world turns self.old → played world events.now ≡ Some end
            → IfOk result (λ parts. (whole_text parts.items
            ≡ first_line plan telling size (map label_seen labels.now) world
            ++ turn_lines plan telling (turns_shown to turns world events.now))
            × (length (turns_shown to turns world events.now) ≤ most_turns)) }
        ensures fault { (plan : AnyPlan) (world end : World) (turns : ℕ)
            → IsPlayer plan world turns self.old → played world events.now ≡ Some end
            → result ≡ Err TooLong → most_turns < length (turns_shown to turns world events.now) }
    {
        let first = self.first_line(telling, size, labels)?;
        let mut parts = Vec::new(self.alloc);
        parts.push(first)?;
        self.tell_all(telling, events, to, &mut parts)?;
        Ok(parts)
    }

    // Plays events, and tells their turns, up to the turn that makes the act at a position.
    fn tell_all(
        &mut self,
        telling: Telling,
        events: &[Event],
        to: Option<u64>,
        parts: &mut Vec<Vec<u8>>,
    ) -> Result<(), StatesFault>
        requires on { All IsOnWay self.old.course.ways.items }
        requires first { length parts.old.items ≡ 1 }
        ensures told { (plan : AnyPlan) (world end : World) (turns : ℕ)
            → IsPlayer plan world turns self.old → played world events.now ≡ Some end
            → OnOk result ((whole_text parts.new.items
            ≡ whole_text parts.old.items
            ++ turn_lines plan telling (turns_shown to turns world events.now))
            × (length (turns_shown to turns world events.now) ≤ most_turns)) }
        ensures fault { (plan : AnyPlan) (world end : World) (turns : ℕ)
            → IsPlayer plan world turns self.old → played world events.now ≡ Some end
            → result ≡ Err TooLong → most_turns < length (turns_shown to turns world events.now) }
    {
        for event in events {
            self.tell_within(telling, *event, to, parts)?;
        }
        Ok(())
    }

    // Plays an event, and tells its turn, if it is no later than that of the act at a position.
    fn tell_within(
        &mut self,
        telling: Telling,
        event: Event,
        to: Option<u64>,
        parts: &mut Vec<Vec<u8>>,
    ) -> Result<(), StatesFault>
        requires on { All IsOnWay self.old.course.ways.items }
        requires few { length parts.old.items ≤ most_turns + 1 }
        ensures on { All IsOnWay self.new.course.ways.items }
        ensures player { (plan : AnyPlan) (world next : World) (turns : ℕ)
            → IsPlayer plan world turns self.old → event_on world event ≡ Some next
            → OnOk result (IsPlayer plan next (turns + length (turn_by world event)) self.new) }
        ensures told { (plan : AnyPlan) (world next : World) (turns : ℕ)
            → IsPlayer plan world turns self.old → event_on world event ≡ Some next
            → OnOk result (AddsLines plan telling
            (shown_now to turns (turn_by world event)) parts.old.items parts.new.items) }
        ensures few { OnOk result (length parts.new.items ≤ most_turns + 1) }
        ensures fault { (plan : AnyPlan) (world next : World) (turns : ℕ)
            → IsPlayer plan world turns self.old → event_on world event ≡ Some next
            → result ≡ Err TooLong → (most_turns < length parts.old.items)
            × (length (shown_now to turns (turn_by world event)) ≡ 1) }
    {
        if !is_within(to, self.course.acts()) {
            self.pass(event)?;
            return Ok(());
        }
        match self.tell(telling, event)? {
            Some(line) => keep(parts, line),
            None => Ok(()),
        }
    }
}

// Whether a turn that begins behind so many acts is no later than that of the act at a position.
fn is_within(to: Option<u64>, acts: u64) -> bool
    ensures { result ≡ is_within to acts }
{
    match to {
        Some(position) => acts <= position,
        None => true,
    }
}

// Keeps the line of a turn, unless there are as many as may be.
fn keep(parts: &mut Vec<Vec<u8>>, line: Vec<u8>) -> Result<(), StatesFault>
    ensures kept { OnOk result (parts.new.items ≡ parts.old.items ++ line ∷ []) }
    ensures few { OnOk result (length parts.old.items ≤ most_turns) }
    ensures fault { result ≡ Err TooLong → most_turns < length parts.old.items }
{
    if parts.len() > MOST_TURNS {
        return Err(StatesFault::TooLong);
    }
    parts.push(line)?;
    Ok(())
}
