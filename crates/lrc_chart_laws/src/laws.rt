// What holds of each chart of a run. Each function is a theorem: its body is empty, and its clauses are the law.

ghost use Rattle.std.specs.Prelude.{◌≡◌, ◌↔◌, ℕ, Contains, List, Some, map, slice_get};
ghost use Rattle.lrc_chart_invalid.specs.Invalidated.{invalidated_at};
ghost use Rattle.lrc_chart_laws.specs.Told.{BecomesInvalid, nodes_of, step_made, step_told};
ghost use Rattle.lrc_program.specs.declared.Program.{Program};
ghost use Rattle.lrc_protocol.specs.declared.event.Event.{Event};
ghost use Rattle.lrc_protocol.specs.Node.{OptionsRecord};
ghost use Rattle.lrc_protocol.specs.Pages.{copy_at};
ghost use Rattle.lrc_protocol.specs.Run.{Logged, World, run_of};
ghost use Rattle.lrc_replay.specs.Turns.{Turn, turns_of};
ghost use Rattle.lrc_turns_text.specs.Turns.{turns_told};
ghost use Rattle.lrc_world.specs.Turned.{turned_of};

/// The turns that the logs of a run tell, in the order in which its nodes made them, are those that its events make: at
/// each position the same node makes its turn, by the same input, with the same act and messages.
pub fn turns_told_are_those_made()
    ensures { (program : Program) (nodes : ℕ) (options : OptionsRecord) (events : List Event)
        (end : World) → run_of program nodes options events ≡ Some end
        → map step_told (turns_told (map (λ l. l.log) end.nodes)
        (nodes_of (turned_of program nodes options events)))
        ≡ map step_made (turns_of program nodes options events) }
{}

/// The pages that become invalid at a turn are exactly those whose copies at its node were valid or written before it and
/// are invalid after it.
pub fn pages_that_become_invalid_are_exact()
    ensures { (turn : Turn) (l : Logged) (page : ℕ)
        → slice_get turn.before.nodes turn.node ≡ Some l
        → (Contains (invalidated_at turn) page
        ↔ BecomesInvalid (copy_at l.node.memory page) (copy_at turn.after.memory page)) }
{}
