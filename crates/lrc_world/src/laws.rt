// What holds of every run. Each function is a theorem: its body is empty, and its clauses are the law.

ghost use Rattle.std.specs.Prelude.{◌≡◌, ℕ, List, Some, Contains, length, map, slice_get};
ghost use Rattle.lrc_program.specs.declared.Program.{Program};
ghost use Rattle.lrc_trace.specs.Conflict.{Accesses};
ghost use Rattle.lrc_trace.specs.declared.trace.Segment.{Segment};
ghost use Rattle.lrc_protocol.specs.declared.event.Event.{Event};
ghost use Rattle.lrc_protocol.specs.Node.{OptionsRecord, fresh_node};
ghost use Rattle.lrc_protocol.specs.Run.{Logged, World as Run, run_of};
ghost use Rattle.lrc_protocol.specs.Traced.{trace_of};
ghost use Rattle.lrc_world.specs.Epochs.{IsOfAccess};
ghost use Rattle.lrc_world.specs.Origins.{AreTurnsOf, act_turns, acts_in_turn};
ghost use Rattle.lrc_world.specs.Turned.{turned_of};

/// The epoch of a segment in a node's trace is the number of departs that the node made before the segment's accesses.
pub fn epochs_count_departs()
    ensures of_segment { (program : Program) (nodes : ℕ) (options : OptionsRecord)
        (events : List Event) (run : Run) (n : ℕ) (l : Logged)
        (segment : Segment) → run_of program nodes options events ≡ Some run
        → slice_get run.nodes n ≡ Some l
        → Contains (trace_of (fresh_node program nodes options n) l.log).segments segment
        → (position : ℕ) × (word : ℕ) × Accesses run.acts position n word
        × IsOfAccess run.acts n position segment }
    ensures of_access { (program : Program) (nodes : ℕ) (options : OptionsRecord)
        (events : List Event) (run : Run) (n : ℕ) (l : Logged)
        (position word : ℕ) → run_of program nodes options events ≡ Some run
        → slice_get run.nodes n ≡ Some l
        → Accesses run.acts position n word
        → (segment : Segment) × Contains
        (trace_of (fresh_node program nodes options n) l.log).segments segment
        × IsOfAccess run.acts n position segment }
{}

/// The acts of a run are those of its turns, in their order. The positions that are kept of the acts' turns are exactly
/// those of the turns that make them: in its node's log the turn at such a position stands behind as many turns as the
/// node has before it in the run, and its act is this one. There is one position for each act.
pub fn acts_are_those_of_the_turns()
    ensures acts { (program : Program) (nodes : ℕ) (options : OptionsRecord) (events : List Event)
        (run : Run)
        → run_of program nodes options events ≡ Some run
        → acts_in_turn (map (λ l. l.log) run.nodes) (turned_of program nodes options events)
        ≡ run.acts }
    ensures each { (program : Program) (nodes : ℕ) (options : OptionsRecord) (events : List Event)
        (run : Run)
        → run_of program nodes options events ≡ Some run
        → AreTurnsOf (map (λ l. l.log) run.nodes) (turned_of program nodes options events)
        (act_turns (map (λ l. l.log) run.nodes) (turned_of program nodes options events))
        run.acts }
    ensures many { (program : Program) (nodes : ℕ) (options : OptionsRecord) (events : List Event)
        (run : Run)
        → run_of program nodes options events ≡ Some run
        → length (act_turns (map (λ l. l.log) run.nodes) (turned_of program nodes options events))
        ≡ length run.acts }
{}
