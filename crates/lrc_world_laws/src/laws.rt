// What holds of every run that the simulator makes. Each function is a theorem: its body is empty, and its clauses are the law.

ghost use Rattle.std.specs.Prelude.{◌≡◌, ℕ, List, false, Some, Contains, slice_get};
ghost use Rattle.lrc_program.specs.declared.Program.{Program};
ghost use Rattle.lrc_trace.specs.Conflict.{Accesses};
ghost use Rattle.lrc_trace.specs.Interval.{interval_at};
ghost use Rattle.lrc_trace.specs.Run.{departs_before};
ghost use Rattle.lrc_trace.specs.declared.act.Act.{Act};
ghost use Rattle.lrc_trace.specs.declared.race.Race.{Race};
ghost use Rattle.lrc_trace.specs.declared.trace.Segment.{Segment};
ghost use Rattle.lrc_judge.specs.Races.{AreNamedRaces};
ghost use Rattle.lrc_envelope.specs.declared.picker.Picker.{Picker};
ghost use Rattle.lrc_protocol.specs.declared.event.Event.{Event};
ghost use Rattle.lrc_protocol.specs.Node.{OptionsRecord, fresh_node};
ghost use Rattle.lrc_protocol.specs.Run.{Logged, World as Run, run_of};
ghost use Rattle.lrc_protocol.specs.Traced.{trace_of};
ghost use Rattle.lrc_world.specs.Random.{IsWandering, WanderingWearsOut};
ghost use Rattle.lrc_world.specs.Rounds.{AreRounds, RoundsWearOut};
ghost use Rattle.lrc_world.specs.Runs.{IsRunIn};
ghost use Rattle.lrc_world.specs.declared.keep.Keep.{Keep};
ghost use Rattle.lrc_world.specs.declared.run.Order.{Order};
ghost use Rattle.lrc_world.specs.declared.run.Run.{Run as MadeRun};
ghost use Rattle.lrc_world.specs.World.{sends_long};
ghost use Rattle.lrc_world_laws.specs.Ended.{IsEnded};
ghost use Rattle.lrc_world_laws.specs.Same.{SaysTheSame};

/// A program, a number of nodes, options and a picker determine the events of a run in rounds that goes on until
/// nothing is left to do or there are 100,000,000 events. So `drive` of `lrc_world` makes the same events each time, and
/// so does `run_in`, whatever it keeps.
pub fn rounds_are_determined()
    ensures { (program : Program) (nodes : ℕ) (options : OptionsRecord) (picker : Picker)
        (events others : List Event)
        → AreRounds program nodes options picker events → IsEnded program nodes options events
        → AreRounds program nodes options picker others → IsEnded program nodes options others
        → events ≡ others }
{}

/// A program, a number of nodes, options and a seed determine the events of a run in a random order that goes on until
/// nothing is left to do or there are 100,000,000 events. So `wander` of `lrc_world` makes the same events each time,
/// and so does `run_in`, whatever it keeps.
pub fn wandering_is_determined()
    ensures { (program : Program) (nodes : ℕ) (options : OptionsRecord) (seed : ℕ)
        (events others : List Event)
        → IsWandering program nodes options seed events → IsEnded program nodes options events
        → IsWandering program nodes options seed others → IsEnded program nodes options others
        → events ≡ others }
{}

/// A run in rounds or in a random order does not wear out if it has ended so and no turn of it sends a message that is
/// too long. So once `drive` or `wander` returns a run, it never fails with `Worn` on the same input.
pub fn runs_that_end_never_wear_out()
    ensures rounds { (program : Program) (nodes : ℕ) (options : OptionsRecord) (picker : Picker)
        (events : List Event) (run : Run)
        → AreRounds program nodes options picker events → IsEnded program nodes options events
        → run_of program nodes options events ≡ Some run → sends_long run ≡ false
        → ¬ RoundsWearOut program nodes options picker }
    ensures wandering { (program : Program) (nodes : ℕ) (options : OptionsRecord) (seed : ℕ)
        (events : List Event) (run : Run)
        → IsWandering program nodes options seed events → IsEnded program nodes options events
        → run_of program nodes options events ≡ Some run → sends_long run ≡ false
        → ¬ WanderingWearsOut program nodes options seed }
{}

/// Two runs of the same events differ at most in what they keep: turns, and where acts come from. Acts determine the
/// list of their races. So a run that keeps only the newest turns has the report of a run that keeps all, but for logs.
pub fn what_is_kept_changes_the_turns_alone()
    ensures same { (program : Program) (nodes : ℕ) (options : OptionsRecord) (order another : Order)
        (keep other : Keep) (run again : MadeRun)
        → IsRunIn order program nodes options keep run
        → IsRunIn another program nodes options other again
        → again.events.items ≡ run.events.items → SaysTheSame run again }
    ensures races { (acts : List Act) (races others : List Race) → AreNamedRaces acts races
        → AreNamedRaces acts others
        → races ≡ others }
{}

/// The epoch of a segment in a node's trace is the number of departs that the node made before each of its accesses in
/// the segment's interval. No two segments of a trace have the same interval.
pub fn epoch_counts_departs_before_each_access()
    ensures epoch { (program : Program) (nodes : ℕ) (options : OptionsRecord) (events : List Event)
        (run : Run) (n : ℕ) (l : Logged)
        (segment : Segment) (position word : ℕ) → run_of program nodes options events ≡ Some run
        → slice_get run.nodes n ≡ Some l
        → Contains (trace_of (fresh_node program nodes options n) l.log).segments segment
        → Accesses run.acts position n word → segment.interval ≡ interval_at run.acts n position
        → segment.epoch ≡ departs_before run.acts n position }
    ensures one { (program : Program) (nodes : ℕ) (options : OptionsRecord) (events : List Event)
        (run : Run) (n : ℕ) (l : Logged)
        (segment other : Segment) → run_of program nodes options events ≡ Some run
        → slice_get run.nodes n ≡ Some l
        → Contains (trace_of (fresh_node program nodes options n) l.log).segments segment
        → Contains (trace_of (fresh_node program nodes options n) l.log).segments other
        → segment.interval ≡ other.interval → segment ≡ other }
{}
