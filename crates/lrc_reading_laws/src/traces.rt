// The traces that the nodes of a run keep, and their races. Each function is a theorem: its body is empty, and its clauses are
// the law.

ghost use Rattle.std.specs.Prelude.{◌≡◌, ◌↔◌, ℕ, List, Some, Contains};
ghost use Rattle.lrc_program.specs.declared.Program.{Program};
ghost use Rattle.lrc_trace.specs.declared.race.Race.{Race};
ghost use Rattle.lrc_trace.specs.Interval.{IsNamedRace};
ghost use Rattle.lrc_trace.specs.Trace.{TraceRecord};
ghost use Rattle.lrc_race.specs.Epochs.{EpochsAgree, EpochsRise};
ghost use Rattle.lrc_race.specs.OfRun.{AreOfRun};
ghost use Rattle.lrc_race.specs.Races.{AreTracesOf, IsRaceOf, RisesAlong};
ghost use Rattle.lrc_protocol.specs.declared.event.Event.{Event};
ghost use Rattle.lrc_protocol.specs.Node.{OptionsRecord};
ghost use Rattle.lrc_protocol.specs.Run.{World, run_of};
ghost use Rattle.lrc_protocol.specs.Traced.{traces_of};

/// In every run the traces that the nodes keep are those of the run. They have a segment for each interval with an
/// access, with the stamp that the interval has or would have, and with the words that the node reads and writes in it.
/// Each trace is of one of the nodes, its times have an entry for each node, and its epochs and times rise. Of two
/// segments of different nodes and epochs the later one knows the other.
pub fn traces_are_those_of_the_run()
    ensures of_run { (program : Program) (nodes : ℕ) (options : OptionsRecord) (events : List Event)
        (world : World)
        → run_of program nodes options events ≡ Some world
        → AreOfRun world.acts world.times (traces_of program nodes options world) }
    ensures nodes { (program : Program) (nodes : ℕ) (options : OptionsRecord) (events : List Event)
        (world : World)
        → run_of program nodes options events ≡ Some world
        → AreTracesOf nodes (traces_of program nodes options world) }
    ensures epochs { (program : Program) (nodes : ℕ) (options : OptionsRecord) (events : List Event)
        (world : World)
        → run_of program nodes options events ≡ Some world
        → EpochsAgree (traces_of program nodes options world) }
    ensures rising { (program : Program) (nodes : ℕ) (options : OptionsRecord) (events : List Event)
        (world : World) (a : TraceRecord)
        → run_of program nodes options events ≡ Some world
        → Contains (traces_of program nodes options world) a
        → EpochsRise a × RisesAlong a }
{}

/// In every run the races of the traces that the nodes keep are exactly the races that the run names. (Vector time and
/// accesses by interval: Perkovic and Keleher 1996.)
pub fn races_of_the_traces_are_those_of_the_run()
    ensures { (program : Program) (nodes : ℕ) (options : OptionsRecord) (events : List Event)
        (world : World) (race : Race)
        → run_of program nodes options events ≡ Some world
        → IsRaceOf (traces_of program nodes options world) race ↔ IsNamedRace world.acts race }
{}
