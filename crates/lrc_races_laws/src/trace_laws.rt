// Laws of traces of threads. Each function is a theorem: its body is empty, and its clauses are the law.

ghost use Rattle.std.specs.Prelude.{◌≡◌, ◌<◌, ◌↔◌, ℕ, List, Some};
ghost use Rattle.lrc_program.specs.declared.Program.{Program};
ghost use Rattle.lrc_trace.specs.declared.act.Act.{Act};
ghost use Rattle.lrc_trace.specs.declared.act.Deed.{Deed};
ghost use Rattle.lrc_trace.specs.Run.{Does};
ghost use Rattle.lrc_trace.specs.Order.{HappensBefore as HappensBeforeOfActs};
ghost use Rattle.lrc_trace.specs.Conflict.{Races as RacesOfActs};
ghost use Rattle.lrc_trace.specs.Synchronization.{IsWellSynchronized, WaitsAtBarriers};
ghost use Rattle.lrc_protocol.specs.declared.event.Event.{Event as Step};
ghost use Rattle.lrc_protocol.specs.Node.{OptionsRecord};
ghost use Rattle.lrc_protocol.specs.Run.{World, run_of};
ghost use Rattle.lrc_races_trace.specs.declared.event.Event.{Event};
ghost use Rattle.lrc_races_trace.specs.declared.event.Pair.{Pair};
ghost use Rattle.lrc_races_trace.specs.Order.{HappensBefore};
ghost use Rattle.lrc_races_trace.specs.Races.{Races, AreTold};
ghost use Rattle.lrc_races_trace.specs.Formed.{IsWellFormed};
ghost use Rattle.lrc_acts_text.specs.Rapid.{rapid_of};
ghost use Rattle.lrc_races_laws.specs.Traces.{Numbers, AreEvents, AreToldOf};
ghost use Rattle.lrc_races_laws.specs.Steps.{AreEventsOfSteps, AreToldOfSteps};

/// If events stand for well-synchronized acts whose nodes wait at barriers, their order is the acts' happens before,
/// their races are the acts' races, and the pairs told are such races: for each access, the last with each node.
pub fn races_of_synchronized_acts_are_told()
    ensures order { (numbers : Numbers) (nodes : ℕ) (acts : List Act) (events : List Event)
        → AreEvents numbers acts events
        → ((j p : ℕ) (d : Deed) → Does acts j p d → p < nodes) → IsWellSynchronized nodes acts
        → WaitsAtBarriers acts
        → (i j : ℕ) → HappensBefore events i j ↔ HappensBeforeOfActs acts i j }
    ensures races { (numbers : Numbers) (nodes : ℕ) (acts : List Act) (events : List Event)
        → AreEvents numbers acts events
        → ((j p : ℕ) (d : Deed) → Does acts j p d → p < nodes) → IsWellSynchronized nodes acts
        → WaitsAtBarriers acts
        → (i j : ℕ) → Races events i j ↔ RacesOfActs acts i j }
    ensures told { (numbers : Numbers) (nodes : ℕ) (acts : List Act) (events : List Event)
        (pairs : List Pair) → AreEvents numbers acts events
        → ((j p : ℕ) (d : Deed) → Does acts j p d → p < nodes) → IsWellSynchronized nodes acts
        → WaitsAtBarriers acts
        → AreTold events pairs → AreToldOf acts pairs }
{}

/// In every run, of any program, on any number of nodes and with any events, the races of the events that stand for the
/// acts are the races of the run. So are the pairs told.
pub fn races_of_every_run_are_told()
    ensures races { (program : Program) (nodes : ℕ) (options : OptionsRecord) (steps : List Step)
        (world : World) (numbers : Numbers)
        (events : List Event) → run_of program nodes options steps ≡ Some world
        → AreEvents numbers world.acts events
        → (i j : ℕ) → Races events i j ↔ RacesOfActs world.acts i j }
    ensures told { (program : Program) (nodes : ℕ) (options : OptionsRecord) (steps : List Step)
        (world : World) (numbers : Numbers)
        (events : List Event) (pairs : List Pair) → run_of program nodes options steps ≡ Some world
        → AreEvents numbers world.acts events
        → AreTold events pairs → AreToldOf world.acts pairs }
{}

/// In every run, of any program, on any number of nodes and with any events, the pairs told of its RAPID trace are
/// races of the run: for each access, the last with each node.
pub fn races_of_every_rapid_trace_are_told()
    ensures { (program : Program) (nodes : ℕ) (options : OptionsRecord) (steps : List Step)
        (world : World) (numbers : Numbers)
        (events : List Event) (pairs : List Pair) → run_of program nodes options steps ≡ Some world
        → AreEventsOfSteps numbers (rapid_of program.locks nodes world.acts) events
        → AreTold events pairs
        → AreToldOfSteps world.acts (rapid_of program.locks nodes world.acts) pairs }
{}

/// In every run, of any program, on any number of nodes and with any events, no event that stands for an act is one
/// that a program cannot give. Neither is any event of its RAPID trace.
pub fn every_run_is_well_formed()
    ensures acts { (program : Program) (nodes : ℕ) (options : OptionsRecord) (steps : List Step)
        (world : World) (numbers : Numbers)
        (events : List Event) → run_of program nodes options steps ≡ Some world
        → AreEvents numbers world.acts events
        → IsWellFormed events }
    ensures rapid { (program : Program) (nodes : ℕ) (options : OptionsRecord) (steps : List Step)
        (world : World) (numbers : Numbers)
        (events : List Event) → run_of program nodes options steps ≡ Some world
        → AreEventsOfSteps numbers (rapid_of program.locks nodes world.acts) events
        → IsWellFormed events }
{}
