// The times of acts in a run of the protocol machine. Each function is a theorem: its body is empty, and its clauses are the law.

ghost use Rattle.std.specs.Prelude.{◌≡◌, ◌<◌, ℕ, All, List, Some};
ghost use Rattle.lrc_program.specs.declared.Program.{Program};
ghost use Rattle.lrc_clock.specs.Keeping.{KeepsTime};
ghost use Rattle.lrc_protocol.specs.declared.event.Event.{Event};
ghost use Rattle.lrc_protocol.specs.Node.{OptionsRecord};
ghost use Rattle.lrc_protocol.specs.Run.{World, run_of};

/// In every run each act is of one of the nodes, and what `times_of_acts` returns for the acts are the times of the
/// nodes just after their acts.
pub fn times_are_those_of_the_nodes()
    ensures nodes { (program : Program) (nodes : ℕ) (options : OptionsRecord) (events : List Event)
        (world : World)
        → run_of program nodes options events ≡ Some world
        → All (λ act. act.node < nodes) world.acts }
    ensures times { (program : Program) (nodes : ℕ) (options : OptionsRecord) (events : List Event)
        (world : World) (times : List (List ℕ))
        → run_of program nodes options events ≡ Some world → KeepsTime nodes world.acts times
        → times ≡ world.times }
{}
