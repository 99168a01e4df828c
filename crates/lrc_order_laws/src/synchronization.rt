// What locks and barriers give together in every run. Each function is a theorem: its body is empty, and its clauses are the
// law.

ghost use Rattle.std.specs.Prelude.{◌≡◌, ℕ, List, Some};
ghost use Rattle.lrc_program.specs.declared.Program.{Program};
ghost use Rattle.lrc_trace.specs.Synchronization.{IsWellSynchronized};
ghost use Rattle.lrc_clock.specs.Keeping.{KeepsTime};
ghost use Rattle.lrc_protocol.specs.declared.event.Event.{Event};
ghost use Rattle.lrc_protocol.specs.Node.{OptionsRecord};
ghost use Rattle.lrc_protocol.specs.Run.{World, run_of};

/// In every run the acts are well synchronized: no node acquires a lock that some node holds, only a lock's holder
/// releases it, and no node departs from a barrier before every node has arrived there.
pub fn acts_are_well_synchronized()
    ensures { (program : Program) (nodes : ℕ) (options : OptionsRecord) (events : List Event)
        (world : World)
        → run_of program nodes options events ≡ Some world → IsWellSynchronized nodes world.acts }
{}

/// In every run the times keep the rule of vector times. An act that synchronizes nothing leaves its node's time
/// unchanged. A release, an arrive and an acquire raise the node's own entry. An acquire learns what the lock's last
/// release knew. A depart learns what every node knew at its arrive with the number of this depart. So each time is
/// exactly what happens before the act.
pub fn every_run_keeps_time()
    ensures { (program : Program) (nodes : ℕ) (options : OptionsRecord) (events : List Event)
        (world : World)
        → run_of program nodes options events ≡ Some world
        → KeepsTime nodes world.acts world.times }
{}
