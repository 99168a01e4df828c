// What always holds of the traces that race detectors read. Each function is a theorem: its body is empty, and its clauses are the
// law.

ghost use Rattle.std.specs.Prelude.{◌≡◌, ℕ, List, Some};
ghost use Rattle.lrc_program.specs.declared.Program.{Program};
ghost use Rattle.lrc_trace.specs.declared.act.Act.{Act};
ghost use Rattle.lrc_trace.specs.Synchronization.{IsWellSynchronized};
ghost use Rattle.lrc_protocol.specs.declared.event.Event.{Event};
ghost use Rattle.lrc_protocol.specs.Node.{OptionsRecord};
ghost use Rattle.lrc_protocol.specs.Run.{World, run_of};
ghost use Rattle.lrc_acts_text.specs.Rapid.{rapid_of};
ghost use Rattle.lrc_acts_text.specs.RapidOrder.{IsOf};
ghost use Rattle.lrc_acts_text_laws.specs.Traces.{IsWellFormed, KeepsAccesses};

/// If acts are well synchronized and use a program's locks, their RAPID trace is well formed: no step acquires a lock
/// that a node holds, and each step that releases a lock belongs to the node that holds it. This includes the locks
/// that stand for barriers.
pub fn trace_of_synchronized_acts_is_well_formed()
    ensures { (locks nodes : ℕ) (acts : List Act) → IsOf locks nodes acts
        → IsWellSynchronized nodes acts
        → IsWellFormed (rapid_of locks nodes acts) }
{}

/// The RAPID trace of acts keeps their accesses: each is one step of the same node, on the same word, and their order
/// is the same.
pub fn trace_keeps_accesses()
    ensures { (locks nodes : ℕ) (acts : List Act) → IsOf locks nodes acts
        → KeepsAccesses nodes acts (rapid_of locks nodes acts) }
{}

/// In every run, of any program, on any number of nodes and with any events, the RAPID trace is well formed and has the
/// accesses of the run in their order.
pub fn trace_of_every_run_is_well_formed()
    ensures well_formed { (program : Program) (nodes : ℕ) (options : OptionsRecord)
        (events : List Event) (world : World)
        → run_of program nodes options events ≡ Some world
        → IsWellFormed (rapid_of program.locks nodes world.acts) }
    ensures accesses { (program : Program) (nodes : ℕ) (options : OptionsRecord)
        (events : List Event) (world : World)
        → run_of program nodes options events ≡ Some world
        → KeepsAccesses nodes world.acts (rapid_of program.locks nodes world.acts) }
{}
