// What the shared memory makes of a program is among the program's lazy runs. Each function is a theorem: its body is empty, and its
// clause is the law.

ghost use Rattle.std.specs.Prelude.{◌≡◌, ℕ, List, Some};
ghost use Rattle.lrc_program.specs.declared.Program.{Program};
ghost use Rattle.lrc_orders.specs.Notes.{notes_of};
ghost use Rattle.lrc_lazy.specs.Lazy.{IsLazyRun, IsOver, IsLazyOutcome};
ghost use Rattle.lrc_protocol.specs.declared.event.Event.{Event};
ghost use Rattle.lrc_protocol.specs.Node.{OptionsRecord};
ghost use Rattle.lrc_protocol.specs.Run.{World, run_of};

/// In every run the acts are a lazy run, whatever the options and the order of events. They follow the text, each is
/// made where locks and barriers let it, and each read is lazy.
pub fn runs_are_lazy_runs()
    ensures { (program : Program) (nodes : ℕ) (options : OptionsRecord) (events : List Event)
        (world : World)
        → run_of program nodes options events ≡ Some world → IsLazyRun program nodes world.acts }
{}

/// A run after which no node can act by the text, locks and barriers has one of the lazy outcomes, whatever its steps
/// and the messages on the way.
pub fn runs_after_which_no_node_can_act_have_a_lazy_outcome()
    ensures { (program : Program) (nodes : ℕ) (options : OptionsRecord) (events : List Event)
        (world : World)
        → run_of program nodes options events ≡ Some world → IsOver program nodes world.acts
        → IsLazyOutcome program nodes (notes_of nodes world.acts) }
{}
