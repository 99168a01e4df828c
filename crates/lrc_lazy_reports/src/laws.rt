// What reports say of the lazy outcomes of a program. Each function is a theorem: its body is empty, and its clauses are the law.

ghost use Rattle.std.specs.Prelude.{ℕ, List};
ghost use Rattle.lrc_program.specs.declared.Program.{Program};
ghost use Rattle.lrc_envelope.specs.declared.picker.Picker.{Picker};
ghost use Rattle.lrc_orders.specs.Notes.{notes_of};
ghost use Rattle.lrc_post.specs.Mailbox.{MailboxRecord};
ghost use Rattle.lrc_lazy.specs.Lazy.{IsLazyOutcome, IsOver};
ghost use Rattle.lrc_protocol.specs.declared.event.Event.{Event};
ghost use Rattle.lrc_protocol.specs.Node.{OptionsRecord};
ghost use Rattle.lrc_world.specs.declared.keep.Keep.{Keep};
ghost use Rattle.lrc_world.specs.declared.report.Report.{Report};
ghost use Rattle.lrc_world.specs.declared.run.Order.{Order};
ghost use Rattle.lrc_world.specs.declared.run.Run.{Run};
ghost use Rattle.lrc_world.specs.Report.{IsReportOf};
ghost use Rattle.lrc_world.specs.Runs.{IsRunIn};
ghost use Rattle.lrc_run.specs.Run.{IsThreadedRun};

/// A report after whose acts no node can act has one of the lazy outcomes of its program: a report of `simulate`,
/// `drive` or `wander` (`simulated`), of `run_in` and `run_checked` in any order (`made`), and of `run` on threads
/// (`threaded`).
pub fn reports_after_which_no_node_can_act_have_a_lazy_outcome()
    ensures simulated { (program : Program) (nodes : ℕ) (options : OptionsRecord)
        (events : List Event) (report : Report)
        → IsReportOf program nodes options events report
        → IsOver program nodes report.acts.items
        → IsLazyOutcome program nodes (notes_of nodes report.acts.items) }
    ensures made { (order : Order) (program : Program) (nodes : ℕ) (options : OptionsRecord)
        (keep : Keep) (run : Run)
        → IsRunIn order program nodes options keep run
        → IsOver program nodes run.report.acts.items
        → IsLazyOutcome program nodes (notes_of nodes run.report.acts.items) }
    ensures threaded { (program : Program) (nodes : ℕ) (options : OptionsRecord) (picker : Picker)
        (keep : Keep) (run : Run) (wires : List MailboxRecord)
        → IsThreadedRun program nodes options picker keep run wires
        → IsOver program nodes run.report.acts.items
        → IsLazyOutcome program nodes (notes_of nodes run.report.acts.items) }
{}
