// What reports say of the exact memory. Each function is a theorem: its body is empty, and its clauses are the law. The
// statements stand in specs/, so that others can cite them.

ghost use Rattle.lrc_exact_reports.specs.Laws.{EachHasAnExactOutcome, EachIsExact, LocksDecideReports, OrdersDecideReports};

/// The acts of each report read exactly, races or not, whatever barriers collect, and the exact machine, led by their order,
/// makes just these acts. It holds of each report of `simulate`, `drive` and `wander`, of `run_in` and `run_checked` in any
/// order, and of `run` on threads.
pub fn reports_read_exactly()
    ensures { EachIsExact }
{}

/// Take two reports of one program, on as many nodes, with the same options, whichever calls gave them. If in both the nodes
/// acquire each lock in the same order, as far as both go, then each node makes the same acts in both, as far as both go. If
/// in both all nodes act in the same order, the acts are the same.
pub fn locks_alone_decide_reports()
    ensures locks { LocksDecideReports }
    ensures orders { OrdersDecideReports }
{}

/// A report after whose acts no node can act has one of the exact outcomes of its program.
pub fn reports_after_which_no_node_can_act_have_an_exact_outcome()
    ensures { EachHasAnExactOutcome }
{}
