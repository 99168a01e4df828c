// What settled states say of orders that can end. Each function is a theorem: its body is empty, and its clause is the law.

ghost use Rattle.std.specs.Prelude.{ℕ, List};
ghost use Rattle.lrc_program.specs.declared.Program.{Program};
ghost use Rattle.lrc_trace.specs.declared.act.Act.{Act};
ghost use Rattle.lrc_exec.specs.Plain.{Plain};
ghost use Rattle.lrc_exec.specs.Follows.{nodes_of_acts};
ghost use Rattle.lrc_orders_laws.specs.Steps.{IsSettledState};
ghost use Rattle.lrc_orders_ends.specs.Ends.{CannotEnd};
ghost use Rattle.lrc_orders_ends.specs.BySteps.{EndsBySteps, EveryStateEnds};

/// If from a settled state no steps lead to one at which no node can make an act, then the order that leads to it can no
/// longer end.
pub fn an_order_to_a_state_without_end_cannot_end()
    ensures { (program : Program) (nodes : ℕ) (acts : List Act) (machine : Plain)
        → IsSettledState program nodes acts machine → ¬ EndsBySteps machine
        → CannotEnd program nodes (nodes_of_acts acts) }
{}

/// If from each settled state steps lead to one at which no node can make an act, then there is no order that can no
/// longer end.
pub fn where_every_settled_state_ends_no_order_cannot()
    ensures { (program : Program) (nodes : ℕ) (order : List ℕ) → EveryStateEnds program nodes
        → ¬ CannotEnd program nodes order }
{}
