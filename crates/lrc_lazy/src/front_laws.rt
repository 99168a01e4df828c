// What may go first. Each function is a theorem: its body is empty, and its clause is the law.

ghost use Rattle.std.specs.Prelude.{◌≡◌, ◌↔◌, ◌++◌, ◌∷◌, [], ℕ, List};
ghost use Rattle.lrc_program.specs.declared.Program.{Program};
ghost use Rattle.lrc_trace.specs.declared.act.Act.{Act};
ghost use Rattle.lrc_trace.specs.declared.act.Deed.{Deed};
ghost use Rattle.lrc_trace.specs.Run.{act_of};
ghost use Rattle.lrc_orders.specs.Notes.{notes_of};
ghost use Rattle.lrc_lazy.specs.Lazy.{IsLazyRun, IsOver, IsLazyOutcome};
ghost use Rattle.lrc_lazy.specs.Swapped.{pair, MayComeFirst};
ghost use Rattle.lrc_lazy.specs.Front.{IsLazyOutcomeFrom, MayGoFirst};

/// If the second of two neighbouring acts of a lazy run may come before the first, the run with these two swapped is
/// lazy too. It is over exactly if the other is, and has the same notes.
pub fn acts_of_a_lazy_run_change_places()
    ensures run { (program : Program) (nodes : ℕ) (front : List Act) (first second : Act)
        (rest : List Act)
        → IsLazyRun program nodes (pair front first second rest)
        → MayComeFirst nodes front first second
        → IsLazyRun program nodes (pair front second first rest) }
    ensures over { (program : Program) (nodes : ℕ) (front : List Act) (first second : Act)
        (rest : List Act)
        → MayComeFirst nodes front first second
        → (IsOver program nodes (pair front first second rest)
        ↔ IsOver program nodes (pair front second first rest)) }
    ensures notes { (nodes : ℕ) (front : List Act) (first second : Act) (rest : List Act)
        → MayComeFirst nodes front first second
        → notes_of nodes (pair front first second rest)
        ≡ notes_of nodes (pair front second first rest) }
{}

/// If a node may come next with an act that is no acquire, the outcomes of the lazy runs that go on from here are those
/// of the runs that go on with an act of this node. If it reads, that is with each value that it may read.
pub fn a_node_that_acquires_nothing_may_go_first()
    ensures { (program : Program) (nodes : ℕ) (acts : List Act) (node : ℕ) (notes : List Act)
        → MayGoFirst program nodes acts node
        → (IsLazyOutcomeFrom program nodes acts notes
        ↔ ((deed : Deed) × IsLazyOutcomeFrom program nodes
        (acts ++ act_of node deed ∷ []) notes)) }
{}

/// The lazy outcomes of a program are those of the runs that go on from no act.
pub fn lazy_outcomes_are_those_from_the_beginning()
    ensures { (program : Program) (nodes : ℕ) (notes : List Act)
        → (IsLazyOutcome program nodes notes ↔ IsLazyOutcomeFrom program nodes [] notes) }
{}
