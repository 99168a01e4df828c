// Lazy runs and the plain machine. Each function is a theorem: its body is empty, and its clause is the law.

ghost use Rattle.std.specs.Prelude.{◌≡◌, ℕ, ◌↔◌, ◌++◌, ◌∷◌, [], List, Some};
ghost use Rattle.lrc_program.specs.declared.Program.{Program};
ghost use Rattle.lrc_program.specs.Tree.{program_of};
ghost use Rattle.lrc_trace.specs.declared.act.Act.{Act};
ghost use Rattle.lrc_exec.specs.Plain.{Plain, plain_start, plain_from, plain};
ghost use Rattle.lrc_exec.specs.Follows.{nodes_of_acts};
ghost use Rattle.lrc_consistency_laws.specs.Racing.{HasNoRace};
ghost use Rattle.lrc_orders.specs.Outcome.{IsOutcome};
ghost use Rattle.lrc_orders.specs.Stuck.{IsAtRest};
ghost use Rattle.lrc_lazy.specs.Buffering.{store_buffering, both_print_zero};
ghost use Rattle.lrc_lazy.specs.Lazy.{IsLazyRun, IsOver, AllHaveStoppedOrWait, IsLazyOutcome, HasNoLazyRace, RacesInSomeOrder, RacesInSomeLazyRun};

/// After a lazy run no node can act exactly if no further act makes a lazy run. A node that is about to read always has
/// a value that it may read.
pub fn a_run_is_over_where_no_lazy_run_goes_on()
    ensures { (program : Program) (nodes : ℕ) (acts : List Act) → IsLazyRun program nodes acts
        → (IsOver program nodes acts
        ↔ ((act : Act) → ¬ IsLazyRun program nodes (acts ++ act ∷ []))) }
{}

/// No node can act if each has ended, has trapped, waits for a lock that some node holds, or waits at a barrier that
/// some node has not reached. So a run in which every node ends is over.
pub fn a_run_is_over_where_each_node_has_stopped_or_waits()
    ensures { (program : Program) (nodes : ℕ) (acts : List Act)
        → AllHaveStoppedOrWait program nodes acts → IsOver program nodes acts }
{}

/// After a run of the plain machine no node can act exactly if the machine is at rest. So lazy outcomes are of runs
/// that are over in the same sense as those of the plain machine's outcomes, even with races.
pub fn a_run_is_over_where_the_plain_machine_is_at_rest()
    ensures { (program : Program) (nodes : ℕ) (order : List ℕ) (acts : List Act) (machine : Plain)
        → plain_from (plain_start program nodes) order ≡ Some (acts, machine)
        → (IsOver program nodes acts ↔ IsAtRest machine) }
{}

/// A program has a race in some lazy run exactly if it has one in some order. It has none in any lazy run exactly if it
/// has none in any order.
pub fn lazy_runs_race_where_orders_do()
    ensures some { (program : Program) (nodes : ℕ)
        → (RacesInSomeLazyRun program nodes ↔ RacesInSomeOrder program nodes) }
    ensures none { (program : Program) (nodes : ℕ)
        → (HasNoLazyRace program nodes ↔ HasNoRace program nodes) }
{}

/// If no order has a race, the lazy runs are exactly the runs of the plain machine.
pub fn without_a_race_lazy_runs_are_plain()
    ensures { (program : Program) (nodes : ℕ) → HasNoRace program nodes → (acts : List Act)
        → (IsLazyRun program nodes acts ↔ (plain program nodes (nodes_of_acts acts) ≡ Some acts)) }
{}

/// If no order has a race, the lazy outcomes are exactly the outcomes of the orders.
pub fn without_a_race_lazy_outcomes_are_plain()
    ensures { (program : Program) (nodes : ℕ) → HasNoRace program nodes → (notes : List Act)
        → (IsLazyOutcome program nodes notes ↔ IsOutcome program nodes notes) }
{}

/// Store buffering: two nodes each write one word and then read the other's. Both may read 0 in a lazy run, but in no
/// order of the plain machine. So with races a lazy outcome need not be one of the plain machine.
pub fn store_buffering_has_an_outcome_that_is_lazy_alone()
    ensures lazy { (program : Program) → program_of program ≡ store_buffering
        → IsLazyOutcome program 2 both_print_zero }
    ensures plain { (program : Program) → program_of program ≡ store_buffering
        → ¬ IsOutcome program 2 both_print_zero }
{}
