// What undisputed acts leave to come. Each function is a theorem: its body is empty, and its clause is the law.

ghost use Rattle.std.specs.Prelude.{◌≡◌, ℕ, ◌+◌, ◌↔◌, List, [], ◌∷◌, ◌++◌, Some, Contains};
ghost use Rattle.lrc_program.specs.declared.Program.{Program};
ghost use Rattle.lrc_trace.specs.declared.act.Act.{Act};
ghost use Rattle.lrc_trace.specs.declared.act.Deed.{Deed};
ghost use Rattle.lrc_trace.specs.Run.{act_of};
ghost use Rattle.lrc_exec.specs.Plain.{Plain, plain_step};
ghost use Rattle.lrc_consistency_laws.specs.Racing.{HasNoRace};
ghost use Rattle.lrc_orders.specs.Meeting.{IsCalm, IsReachable};
ghost use Rattle.lrc_orders.specs.Outcome.{IsOutcome};
ghost use Rattle.lrc_orders.specs.Stuck.{GetsStuck};
ghost use Rattle.lrc_orders_undisputed.specs.Undisputed.{IsUndisputed};
ghost use Rattle.lrc_orders_undisputed.specs.Findings.{Finding, meeting, stuck, outcome, Comes, StandsFor, SomeOrderShows};
ghost use Rattle.lrc_orders_undisputed.specs.Rounds.{ComesRound, ComesWithout};
ghost use Rattle.lrc_orders_undisputed.specs.Searched.{Advances, Suffice, SomeStateShows};

/// If some order comes to a meeting, a stuck state, a trap, a state from which no end is reached, or an outcome, some
/// order that makes an undisputed act first does, and it is longer by no more than this act. And what is to come after
/// an act is to come before it.
pub fn an_undisputed_act_loses_nothing()
    ensures forth { (program : Program) (nodes : ℕ) (machine after : Plain) (node : ℕ) (deed : Deed)
        (past : List Act) (finding : Finding) → IsReachable program nodes machine
        → IsUndisputed machine node deed after
        → StandsFor finding past machine (past ++ act_of node deed ∷ []) after }
    ensures back { (machine after : Plain) (node : ℕ) (deed : Deed) (past : List Act) (most : ℕ)
        (finding : Finding) → plain_step machine node ≡ Some (deed, after)
        → Comes (past ++ act_of node deed ∷ []) after most finding
        → Comes past machine (most + 1) finding }
{}

/// The same of many undisputed acts, one after the other, of any nodes.
pub fn undisputed_acts_lose_nothing()
    ensures { (program : Program) (nodes : ℕ) (machine there : Plain) (acts past : List Act)
        (finding : Finding) → IsReachable program nodes machine → Advances machine acts there
        → StandsFor finding past machine (past ++ acts) there }
{}

/// If a node comes back to where it was by undisputed acts alone, its acts can be left out: what some order comes to,
/// some order of the other nodes does, with no more acts.
pub fn a_node_that_comes_round_can_be_left_alone()
    ensures { (program : Program) (nodes : ℕ) (machine : Plain) (node : ℕ) (past : List Act) (most : ℕ)
        (finding : Finding) → IsReachable program nodes machine → ComesRound machine node
        → Comes past machine most finding → ComesWithout node past machine most finding }
{}

/// Let states suffice: one stands for the start, and one for each state to which a step leads from one of them, except
/// for the steps of nodes that come round. Then some order comes to what is looked for exactly if one of these states
/// shows it.
pub fn states_that_suffice_show_all()
    ensures { (program : Program) (nodes : ℕ) (finding : Finding) (states : List (List Act × Plain))
        → Suffice program nodes finding states
        → (SomeOrderShows program nodes finding ↔ SomeStateShows states finding) }
{}

/// A program has no race exactly if at none of the states that suffice two nodes meet.
pub fn states_that_suffice_tell_races()
    ensures { (program : Program) (nodes : ℕ) (states : List (List Act × Plain))
        → Suffice program nodes meeting states
        → (HasNoRace program nodes ↔ ((acts : List Act) (machine : Plain) → Contains states (acts, machine)
        → IsCalm machine)) }
{}

/// Some order gets stuck exactly if one of the states that suffice is stuck.
pub fn states_that_suffice_tell_stuck_orders()
    ensures { (program : Program) (nodes : ℕ) (states : List (List Act × Plain))
        → Suffice program nodes stuck states
        → (((order : List ℕ) × GetsStuck program nodes order) ↔ SomeStateShows states stuck) }
{}

/// Notes are an outcome exactly if one of the states that suffice shows them: no node can make an act there, and the acts
/// that led there have these notes.
pub fn states_that_suffice_tell_outcomes()
    ensures { (program : Program) (nodes : ℕ) (notes : List Act) (states : List (List Act × Plain))
        → Suffice program nodes (outcome nodes notes) states
        → (IsOutcome program nodes notes ↔ SomeStateShows states (outcome nodes notes)) }
{}
