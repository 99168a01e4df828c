// What settled states have of a program. Each function is a theorem: its body is empty, and its clause is the law.

ghost use Rattle.std.specs.Prelude.{◌≡◌, ◌≢◌, ℕ, ◌<◌, ◌↔◌, List, [], ◌∷◌, ◌++◌, Option, Some};
ghost use Rattle.lrc_program.specs.declared.Program.{Program};
ghost use Rattle.lrc_trace.specs.declared.act.Act.{Act};
ghost use Rattle.lrc_trace.specs.declared.act.Deed.{Deed};
ghost use Rattle.lrc_exec.specs.Meaning.{Thread};
ghost use Rattle.lrc_exec.specs.Plain.{Plain, thread_in, plain_step, plain_from, plain_start};
ghost use Rattle.lrc_exec.specs.Follows.{deeds_of, nodes_of_acts};
ghost use Rattle.lrc_consistency_laws.specs.Racing.{HasNoRace};
ghost use Rattle.lrc_orders.specs.Outcome.{IsOutcome};
ghost use Rattle.lrc_orders.specs.Meeting.{Meet};
ghost use Rattle.lrc_orders.specs.Stuck.{IsAtRest, GetsStuck};
ghost use Rattle.lrc_orders.specs.Traps.{NeverTraps};
ghost use Rattle.lrc_orders.specs.Verdict.{EndsInRace};
ghost use Rattle.lrc_orders_laws.specs.Free.{after_quiets, Turns, TurnsAt};
ghost use Rattle.lrc_orders_laws.specs.Rows.{AreAlike, GoesOnAlike};
ghost use Rattle.lrc_orders_laws.specs.Settling.{IsSettled, Settles};
ghost use Rattle.lrc_orders_laws.specs.Steps.{IsSettledState, NeverMeetsSettled, NeverTrapsSettled, GetsStuckSettled, IsSettledOutcome, IsSettledCertificate};
ghost use Rattle.lrc_orders_laws.specs.Threads.{ThreadSettles, SettlesByThreads, SettlesTogether, LocksSettle};

/// A program has no race exactly if at no settled state two nodes are about to access the same word, and at least one
/// of them to write it.
pub fn a_race_is_a_meeting_of_a_settled_state()
    ensures { (program : Program) (nodes : ℕ)
        → (HasNoRace program nodes ↔ NeverMeetsSettled program nodes) }
{}

/// Some order gets stuck exactly if there is a settled state at which no node can make an act and some node has neither
/// ended nor trapped. (A node that turns for ever can make an act.)
pub fn some_order_gets_stuck_where_a_settled_state_is()
    ensures { (program : Program) (nodes : ℕ)
        → (((order : List ℕ) × GetsStuck program nodes order) ↔ GetsStuckSettled program nodes) }
{}

/// A node traps in no order exactly if in none of the acts that lead to a settled state one does. (After a trap the
/// others can settle, and what settles has all traps that were made.)
pub fn no_order_traps_where_no_way_to_a_settled_state_does()
    ensures { (program : Program) (nodes : ℕ)
        → (NeverTraps program nodes ↔ NeverTrapsSettled program nodes) }
{}

/// The outcomes are exactly those of the settled states at which no node can make an act.
pub fn outcomes_are_those_of_settled_states()
    ensures { (program : Program) (nodes : ℕ) (notes : List Act)
        → (IsOutcome program nodes notes ↔ IsSettledOutcome program nodes notes) }
{}

/// An order leads to each settled state, by the acts that the state was found by; and the state is settled.
pub fn to_a_settled_state_an_order_leads()
    ensures { (program : Program) (nodes : ℕ) (acts : List Act) (machine : Plain)
        → IsSettledState program nodes acts machine
        → (plain_from (plain_start program nodes) (nodes_of_acts acts) ≡ Some (acts, machine))
        × IsSettled machine }
{}

/// Let a list of states contain the settled start, and every state that a step leads to from one of them. If at none of
/// them two nodes meet, the program has no race.
pub fn settled_states_without_a_meeting_certify()
    ensures { (program : Program) (nodes : ℕ) (states : List Plain)
        → IsSettledCertificate program nodes states → HasNoRace program nodes }
{}

/// Settling a state makes exactly one list of acts and leads to exactly one state.
pub fn settling_is_determined()
    ensures { (machine there other : Plain) (acts others : List Act) → Settles machine acts there
        → Settles machine others other
        → (acts ≡ others) × (there ≡ other) }
{}

/// A thread that returns by quiet acts and prints to the same statements, private values and locks turns for ever.
pub fn a_thread_that_comes_round_turns_for_ever()
    ensures { (thread : Thread) (count : ℕ) → 0 < count → after_quiets count thread ≡ Some thread
        → Turns thread }
{}

/// Settling a state settles each thread by itself, node by node. The memory does not change.
pub fn each_thread_settles_by_itself()
    ensures { (machine final : Plain) (acts : List Act) → Settles machine acts final
        → SettlesByThreads machine acts final }
{}

/// If a state is settled and one node makes a step, settling the result changes no other node's thread and makes no act
/// of another node.
pub fn after_a_step_of_one_node_the_others_are_settled()
    ensures { (machine mid final : Plain) (node : ℕ) (deed : Deed) (acts : List Act)
        → IsSettled machine
        → plain_step machine node ≡ Some (deed, mid) → Settles mid acts final → (other : ℕ)
        → other ≢ node
        → (thread_in final other ≡ thread_in machine other) × (deeds_of other acts ≡ []) }
{}

/// If two nodes meet at a settled state, the acts that lead there, followed by both accesses, are a run whose last two
/// acts race.
pub fn a_meeting_of_a_settled_state_ends_in_a_race()
    ensures { (program : Program) (nodes : ℕ) (acts : List Act) (machine : Plain) (p q : ℕ)
        → IsSettledState program nodes acts machine
        → Meet machine p q → EndsInRace program nodes (nodes_of_acts acts ++ p ∷ q ∷ []) }
{}

/// From a state at which a node turns for ever, no order leads to a state at which no node can make an act. So it leads
/// to no outcome, and to no state at which the program is stuck.
pub fn where_a_node_turns_for_ever_no_order_ends()
    ensures { (machine final : Plain) (order : List ℕ) (acts : List Act) (node : ℕ)
        → plain_from machine order ≡ Some (acts, final)
        → TurnsAt machine node → ¬ IsAtRest final }
{}

/// If each thread settles by itself, by some deeds and to some thread, the state settles by these deeds and to these
/// threads.
pub fn where_the_threads_settle_the_state_does()
    ensures { (machine : Plain) (deeds : ℕ → List Deed) (there : ℕ → Option Thread)
        → ((node : ℕ) → ThreadSettles (thread_in machine node) (deeds node) (there node))
        → SettlesTogether machine deeds there }
{}

/// A lock that settling gives back is free afterwards. Any other lock is held as before.
pub fn settling_gives_locks_back()
    ensures { (machine final : Plain) (acts : List Act) → Settles machine acts final
        → LocksSettle machine acts final }
{}

/// How often nodes have arrived does not matter: two settled states with the same words, holders of locks and threads
/// go on alike. So a loop of barriers has finitely many.
pub fn settled_states_go_on_alike_whatever_the_episode()
    ensures { (program : Program) (nodes : ℕ) (acts others : List Act) (machine other : Plain)
        → IsSettledState program nodes acts machine
        → IsSettledState program nodes others other → AreAlike machine other
        → GoesOnAlike machine other }
{}
