// What states have in common whose threads go on alike. Each function is a theorem: its body is empty, and its clause is the law.

ghost use Rattle.std.specs.Prelude.{◌≡◌, ℕ, ◌↔◌, Bool, List, Some};
ghost use Rattle.lrc_trace.specs.declared.act.Act.{Act};
ghost use Rattle.lrc_trace.specs.declared.act.Deed.{Deed};
ghost use Rattle.lrc_exec.specs.Meaning.{Thread};
ghost use Rattle.lrc_exec.specs.Plain.{Plain, plain_step, plain_from};
ghost use Rattle.lrc_orders.specs.Meeting.{Meet};
ghost use Rattle.lrc_orders.specs.Stuck.{IsAtRest, IsStuck};
ghost use Rattle.lrc_orders_laws.specs.Alike.{By, GoOnAlike, StandAlike, StepsAlike, RunsAlike};
ghost use Rattle.lrc_orders_laws.specs.Names.{AgreeWhereItMatters};

/// If the threads of two states go on alike, each step of the one is a step of the other, with the same deed.
pub fn steps_are_alike()
    ensures { (related : Thread → Thread → Bool) (machine other after : Plain) (node : ℕ)
        (deed : Deed) → GoOnAlike (By related)
        → StandAlike (By related) machine other → plain_step machine node ≡ Some (deed, after)
        → StepsAlike (By related) other node deed after }
{}

/// If the threads of two states go on alike, each order gives both the same acts. So they have the same runs, races and
/// outcomes.
pub fn orders_are_alike()
    ensures { (related : Thread → Thread → Bool) (machine other final : Plain) (order : List ℕ)
        (acts : List Act) → GoOnAlike (By related)
        → StandAlike (By related) machine other → plain_from machine order ≡ Some (acts, final)
        → RunsAlike (By related) other order acts final }
{}

/// If the threads of two states go on alike, the same nodes meet at both. One is at rest exactly if the other is, and
/// stuck exactly if the other is.
pub fn what_is_seen_is_alike()
    ensures meet { (related : Thread → Thread → Bool) (machine other : Plain) (p q : ℕ)
        → GoOnAlike (By related) → StandAlike (By related) machine other
        → (Meet machine p q ↔ Meet other p q) }
    ensures rest { (related : Thread → Thread → Bool) (machine other : Plain)
        → GoOnAlike (By related) → StandAlike (By related) machine other
        → (IsAtRest machine ↔ IsAtRest other) }
    ensures stuck { (related : Thread → Thread → Bool) (machine other : Plain)
        → GoOnAlike (By related) → StandAlike (By related) machine other
        → (IsStuck machine ↔ IsStuck other) }
{}

/// Threads that have the same values of the names that matter go on alike.
pub fn names_that_do_not_matter_change_nothing()
    ensures { GoOnAlike AgreeWhereItMatters }
{}
