// What a settled state depends on. Each function is a theorem: its body is empty, and its clause is the law.

ghost use Rattle.std.specs.Prelude.{ℕ, List};
ghost use Rattle.lrc_program.specs.declared.Program.{Program};
ghost use Rattle.lrc_trace.specs.declared.act.Act.{Act};
ghost use Rattle.lrc_exec.specs.Plain.{Plain};
ghost use Rattle.lrc_orders_laws.specs.Steps.{IsSettledState};
ghost use Rattle.lrc_orders_live.specs.Like.{AreLike, GoesOnLike};

/// Two settled states go on alike if they differ only in how often nodes have arrived and in the values of names that
/// nothing uses any more.
pub fn settled_states_go_on_alike_whatever_is_dead()
    ensures { (program : Program) (nodes : ℕ) (acts others : List Act) (machine other : Plain)
        → IsSettledState program nodes acts machine
        → IsSettledState program nodes others other → AreLike machine other
        → GoesOnLike machine other }
{}
