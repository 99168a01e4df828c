// Laws of the plain machine and of its rounds. These functions do nothing: each contract states a law.

ghost use Rattle.std.specs.Prelude.{◌≡◌, ℕ, ◌++◌, List, Option, Some, map, option_map, take};
ghost use Rattle.lrc_program.specs.declared.Program.{Program};
ghost use Rattle.lrc_trace.specs.declared.act.Act.{Act};
ghost use Rattle.lrc_exec.specs.Plain.{Plain, plain_start, plain_from, plain};
ghost use Rattle.lrc_exec.specs.Rounds.{AreActsOfRounds};

/// If an order is cut at any point, the plain machine's acts for it are cut at the same point.
pub fn an_order_can_be_cut()
    ensures { (program : Program) (nodes cut : ℕ) (order : List ℕ) (acts : List Act)
        → plain program nodes order ≡ Some acts
        → plain program nodes (take cut order) ≡ Some (take cut acts) }
{}

/// The acts for two orders in sequence are those for the first, followed by those that the machine then makes for the
/// second.
pub fn orders_follow_each_other()
    ensures { (program : Program) (nodes : ℕ) (first second : List ℕ) (acts : List Act)
        (machine : Plain)
        → plain_from (plain_start program nodes) first ≡ Some (acts, machine)
        → plain program nodes (first ++ second)
        ≡ option_map (λ more. acts ++ more.0) (plain_from machine second) }
{}

/// The plain machine makes one act for each entry of an order, by the node that the entry names.
pub fn each_entry_makes_an_act()
    ensures { (program : Program) (nodes : ℕ) (order : List ℕ) (acts : List Act)
        → plain program nodes order ≡ Some acts → map (λ act. act.node) acts ≡ order }
{}

/// The rounds of a program determine its list of acts.
pub fn rounds_are_determined()
    ensures { (program : Program) (nodes steps : ℕ) (first second : List Act)
        → AreActsOfRounds program nodes steps first
        → AreActsOfRounds program nodes steps second → first ≡ second }
{}
