// Laws of programs without a race over the exact memory. Each function is a theorem: its body is empty, and its clause is
// the law.

ghost use Rattle.lrc_exact_plain.specs.Laws.{OutcomesArePlain, RunsArePlain};

/// If no order of a program has a race, its exact runs are exactly the runs of the plain machine, for pages of any size,
/// with collections or without.
pub fn without_a_race_exact_runs_are_plain()
    ensures { RunsArePlain }
{}

/// If no order has a race, the exact outcomes are exactly the outcomes of the orders.
pub fn without_a_race_exact_outcomes_are_plain()
    ensures { OutcomesArePlain }
{}
