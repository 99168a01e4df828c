// Laws of the exact machine. Each function is a theorem: its body is empty, and its clauses are the law.

ghost use Rattle.lrc_exact_machine.specs.Laws.{MakesExactRuns, MakesEachExactRun};

/// What the exact machine makes, one act for each entry of an order, is a run of the program that reads exactly, in that
/// order. And it makes each such run, led by the order of the run's acts.
pub fn the_exact_machine_makes_the_exact_runs()
    ensures sound { MakesExactRuns }
    ensures complete { MakesEachExactRun }
{}
