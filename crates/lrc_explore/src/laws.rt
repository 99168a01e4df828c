// What the answer of the search says of runs. The function is a theorem: its body is empty, and its clause is the law.

ghost use Rattle.std.specs.Prelude.{◌≡◌, ℕ, List, Some};
ghost use Rattle.lrc_program.specs.declared.Program.{Program};
ghost use Rattle.lrc_trace.specs.declared.act.Act.{Act};
ghost use Rattle.lrc_trace.specs.Conflict.{IsRaceFree};
ghost use Rattle.lrc_trace.specs.Reading.{ReadsLazily};
ghost use Rattle.lrc_trace.specs.Synchronization.{IsWellSynchronized};
ghost use Rattle.lrc_exec.specs.Plain.{plain};
ghost use Rattle.lrc_exec.specs.Follows.{FollowsText, nodes_of_acts};
ghost use Rattle.lrc_orders.specs.declared.search.Verdict.{Verdict};
ghost use Rattle.lrc_orders.specs.Verdict.{FindsNoRace};
ghost use Rattle.lrc_explore.specs.Answers.{IsAnswer};

/// If every order was examined and none races, then a run that follows the text, is well synchronized and reads lazily
/// has no race and is one of the plain machine.
pub fn runs_of_explored_programs_are_plain()
    ensures { (program : Program) (nodes : ℕ) (verdict : Verdict) (run : List Act)
        → IsAnswer program nodes verdict → FindsNoRace verdict
        → FollowsText program nodes run → IsWellSynchronized nodes run → ReadsLazily run
        → IsRaceFree run × (plain program nodes (nodes_of_acts run) ≡ Some run) }
{}
