// What a search of every order says of the distributed memory. Each function is a theorem: its body is empty, and its clause is the
// law.

ghost use Rattle.std.specs.Prelude.{◌≡◌, ℕ, List, None, Some, []};
ghost use Rattle.lrc_program.specs.declared.Program.{Program};
ghost use Rattle.lrc_trace.specs.Conflict.{IsRaceFree};
ghost use Rattle.lrc_judge.specs.Races.{AreNamedRaces};
ghost use Rattle.lrc_exec.specs.Plain.{plain};
ghost use Rattle.lrc_exec.specs.Follows.{nodes_of_acts};
ghost use Rattle.lrc_protocol.specs.declared.event.Event.{Event};
ghost use Rattle.lrc_protocol.specs.Node.{OptionsRecord};
ghost use Rattle.lrc_world.specs.Report.{IsReportOf};
ghost use Rattle.lrc_world.specs.declared.report.Report.{Report};
ghost use Rattle.lrc_orders.specs.Verdict.{FindsNoRace};
ghost use Rattle.lrc_explore.specs.Answers.{IsAnswer};
ghost use Rattle.lrc_orders.specs.declared.search.Verdict.{Verdict};

/// If every order was searched and none races, then no report of the distributed memory has a race, and its acts are
/// those of the plain machine. This holds for all options and events, and so also for runs in rounds, at random and on
/// threads, because each of their reports is the report of some events.
pub fn reports_of_explored_programs_are_plain()
    ensures plain { (program : Program) (nodes : ℕ) (verdict : Verdict) (options : OptionsRecord)
        (events : List Event) (report : Report)
        → IsAnswer program nodes verdict → FindsNoRace verdict
        → IsReportOf program nodes options events report
        → IsRaceFree report.acts.items
        × (plain program nodes (nodes_of_acts report.acts.items) ≡ Some report.acts.items) }
    ensures unraced { (program : Program) (nodes : ℕ) (verdict : Verdict) (options : OptionsRecord)
        (events : List Event) (report : Report)
        → IsAnswer program nodes verdict → FindsNoRace verdict
        → IsReportOf program nodes options events report
        → AreNamedRaces report.acts.items report.races.items
        → (report.first_race ≡ None) × (report.races.items ≡ []) }
{}
