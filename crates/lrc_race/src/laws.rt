// A law of the races of traces: a function whose clause is the statement, and which does nothing.

ghost use Rattle.lrc_race.specs.OfRun.{RacesAreNamed};

/// For the traces of a well-synchronized run whose nodes wait at barriers, the races of the traces are exactly the
/// races that the run names. So `races` lists the run's races.
pub fn races_of_a_run_are_named()
    ensures { RacesAreNamed }
{}
