// What always holds of pictures of runs. Each function is a law: its clause is the statement, and there is nothing to do.

ghost use Rattle.std.specs.Prelude.{List};
ghost use Rattle.lrc_trace.specs.declared.act.Act.{Act};
ghost use Rattle.lrc_chart_build.specs.declared.part.Place.{Place};
ghost use Rattle.lrc_chart_build.specs.Bands.{AreBandsOf, barriers, shown_bands};

/// Each barrier that a node reaches or leaves at a row has exactly one band, from the first such row to the last, and
/// there are no other bands.
pub fn each_barrier_has_one_band()
    ensures { (acts : List Act) (rows : List Place)
        → AreBandsOf (barriers acts rows) (shown_bands acts rows) }
{}
