// Copies by times. Each function is a theorem: its body is empty, and its clause is the law.

ghost use Rattle.lrc_copies.specs.TimeLaws.{ZerosAreACut, JoinsAreCuts, JoinsCoverEither, ClosingUntouchedKeepsThePageFitting, StampsBelowWeighLess};
ghost use Rattle.lrc_copies.specs.TimeLaws.{ClosingKeepsStamps, ClosingAddsLast, ClosingKeepsCuts, ClosingAtATimeStaysSound, ClosingAtATimeFits};
ghost use Rattle.lrc_copies.specs.TimeLaws.{ClosingKeepsThePageFitting, UncoveredIntervalsMakeNoDifference, UntouchedPageFitsALaterTime};
ghost use Rattle.lrc_copies.specs.TimeLaws.{RepairingReachesALaterTime, MissingIntervalsAreLacking};

/// If an interval is below another, it weighs less.
pub fn stamps_below_weigh_less<A>()
    ensures { StampsBelowWeighLess A }
{}

/// The interval that a node closes next keeps the list stamped, and is added last. A time that was a cut and does not
/// cover the interval is still a cut.
pub fn closing_keeps_stamps<A>()
    ensures stamped { ClosingKeepsStamps A }
    ensures added { ClosingAddsLast A }
    ensures cuts { ClosingKeepsCuts A }
{}

/// The time that covers nothing is a cut. The join of two cuts is a cut, and covers exactly what one of the two covers.
pub fn zeros_and_joins_are_cuts<A>()
    ensures none { ZerosAreACut A }
    ensures joins { JoinsAreCuts A }
    ensures either { JoinsCoverEither A }
{}

/// If a node closes an interval at a time that its twin fits, the interval is sound with the changes between twin and
/// copy, and the copy fits the interval's stamp.
pub fn closing_at_a_time_stays_sound<A>()
    ensures sound { ClosingAtATimeStaysSound A }
    ensures fits { ClosingAtATimeFits A }
{}

/// If a copy fits a time with an open interval, it fits the interval's stamp once the interval is closed.
pub fn closing_keeps_the_page_fitting<A>()
    ensures { ClosingKeepsThePageFitting A }
{}

/// If a copy fits a time and the open interval did not write the page, the copy fits the interval's stamp once the
/// interval is closed.
pub fn closing_untouched_keeps_the_page_fitting<A>()
    ensures { ClosingUntouchedKeepsThePageFitting A }
{}

/// If a copy fits a time, it still fits when an interval that the time does not cover is added.
pub fn uncovered_intervals_make_no_difference<A>()
    ensures { UncoveredIntervalsMakeNoDifference A }
{}

/// A copy that fits a time fits a later one, if no interval between the two wrote the page.
pub fn untouched_page_fits_a_later_time<A>()
    ensures { UntouchedPageFitsALaterTime A }
{}

/// Repair: a copy that fits a time fits a later time once the changes of all intervals between the two were applied, by
/// weight, node and index. The copy may be an invalid one, with the time that its node remembers of it, or a base copy,
/// with the time up to which everything was collected.
pub fn repairing_reaches_a_later_time<A>()
    ensures { RepairingReachesALaterTime A }
{}

/// The intervals that a store names as missing from a page are those that the copy lacks. They are the stored intervals
/// that name the page and that the earlier time does not cover, in order. This requires that the store has all
/// intervals between the two times, that it has none that the later time does not cover, and that an interval that does
/// not name the page did not write it.
pub fn missing_intervals_are_lacking<A>()
    ensures { MissingIntervalsAreLacking A }
{}
