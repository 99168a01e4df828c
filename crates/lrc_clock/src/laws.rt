// Laws of timed runs that keep time. Each function is a theorem: its body is empty, and its clauses are the law. The
// statements stand in specs/, so that others can cite them.

ghost use Rattle.lrc_clock.specs.Laws.{ArrivedCoversArrives, ArrivedIsCover, ArrivedIsLeast, ArrivedIsSettled};
ghost use Rattle.lrc_clock.specs.Laws.{ArrivedOnPrefix, BarrierHasOwn, BarriersRise, BeforeIsLast, BeforeIsZeros};
ghost use Rattle.lrc_clock.specs.Laws.{CloserCoversStamp, CloserHasIndex, CoveredDoesNotCover, CoveredIsLighter};
ghost use Rattle.lrc_clock.specs.Laws.{CutAt, CutBefore, CutOfStamp, EarlierEpochHappensBefore};
ghost use Rattle.lrc_clock.specs.Laws.{EarlierEpochIsCovered, EntryBound, EntryBoundBefore, EntryIsCover};
ghost use Rattle.lrc_clock.specs.Laws.{IntervalBetween, IntervalOfClosing, IntervalOfOther, IntervalOfStamp};
ghost use Rattle.lrc_clock.specs.Laws.{IntervalOrderIsCover, KeepingIsDecided, KeepsByOneMore, KeepsOnPrefix};
ghost use Rattle.lrc_clock.specs.Laws.{LengthAt, LengthBefore, LengthOfStamp, MeetingIsCover, NamedRaceIsOfSegments};
ghost use Rattle.lrc_clock.specs.Laws.{NamedRaceIsUnknown, OpenAtPosition, OpenToBarrier, OpenToLock, OpenToNode};
ghost use Rattle.lrc_clock.specs.Laws.{OrderIsCover, OtherEntryIsHappensBefore, OwnEntryAt, PresentIsCover};
ghost use Rattle.lrc_clock.specs.Laws.{ReleasedIsCover, ReleasedIsLast, ReleasedIsZeros, ReleasedOnPrefix};
ghost use Rattle.lrc_clock.specs.Laws.{SegmentTime, StampHasIndex, StampIsTimeBefore, StampOfInterval, StampOnPrefix};
ghost use Rattle.lrc_clock.specs.Laws.{StampsRise, TimeBeforeOnPrefix, TimeOnPrefix, TimeStandsStill, TimesAreOne};
ghost use Rattle.lrc_clock.specs.Laws.{TimesExist, TimesRise, UnorderedIsUnknown, WaitingIsCover};

/// Every time has an entry for each node.
pub fn every_time_has_an_entry_for_each_node()
    ensures at { LengthAt }
    ensures before { LengthBefore }
    ensures stamp { LengthOfStamp }
{}

/// A node's own entry at its position is the number of its closing acts up to and including that position.
pub fn own_entry_counts_closes()
    ensures { OwnEntryAt }
{}

/// The interval of a position is the node's own entry there, plus one unless the act closes an interval.
pub fn interval_is_own_entry()
    ensures other { IntervalOfOther }
    ensures closing { IntervalOfClosing }
    ensures between { IntervalBetween }
    ensures stamp { IntervalOfStamp }
{}

/// No time knows more intervals of a node than that node has closed.
pub fn nobody_knows_more_of_a_node()
    ensures at { EntryBound }
    ensures before { EntryBoundBefore }
{}

/// Times rise along happens before.
pub fn times_rise_along_happens_before()
    ensures { TimesRise }
{}

/// Times characterize happens before (Mattern 1989, Fidge 1988): an entry of the time at a position is at least k
/// exactly if the closing act of that node's interval k is the position or happens before it.
pub fn entry_is_cover()
    ensures any { EntryIsCover }
    ensures other { OtherEntryIsHappensBefore }
{}

/// The present time of a node covers exactly the intervals that were closed at one of its positions or before them in
/// happens before. This holds between its acts and after its last act. While it waits for a lock, the time also covers
/// the interval that it closed for that. After it takes a barrier's time and before it departs, the time also covers
/// what that time covers.
pub fn present_time_is_cover()
    ensures between { PresentIsCover }
    ensures meeting { MeetingIsCover }
    ensures waiting { WaitingIsCover }
{}

/// The time that a lock passes on with its last release covers exactly the intervals closed at its releases or before
/// them in happens before. The time of a barrier covers those closed at its arrives or before them.
pub fn learned_time_is_cover()
    ensures released { ReleasedIsCover }
    ensures arrived { ArrivedIsCover }
{}

/// The time of a barrier is the least time that covers the times at its arrives.
pub fn barrier_time_is_the_least_cover()
    ensures covers { ArrivedCoversArrives }
    ensures least { ArrivedIsLeast }
{}

/// Of two acts of different nodes, the one happens before the other exactly if the other's time covers its interval.
pub fn order_of_acts_is_cover()
    ensures { OrderIsCover }
{}

/// A closing act's time covers the stamp of the interval that it closes, and has the same own entry. In every other
/// entry the stamp is the node's time before the act. So only an acquire, which learns more, has a time above the
/// stamp.
pub fn stamps_are_of_closing_acts()
    ensures covered { CloserCoversStamp }
    ensures act_index { CloserHasIndex }
    ensures stamp_index { StampHasIndex }
    ensures before { StampIsTimeBefore }
{}

/// The stamps of a node's intervals rise.
pub fn stamps_of_a_node_rise()
    ensures { StampsRise }
{}

/// Times are closed downward: every interval that a time covers was closed, and the time covers its stamp. A stamp also
/// covers its own interval.
pub fn times_are_closed_downward()
    ensures at { CutAt }
    ensures before { CutBefore }
    ensures stamp { CutOfStamp }
{}

/// If the stamp of an interval covers another interval, the stamp of that other interval weighs less, and does not
/// cover the first.
pub fn covered_interval_is_lighter()
    ensures lighter { CoveredIsLighter }
    ensures one_way { CoveredDoesNotCover }
{}

/// Two accesses of different nodes are unordered exactly if neither's time covers the other's interval. The named races
/// are those of two such accesses.
pub fn unordered_accesses_are_unknown()
    ensures accesses { UnorderedIsUnknown }
    ensures races { NamedRaceIsUnknown }
{}

/// The named races are exactly those of two segments of different nodes such that one wrote the word, the other
/// accessed it, and neither time covers the other's interval.
pub fn named_races_are_of_segments()
    ensures { NamedRaceIsOfSegments }
{}

/// Within an interval a node's time does not change after its first access.
pub fn time_stands_still_within_an_interval()
    ensures time { TimeStandsStill }
    ensures stamp { StampOfInterval }
    ensures segment { SegmentTime }
{}

/// An act happens before an access of another node exactly if the stamp of the access's interval covers the act's
/// interval.
pub fn order_of_intervals_is_cover()
    ensures { IntervalOrderIsCover }
{}

/// Epochs are ordered. If an act that is no depart has fewer departs of its node before it than another act has of its
/// own, then it happens before that act, and that act's time covers its interval.
pub fn earlier_epoch_is_covered()
    ensures before { EarlierEpochHappensBefore }
    ensures covered { EarlierEpochIsCovered }
{}

/// The times on a prefix are those on the whole run.
pub fn times_on_a_prefix()
    ensures at { TimeOnPrefix }
    ensures before { TimeBeforeOnPrefix }
    ensures stamp { StampOnPrefix }
    ensures released { ReleasedOnPrefix }
    ensures arrived { ArrivedOnPrefix }
{}

/// If a list of times keeps time for a run, its prefix keeps time for the prefix of the run. One more act keeps time
/// exactly if its node is in range and its time is that of the rule.
pub fn keeping_time_on_a_prefix()
    ensures prefix { KeepsOnPrefix }
    ensures one_more { KeepsByOneMore }
{}

/// A run of the given nodes has exactly one list of times that keeps time. Whether a list keeps time is decidable.
pub fn the_rule_determines_the_times()
    ensures exist { TimesExist }
    ensures one { TimesAreOne }
    ensures decided { KeepingIsDecided }
{}

/// The time of a node is that of its last act, and the time of a lock is that of its last release, or all zeros if
/// there is none.
pub fn times_are_those_of_the_last()
    ensures before { BeforeIsLast }
    ensures zeros { BeforeIsZeros }
    ensures released { ReleasedIsLast }
    ensures released_zeros { ReleasedIsZeros }
{}

/// The time of a barrier does not change once every node has arrived. It covers the time of the barrier before, and for
/// each node it has the node's own entry at its arrive.
pub fn barrier_times_are_settled()
    ensures settled { ArrivedIsSettled }
    ensures rise { BarriersRise }
    ensures own { BarrierHasOwn }
{}

/// No time knows an interval that is open at its position or later.
pub fn open_intervals_are_unknown()
    ensures at { OpenAtPosition }
    ensures node { OpenToNode }
    ensures lock { OpenToLock }
    ensures barrier { OpenToBarrier }
{}
