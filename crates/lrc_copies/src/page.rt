// A whole page, of any length. Each function is a theorem: its body is empty, and its clause is the law.

ghost use Rattle.lrc_copies.specs.PageLaws.{OnlyMembersCountForThePage, OnlyMembersCountForSoundness, ZeroPageFitsNothing, ZeroPageOfASizeFitsNothing};
ghost use Rattle.lrc_copies.specs.PageLaws.{UntouchedPageKeepsFitting, WritingKeepsThePageFitting, WritingIsOverTheSameTwin};
ghost use Rattle.lrc_copies.specs.PageLaws.{OpenIntervalKeepsThePageFitting, ClosingAWrittenPageStaysSound, ClosingAnUntouchedPageStaysSound};
ghost use Rattle.lrc_copies.specs.PageLaws.{RepairingKeepsThePageFitting};

/// A page of zeros fits the empty list: before the first write a page is zero.
pub fn zero_page_fits_nothing<A>()
    ensures any_length { ZeroPageFitsNothing A }
    ensures of_a_size { ZeroPageOfASizeFitsNothing A }
{}

/// A copy still fits if the list gets more intervals that did not write the page.
pub fn untouched_page_keeps_fitting<A>()
    ensures { UntouchedPageKeepsFitting A }
{}

/// Only what the members of a list did counts. So the fit remains if a node writes in an interval that is no member;
/// likewise soundness, for which changes and weights count too.
pub fn only_members_count_for_the_page<A>()
    ensures fits { OnlyMembersCountForThePage A }
    ensures sound { OnlyMembersCountForSoundness A }
{}

/// A write in an interval that is below none of the list keeps the fit with the list and the interval.
pub fn writing_keeps_the_page_fitting<A>()
    ensures { WritingKeepsThePageFitting A }
{}

/// After such a write, the copy is still what the interval made of the same twin.
pub fn writing_is_over_the_same_twin<A>()
    ensures { WritingIsOverTheSameTwin A }
{}

/// If a twin fits a list and an interval is below none of it, then what the interval makes of the twin fits the list
/// with the interval.
pub fn open_interval_keeps_the_page_fitting<A>()
    ensures { OpenIntervalKeepsThePageFitting A }
{}

/// An interval that wrote the page is sound once it is closed with the changes between twin and copy, even if it wrote
/// the value that a word had before.
pub fn closing_a_written_page_stays_sound<A>()
    ensures { ClosingAWrittenPageStaysSound A }
{}

/// An interval that did not write the page is sound without changes, whatever copy its node has of the page.
pub fn closing_an_untouched_page_stays_sound<A>()
    ensures { ClosingAnUntouchedPageStaysSound A }
{}

/// Applying the changes of intervals by rising weight keeps the fit, if each interval below one of them is already in,
/// or is one of them, or did not write the page.
pub fn repairing_keeps_the_page_fitting<A>()
    ensures { RepairingKeepsThePageFitting A }
{}
