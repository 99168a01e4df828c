// One word of a page. Each function is a theorem: its body is empty, and its clause is the law.

ghost use Rattle.lrc_copies.specs.WordLaws.{ZeroFitsNothing, UnwrittenWordsAreZero, OnlyWritersCount, OnlyMembersCount, OpenIntervalKeepsTheFit};
ghost use Rattle.lrc_copies.specs.WordLaws.{OrderedWritersHaveALast, ClosingStaysSound, ClosingWithoutAWriteStaysSound, AddingOneKeepsTheFit};
ghost use Rattle.lrc_copies.specs.WordLaws.{RepairingKeepsTheFit, FittingIsDecided};

/// Zero fits the empty list: before the first write a word is zero.
pub fn zero_fits_nothing<A>()
    ensures { ZeroFitsNothing A }
{}

/// If no member of a list wrote the word, only zero fits.
pub fn unwritten_words_are_zero<A>()
    ensures { UnwrittenWordsAreZero A }
{}

/// Of the members of a list, only those that wrote the word count, and of these only that they are members. So a copy
/// still fits a list with more intervals if none of them writes the word.
pub fn only_writers_count<A>()
    ensures { OnlyWritersCount A }
{}

/// Only what the members wrote, and which of them is below which, counts.
pub fn only_members_count<A>()
    ensures { OnlyMembersCount A }
{}

/// If a copy fits a list, then what an open interval makes of the copy fits the list with the interval: the interval's
/// last value, or the copy's value if the interval did not write.
pub fn open_interval_keeps_the_fit<A>()
    ensures { OpenIntervalKeepsTheFit A }
{}

/// If the writers in a list are ordered, there is none, or one is the last: the heaviest. Finding it requires no
/// decision but which of two numbers is larger.
pub fn ordered_writers_have_a_last<A>()
    ensures { OrderedWritersHaveALast A }
{}

/// An interval that is closed after all others is sound, even if it wrote the value that the word had before.
pub fn closing_stays_sound<A>()
    ensures { ClosingStaysSound A }
{}

/// An interval that is closed after all others is sound if it neither wrote the word nor has a change of it.
pub fn closing_without_a_write_stays_sound<A>()
    ensures { ClosingWithoutAWriteStaysSound A }
{}

/// Applying the changes of one interval keeps the fit, if all writers below it are in and it is below no writer that is
/// in.
pub fn adding_one_keeps_the_fit<A>()
    ensures { AddingOneKeepsTheFit A }
{}

/// Applying the changes of several intervals by rising weight keeps the fit.
pub fn repairing_keeps_the_fit<A>()
    ensures { RepairingKeepsTheFit A }
{}

/// If intervals are named by numbers, a test decides whether a value fits.
pub fn fitting_is_decided()
    ensures { FittingIsDecided }
{}
