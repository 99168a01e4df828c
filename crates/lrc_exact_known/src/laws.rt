// Laws of what a node of the exact memory knows. Each function is a theorem: its body is empty, and its clauses are the law.

ghost use Rattle.lrc_exact_known.specs.Known.{KnownIsClosed, KnownIsMade, TimesAreKept};
ghost use Rattle.lrc_exact_known.specs.Learned.{KeptIsBefore, LearnedIsHighest};

/// The states know, of each node, as many intervals as the vector times of the run. So an interval is known exactly if it
/// was closed at the position, or at one that happens before.
pub fn what_is_known_happens_before()
    ensures times { TimesAreKept }
    ensures known { KnownIsClosed }
{}

/// What a state knows of an interval is what the interval did: its changes, its pages and its weight are those that its
/// node had just before the act that closed it.
pub fn what_is_known_was_made()
    ensures { KnownIsMade }
{}

/// Of the changes of a word that a node learns at once, the one of the highest rank stays, if it is higher than the
/// word's mark. In which order they are learned makes no difference.
pub fn the_highest_rank_stays()
    ensures { LearnedIsHighest }
{}

/// What a state keeps of a word is the word's value just before the first write of the open interval, if the node wrote
/// it there.
pub fn what_is_kept_was_before_the_first_write()
    ensures { KeptIsBefore }
{}
